//! Files whose accounts are out: one with other accounts is answered meanwhile, and one with the same account waits.

use super::holding::{UntilAnswered, WhileWaited};
use super::{all_served, workers_of};
use crate::connections::{posted, sample_times};
use crate::same::same;
use crate::sample::{keys, put, request_with};
use bank_model::Setup;
use bank_samples::transfer::TRANSFER;
use bank_server::AllEnd;
use bank_shared::Opened;
use ofx_file::OfxPrinter;
use ofx_ports::{Link, MemClock, MemDoor, MemKeeper};
use ofx_types::Status;
use std::alloc::Global;
use std::process::Abort;

/// The sample's setup with an account more for each user.
const FOUR_ACCOUNTS: &[u8] = b"\
    OFXBANK 1\n\
    BANK 121099999\n\
    LEAD 5\n\
    WINDOW 3\n\
    ENTRIES 9999999999\n\
    USER alice secret\n\
    USER bob hunter\n\
    ACCT 1001 CHECKING 10000 alice\n\
    ACCT 1002 SAVINGS 5000 alice bob\n\
    ACCT 1003 CHECKING 0 alice\n\
    ACCT 1004 CHECKING 0 bob\n";

/// Where the sample's transfer goes.
const TO_1002: &str = "<ACCTID>1002\r\n<ACCTTYPE>SAVINGS\r\n</BANKACCTTO>";

/// Where it comes from, and the account of the sample's statement.
const FROM_1001: &str = "<ACCTID>1001\r\n<ACCTTYPE>CHECKING\r\n</BANKACCTFROM>";

/// 1.00 in place of 10.00.
const ONE_DOLLAR: (&str, &str) = ("<TRNAMT>10.00", "<TRNAMT>1.00");

/// A request of the other user.
const BOB: [(&str, &str); 2] = [
    ("<USERID>alice", "<USERID>bob"),
    ("<USERPASS>secret", "<USERPASS>hunter"),
];

/// A bank with four accounts.
fn opened_with_four(rt: &impl Abort, alloc: Global) -> Opened<MemKeeper, OfxPrinter> {
    let setup = Setup::read(alloc, FOUR_ACCOUNTS).expect(rt, "a setup");
    let opened = Opened::open(alloc, keys(rt), MemKeeper::new(alloc), setup, OfxPrinter);
    opened.ok().expect(rt, "a bank")
}

/// The sample's request with these changes, as a request of a link.
fn request_of(rt: &impl Abort, alloc: Global, changes: &[(&str, &str)]) -> Vec<u8> {
    let framed = request_with(rt, alloc, changes);
    let (_, file) = framed.split_once("\n").unwrap_or(("", ""));
    posted(rt, alloc, "1.1", file.as_bytes())
}

/// One request after another.
fn both(rt: &impl Abort, alloc: Global, first: &[u8], second: &[u8]) -> Vec<u8> {
    let mut bytes = Vec::new(alloc);
    put(rt, &mut bytes, first);
    put(rt, &mut bytes, second);
    bytes
}

/// Bob's statement of 1004.
fn statement_of_1004(rt: &impl Abort, alloc: Global) -> Vec<u8> {
    let [user, pass] = BOB;
    let account = (
        FROM_1001,
        "<ACCTID>1004\r\n<ACCTTYPE>CHECKING\r\n</BANKACCTFROM>",
    );
    request_of(rt, alloc, &[user, pass, account])
}

/// What came to the links of two workers.
fn written(rt: &impl Abort, alloc: Global, all: &AllEnd<MemDoor, MemClock>) -> [String; 2] {
    let mut texts = [String::new(alloc), String::new(alloc)];
    for (text, worked) in texts.iter_mut().zip(all.ends.iter()) {
        for link in worked.door.back() {
            let held = str::from_utf8(link.held()).expect(rt, "a text");
            text.push_str(held).expect(rt, "room");
        }
    }
    texts
}

/// Alice pays 1.00 from 1001 to 1003, and is held at the gate until bob's payment of 1.00 from 1002 to 1004 is answered.
#[test]
fn files_without_a_common_account_overlap(rt: HostRuntime) {
    let alloc = rt.alloc();
    let to_1003 = (
        TO_1002,
        "<ACCTID>1003\r\n<ACCTTYPE>CHECKING\r\n</BANKACCTTO>",
    );
    let by_alice = request_of(&rt, alloc, &[TRANSFER, ONE_DOLLAR, to_1003]);
    let [user, pass] = BOB;
    let to_1004 = (
        TO_1002,
        "<ACCTID>1004\r\n<ACCTTYPE>CHECKING\r\n</BANKACCTTO>",
    );
    let from_1002 = (
        FROM_1001,
        "<ACCTID>1002\r\n<ACCTTYPE>SAVINGS\r\n</BANKACCTFROM>",
    );
    // Both the transfer and the statement after it are of 1002.
    let changes = [
        TRANSFER, ONE_DOLLAR, user, pass, to_1004, from_1002, from_1002,
    ];
    let paid = request_of(&rt, alloc, &changes);
    let by_bob = both(&rt, alloc, &paid, &statement_of_1004(&rt, alloc));
    let gate = UntilAnswered::new(&rt);
    let workers = workers_of(&rt, alloc, &[by_alice, by_bob]);
    let opened = opened_with_four(&rt, alloc);
    let all = all_served(&rt, alloc, opened, workers, &gate, 1);
    same(&rt, all.status, Status(0));
    assert!(rt; gate.was_answered());
    let [to_alice, to_bob] = written(&rt, alloc, &all);
    assert!(rt;
        to_alice.contains("<XFERPRCCODE>POSTEDON\r\n") && to_alice.contains("<BALAMT>99.00\r\n")
    );
    assert!(rt;
        to_bob.contains("<XFERPRCCODE>POSTEDON\r\n") && to_bob.contains("<BALAMT>1.00\r\n")
    );
}

/// Alice's payment from 1001 to 1002 is held at the gate. A statement of 1001 in another worker doesn't come to its gate before the
/// payment is let go, and shows it.
#[test]
fn a_file_waits_for_an_account_that_is_out(rt: HostRuntime) {
    let alloc = rt.alloc();
    let paid = request_of(&rt, alloc, &[TRANSFER, ONE_DOLLAR]);
    let statement = sample_times(&rt, alloc, 1);
    let later = both(&rt, alloc, &statement_of_1004(&rt, alloc), &statement);
    let gate = WhileWaited::new(&rt);
    let workers = workers_of(&rt, alloc, &[paid, later]);
    let opened = opened_with_four(&rt, alloc);
    let all = all_served(&rt, alloc, opened, workers, &gate, 1);
    same(&rt, all.status, Status(0));
    assert!(rt; gate.was_waited_for());
    let [to_first, to_second] = written(&rt, alloc, &all);
    assert!(rt;
        to_first.contains("<XFERPRCCODE>POSTEDON\r\n") && to_first.contains("<BALAMT>99.00\r\n")
    );
    assert!(rt; to_second.contains("<BALAMT>99.00\r\n"));
}
