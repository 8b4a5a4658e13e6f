//! Books: banks that open over records in memory, and the accounts that events name.

ghost use Rattle.std.specs.Prelude.{◌≡◌, false, is_some};

use crate::same::same;
use crate::sample::{keys, request_with, setup};
use bank_core::Book;
use bank_model::{Event, Printer};
use bank_replay::{OpenFault, reopen};
use bank_samples::transfer::TRANSFER;
use ofx_file::read_request;
use ofx_ports::{Keeper, MemKeeper};
use ofx_types::{AcctId, OutOfMemory, ReplyFile, UserId};
use std::alloc::Global;
use std::process::Abort;

/// A letter from the bank to its first user on 31 January 2024 at 12:00:00: subject `A`, body `B`.
const LETTER: &[u8] = b"\
    \x01\x04\x00\x00\x00\x00\x65\xba\x36\x40\
    \x00\x00\x00\x00\x00\x01A\x00\x01B";

/// At the same moment the transfer with the id 1 is posted.
const POST: &[u8] = b"\
    \x01\x02\x00\x00\x00\x00\x65\xba\x36\x40\
    \x00\x00\x00\x00\x00\x00\x00\x01";

/// A printer without paper: these banks answer no files.
#[derive(Clone, Copy)]
struct NoPrinter;

impl Printer for NoPrinter {
    fn print(&self, _alloc: Global, _reply: &ReplyFile) -> Result<Vec<u8>, OutOfMemory> {
        Err(OutOfMemory)
    }
}

/// A keeper of two records, of which the first is a letter.
fn after_a_letter(rt: &impl Abort, alloc: Global, rec: &[u8]) -> MemKeeper
    ensures { is_some result.landed ≡ false }
{
    let mut keeper = MemKeeper::new(alloc);
    keeper.append(LETTER).expect(rt, "room");
    keeper.append(rec).expect(rt, "room");
    keeper
}

#[test]
fn what_was_kept_has_happened(rt: HostRuntime) {
    let alloc = rt.alloc();
    let mut keeper = after_a_letter(&rt, alloc, LETTER);
    let opened = reopen(alloc, keys(&rt), &mut keeper, setup(&rt, alloc), NoPrinter);
    let (book, accounts) = opened.expect(&rt, "a bank");
    same(&rt, book.next_number(), Some(3));
    assert!(rt; accounts.len() == 2);
    same(&rt, accounts[1].number().0, 1);
    same(&rt, accounts[1].balance().0, 5_000);
}

/// Why no bank opens from records of which the first is a letter.
fn fault_after_a_letter(rt: &impl Abort, alloc: Global, rec: &[u8]) -> Option<OpenFault> {
    let mut keeper = after_a_letter(rt, alloc, rec);
    reopen(alloc, keys(rt), &mut keeper, setup(rt, alloc), NoPrinter).err()
}

/// Second records: of an unknown version, of an unknown kind, cut in a number, and of a transfer that doesn't wait.
const STRANGE: &[(&[u8], OpenFault)] = &[
    (b"\x02", OpenFault::Record(2, 0)),
    (b"\x01\x05", OpenFault::Record(2, 1)),
    (
        b"\x01\x02\x00\x00\x00\x00\x65\xba\x36\x40\x00\x00\x00\x00\x00\x00\x00",
        OpenFault::Record(2, 10),
    ),
    (POST, OpenFault::Illegal(2)),
];

#[test]
fn the_record_that_stops_a_bank_is_reported(rt: HostRuntime) {
    for case in STRANGE.iter() {
        let (rec, fault) = *case;
        same(&rt, fault_after_a_letter(&rt, rt.alloc(), rec), Some(fault));
    }
}

#[test]
fn a_second_record_that_cannot_be_fetched_is_read(rt: HostRuntime) {
    let alloc = rt.alloc();
    let mut keeper = MemKeeper::failing(alloc, &[4], &[]).expect(&rt, "a keeper");
    keeper.append(LETTER).expect(&rt, "room");
    keeper.append(LETTER).expect(&rt, "room");
    let fault = reopen(alloc, keys(&rt), &mut keeper, setup(&rt, alloc), NoPrinter).err();
    same(&rt, fault, Some(OpenFault::Read));
    same(&rt, keeper.faults(), 1);
}

/// Changes of the sample's request, which asks for a statement of 1001, and the accounts that it names then: with a transfer
/// from 1001 to 1002 after it, to an account that the bank hasn't, and a statement of 1002 or of no account of the bank.
const NAMED: &[(&[(&str, &str)], &[AcctId])] = &[
    (&[], &[AcctId(0)]),
    (&[TRANSFER], &[AcctId(0), AcctId(1)]),
    (&[TRANSFER, ("<ACCTID>1002", "<ACCTID>1009")], &[AcctId(0)]),
    (
        &[(
            "<ACCTID>1001\r\n<ACCTTYPE>CHECKING",
            "<ACCTID>1002\r\n<ACCTTYPE>SAVINGS",
        )],
        &[AcctId(1)],
    ),
    (&[("<ACCTTYPE>CHECKING", "<ACCTTYPE>SAVINGS")], &[]),
];

/// Alice's file with these changes of the sample's request.
fn file_with(rt: &impl Abort, alloc: Global, changes: &[(&str, &str)]) -> Event {
    let framed = request_with(rt, alloc, changes);
    let (_, file) = framed.split_once("\n").unwrap_or(("", ""));
    let request = read_request(alloc, file.as_bytes()).expect(rt, "a request");
    Event::File(UserId(0), request)
}

/// A posting of a transfer that there isn't names no account.
#[test]
fn an_event_names_its_accounts_in_order(rt: HostRuntime) {
    let alloc = rt.alloc();
    let begun = Book::begin(alloc, keys(&rt), setup(&rt, alloc), NoPrinter);
    let (book, _) = begun.expect(&rt, "a bank");
    for case in NAMED.iter() {
        let (changes, accounts) = *case;
        let event = file_with(&rt, alloc, changes);
        let named = book.named(alloc, &event).expect(&rt, "accounts");
        assert!(rt; named.as_slice() == accounts);
    }
    let named = book.named(alloc, &Event::Post(1)).expect(&rt, "accounts");
    assert!(rt; named.is_empty());
}
