//! Setups that are read, and the lines at which others are refused.

use crate::same::same;
use crate::sample::{ALICE, BOB, account, bank, text};
use bank_model::{Setup, SetupFault};
use ofx_types::{AcctId, AcctKind, Cents, Duplicate};
use std::alloc::Global;
use std::process::Abort;

/// A setup in form, line by line.
const LINES: [&str; 9] = [
    "OFXBANK 1\n",
    "BANK 121099999\n",
    "LEAD 5\n",
    "WINDOW 3\n",
    "ENTRIES 9999999999\n",
    "USER alice secret\n",
    "USER bob hunter\n",
    "ACCT 1001 CHECKING 10000 alice\n",
    "ACCT 1002 SAVINGS 5000 alice bob\n",
];

/// That setup with other text in place of one line.
fn with_line(rt: &impl Abort, alloc: Global, number: usize, text: &str) -> String {
    let mut setup = String::new(alloc);
    for (at, line) in LINES.iter().enumerate() {
        if at.wrapping_add(1) == number {
            setup.push_str(text).expect(rt, "room");
        } else {
            setup.push_str(line).expect(rt, "room");
        }
    }
    setup
}

#[test]
fn reads_a_setup(rt: HostRuntime) {
    let alloc = rt.alloc();
    let setup = bank(&rt, alloc);
    assert!(rt; setup.bank.as_bytes() == b"121099999".as_slice());
    let numbers = (setup.lead, setup.window, setup.entries);
    same(&rt, numbers, (5, 3, 9_999_999_999));
    assert!(rt; setup.users.items().len() == 2);
    assert!(rt; setup.users.items()[1].name.as_bytes() == b"bob".as_slice());
    assert!(rt; setup.users.items()[1].pass.as_bytes() == b"hunter".as_slice());
    assert!(rt; setup.accounts.items().len() == 2);
    let account = &setup.accounts.items()[1];
    assert!(rt; account.name.bank.as_bytes() == b"121099999".as_slice());
    assert!(rt; account.name.number.as_bytes() == b"1002".as_slice());
    assert!(rt; account.name.kind == AcctKind::Savings);
    same(&rt, account.opening, Cents(5000));
    assert!(rt; account.owners.items() == [ALICE, BOB].as_slice());
}

/// Other texts in place of a line of the setup, and the line of the fault.
const FAULTS: &[(usize, &str, u64)] = &[
    (1, "OFXBANK 01\n", 1),
    (2, "", 2),
    (2, "BANK 1\r\r\n", 2),
    (3, "LEAD 31\n", 3),
    (4, "WINDOW 10001\n", 4),
    (5, "ENTRIES 1\nENTRIES 1\n", 6),
    (6, "", 7),
    (7, "USER alice hunter\n", 7),
    (8, "ACCT 1001 CHECKING 9999999995000 alice\n", 9),
    (9, "ACCT 1002 SAVINGS 5000 carol\n", 9),
    (9, "ACCT 1002 SAVINGS 5000 alice bob", 9),
    (9, "ACCT 1002 SAVINGS 5000 alice bob\n\n", 10),
];

#[test]
fn reports_the_line_of_a_fault(rt: HostRuntime) {
    let alloc = rt.alloc();
    for (number, text, line) in FAULTS {
        let setup = with_line(&rt, alloc, *number, text);
        let fault = Setup::read(alloc, setup.as_bytes()).err();
        same(
            &rt,
            (*text, fault),
            (*text, Some(SetupFault::SetupLine(*line))),
        );
    }
}

#[test]
fn looks_up_users_and_accounts(rt: HostRuntime) {
    let alloc = rt.alloc();
    let setup = bank(&rt, alloc).copy().expect(&rt, "a copy");
    let bob = text(&rt, alloc, b"bob", 32);
    let hunter = text(&rt, alloc, b"hunter", 32);
    same(&rt, setup.signon(&bob, &hunter), Some(BOB));
    same(&rt, setup.signon(&hunter, &bob), None);
    let mut name = account(&rt, alloc, "1002");
    same(&rt, setup.account(&name), Some(AcctId(1)));
    name.kind = AcctKind::Checking;
    same(&rt, setup.account(&name), None);
    for (user, number, owned) in [(BOB, 1, true), (BOB, 0, false), (ALICE, 2, false)] {
        same(&rt, setup.owns(user, AcctId(number)), owned);
    }
}
