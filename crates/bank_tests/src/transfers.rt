//! Transfers: what is refused of a deed on them, and what a few entries come to.

ghost use Rattle.std.specs.Prelude.{◌≡◌};
ghost use Rattle.bank_transfers.specs.TransfersView.{IsWithinAmounts};

use crate::same::same;
use crate::sample::{ALICE, BOB, TODAY, TOMORROW, YESTERDAY, account, bank, info};
use bank_transfers::{Transfers, judge_cancel, judge_modify, judge_transfer};
use ofx_types::{AcctId, Cents, Day, Moment, TransferRow, UserId, XferCode};
use std::alloc::Global;
use std::process::Abort;

/// A row of a transfer from 1001 to 1002.
fn row(
    rt: &impl Abort,
    alloc: Global,
    id: u64,
    cents: u32,
    code: XferCode,
    stamp: Moment,
) -> TransferRow
    ensures { IsWithinAmounts result }
{
    TransferRow {
        id,
        model: 0,
        from: account(rt, alloc, "1001"),
        to: account(rt, alloc, "1002"),
        amount: Cents(i64::from(cents)),
        due: TODAY,
        code,
        stamp,
    }
}

/// Who asks, about which account alone, from where, to where, how much, for which day and over which balance, and the code.
const ASKED: &[(
    UserId,
    Option<AcctId>,
    &str,
    &str,
    i64,
    Option<Day>,
    i64,
    u16,
)] = &[
    (ALICE, None, "1001", "1002", 100, None, 100, 0),
    (BOB, None, "1001", "1001", 0, None, 0, 2006),
    (BOB, Some(AcctId(0)), "1002", "1001", 1, None, 9, 2006),
    (BOB, Some(AcctId(1)), "1002", "1001", 1, None, 9, 0),
    (ALICE, None, "1001", "1001", 0, None, 0, 2009),
    (ALICE, None, "1001", "1003", 1, None, 9, 2009),
    (ALICE, None, "1001", "1002", 0, None, 0, 2012),
    (ALICE, None, "1001", "1002", 100, None, 99, 10504),
    (ALICE, None, "1001", "1002", 100, Some(TODAY), 99, 10504),
    (ALICE, None, "1001", "1002", 100, Some(TOMORROW), 99, 0),
];

#[test]
fn a_transfer_has_the_first_refusal_that_holds(rt: HostRuntime) {
    let alloc = rt.alloc();
    let setup = bank(&rt, alloc);
    for (user, only, from, to, cents, due, balance, code) in ASKED.iter() {
        let asked = info(&rt, alloc, from, to, *cents, *due);
        same(
            &rt,
            judge_transfer(&setup, *user, *only, &asked, TODAY, Cents(*balance)),
            *code,
        );
    }
}

/// Who asks, the status of the transfer out of 1001, and the code of a change and of a cancellation.
const STANDING: &[(UserId, XferCode, u16)] = &[
    (ALICE, XferCode::Waiting, 0),
    (BOB, XferCode::Waiting, 2018),
    (ALICE, XferCode::Posted, 2016),
    (ALICE, XferCode::NoFunds, 2016),
    (ALICE, XferCode::Cancelled, 2017),
];

#[test]
fn only_a_waiting_transfer_is_changed_or_cancelled(rt: HostRuntime) {
    let alloc = rt.alloc();
    let setup = bank(&rt, alloc);
    let asked = info(&rt, alloc, "1001", "1002", 7, Some(TOMORROW));
    for (user, present, code) in STANDING.iter() {
        let found = row(&rt, alloc, 1, 5, *present, Moment(0));
        same(
            &rt,
            judge_modify(&setup, *user, None, Some(&found), &asked, TODAY),
            *code,
        );
        same(&rt, judge_cancel(&setup, *user, None, Some(&found)), *code);
    }
}

#[test]
fn posted_transfers_are_listed(rt: HostRuntime) {
    let alloc = rt.alloc();
    let mut transfers = Transfers::new(alloc);
    assert!(rt; transfers.get(1).is_none());
    transfers.reserve(4).expect(&rt, "room");
    transfers.put(1, row(&rt, alloc, 1, 5, XferCode::Waiting, Moment(100)));
    transfers.put(2, row(&rt, alloc, 2, 7, XferCode::Posted, Moment(10)));
    transfers.put(3, row(&rt, alloc, 1, 5, XferCode::Posted, Moment(20)));
    transfers.put(4, row(&rt, alloc, 4, 9, XferCode::NoFunds, Moment(15)));
    let first = transfers.get(1).expect(&rt, "the first transfer");
    assert!(rt; first.code == XferCode::Posted);
    let from = account(&rt, alloc, "1001");
    let all = transfers
        .posted(alloc, &from, (Moment(0), None))
        .expect(&rt, "lines");
    let [_, last] = all.items() else {
        panic!(rt; "two lines");
    };
    same(&rt, (last.number, last.amount.0), (3, -5));
    let to = account(&rt, alloc, "1002");
    let some = transfers
        .posted(alloc, &to, (Moment(10), Some(Moment(20))))
        .expect(&rt, "lines");
    let [only] = some.items() else {
        panic!(rt; "one line");
    };
    same(&rt, (only.number, only.amount.0), (2, 7));
    let none = transfers
        .posted(alloc, &account(&rt, alloc, "1003"), (Moment(0), None))
        .expect(&rt, "lines");
    assert!(rt; none.items().is_empty());
}

/// A row of a transfer that waits, which the recurring transfer with that id made.
fn waiting_row(rt: &impl Abort, alloc: Global, id: u64, model: u64, due: Day) -> TransferRow
    ensures { IsWithinAmounts result }
{
    let mut waiting = row(rt, alloc, id, 5, XferCode::Waiting, Moment(0));
    waiting.model = model;
    waiting.due = due;
    waiting
}

#[test]
fn the_earliest_of_the_waiting_is_posted_next(rt: HostRuntime) {
    let alloc = rt.alloc();
    let mut transfers = Transfers::new(alloc);
    transfers.reserve(5).expect(&rt, "room");
    transfers.put(1, waiting_row(&rt, alloc, 1, 9, TOMORROW));
    transfers.put(2, waiting_row(&rt, alloc, 2, 9, TODAY));
    transfers.put(3, waiting_row(&rt, alloc, 3, 0, TODAY));
    assert!(rt; transfers.due_on(YESTERDAY) == None);
    assert!(rt; transfers.due_on(TOMORROW) == Some(2));
    same(
        &rt,
        transfers.waiting(alloc, 9).expect(&rt, "ids").as_slice(),
        [1, 2].as_slice(),
    );
    transfers.put(4, row(&rt, alloc, 2, 5, XferCode::Posted, Moment(20)));
    assert!(rt; transfers.due_on(TODAY) == Some(3));
    transfers.put(5, waiting_row(&rt, alloc, 1, 9, TODAY));
    assert!(rt; transfers.due_on(TODAY) == Some(1));
    same(
        &rt,
        transfers.waiting(alloc, 9).expect(&rt, "ids").as_slice(),
        [1].as_slice(),
    );
}
