//! Recurring transfers: what is refused of a deed on them, and which makes its next transfer first.

ghost use Rattle.std.specs.Prelude.{◌≡◌};

use crate::same::same;
use crate::sample::{ALICE, BOB, TODAY, TOMORROW, bank, info, model_row};
use bank_recur::{Models, judge_model, judge_model_cancel, judge_model_modify};
use ofx_types::{AcctId, Day, Freq, UserId};

/// 5 February 2024, and a month later.
const FIFTH: Day = Day(19_758);

const MARCH_FIFTH: Day = Day(19_787);

/// Who asks, about which account alone, from where, to where, how much and from which day on, and the code.
const ASKED: &[(UserId, Option<AcctId>, &str, &str, i64, Option<Day>, u16)] = &[
    (ALICE, None, "1001", "1002", 1, Some(TOMORROW), 0),
    (BOB, None, "1001", "1001", 0, None, 2006),
    (
        BOB,
        Some(AcctId(0)),
        "1002",
        "1001",
        1,
        Some(TOMORROW),
        2006,
    ),
    (BOB, Some(AcctId(1)), "1002", "1001", 1, Some(TOMORROW), 0),
    (ALICE, None, "1001", "1001", 0, None, 2009),
    (ALICE, None, "1001", "1003", 1, Some(TOMORROW), 2009),
    (ALICE, None, "1001", "1002", 0, None, 2012),
    (ALICE, None, "1001", "1002", 1, None, 2014),
    (ALICE, None, "1001", "1002", 1, Some(TODAY), 2014),
];

#[test]
fn a_recurring_transfer_has_the_first_refusal_that_holds(rt: HostRuntime) {
    let alloc = rt.alloc();
    let setup = bank(&rt, alloc);
    for (user, only, from, to, cents, first, code) in ASKED.iter() {
        let asked = info(&rt, alloc, from, to, *cents, *first);
        same(&rt, judge_model(&setup, *user, *only, &asked, TODAY), *code);
    }
}

/// Who asks for a change, whether it is cancelled, from where, to where, how much and from which day on, and the code.
const CHANGES: &[(UserId, bool, &str, &str, i64, Option<Day>, u16)] = &[
    (ALICE, false, "1001", "1002", 7, Some(TOMORROW), 0),
    (BOB, true, "1002", "1002", 0, None, 10518),
    (ALICE, true, "1002", "1002", 0, None, 10509),
    (ALICE, false, "1002", "1002", 0, None, 2006),
    (ALICE, false, "1001", "1001", 0, None, 2009),
    (ALICE, false, "1001", "1002", 0, None, 2012),
    (ALICE, false, "1001", "1002", 7, Some(TODAY), 2014),
];

#[test]
fn a_change_has_the_first_refusal_that_holds(rt: HostRuntime) {
    let alloc = rt.alloc();
    let setup = bank(&rt, alloc);
    let found = model_row(&rt, alloc, 1, Freq::Monthly, None, FIFTH);
    for (user, cancelled, from, to, cents, first, code) in CHANGES.iter() {
        let asked = info(&rt, alloc, from, to, *cents, *first);
        same(
            &rt,
            judge_model_modify(&setup, *user, None, Some(&found), *cancelled, &asked, TODAY),
            *code,
        );
    }
}

#[test]
fn a_recurring_transfer_is_cancelled_once_and_by_an_owner(rt: HostRuntime) {
    let alloc = rt.alloc();
    let setup = bank(&rt, alloc);
    let found = model_row(&rt, alloc, 1, Freq::Monthly, None, FIFTH);
    for (user, cancelled, code) in [(ALICE, false, 0), (ALICE, true, 10509), (BOB, true, 10518)] {
        same(
            &rt,
            judge_model_cancel(&setup, user, None, Some(&found), cancelled),
            code,
        );
    }
    same(
        &rt,
        judge_model_cancel(&setup, ALICE, None, None, false),
        10518,
    );
}

/// The recurring transfer with this id makes its next transfer.
fn make_next(models: &mut Models, id: u64)
    ensures { models.new.room ≡ models.old.room }
{
    if models.get(id).is_some() && models.next_k(id) < 999 {
        models.spawned(id);
    }
}

#[test]
fn the_earliest_date_comes_first(rt: HostRuntime) {
    let alloc = rt.alloc();
    let mut models = Models::new(alloc);
    models.reserve(4).expect(&rt, "room");
    assert!(rt; models.next_spawn(MARCH_FIFTH).is_none());
    models.put(model_row(&rt, alloc, 3, Freq::Monthly, None, FIFTH));
    models.put(model_row(&rt, alloc, 2, Freq::Weekly, Some(2), TOMORROW));
    assert!(rt; models.next_spawn(TODAY).is_none());
    assert!(rt; models.next_spawn(FIFTH) == Some((2, 0)));
    assert!(rt; models.date_to_make(3, FIFTH) == Some(FIFTH));
    assert!(rt; models.date_to_make(3, TOMORROW).is_none());
    make_next(&mut models, 2);
    assert!(rt; models.next_spawn(FIFTH) == Some((3, 0)));
    make_next(&mut models, 3);
    assert!(rt; models.next_spawn(MARCH_FIFTH) == Some((2, 1)));
    make_next(&mut models, 2);
    assert!(rt; models.next_spawn(MARCH_FIFTH) == Some((3, 1)));
    models.put(model_row(&rt, alloc, 2, Freq::Annually, None, MARCH_FIFTH));
    assert!(rt; models.next_spawn(MARCH_FIFTH) == Some((2, 0)));
    models.cancel(2);
    assert!(rt; models.cancelled(2) && models.get(2).is_some());
    assert!(rt; models.next_spawn(MARCH_FIFTH) == Some((3, 1)));
}
