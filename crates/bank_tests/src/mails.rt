//! Mails: what is refused of one, and the mails of two objects.

use crate::same::same;
use crate::sample::{ALICE, BOB, account, bank, mail, mail_row};
use bank_mail::{Mails, judge_bank_mail, judge_mail};
use ofx_types::{AcctId, ObjectId, UserId};

/// Who writes, about which account alone, about which account and to whom, and the code.
const ASKED: &[(UserId, Option<AcctId>, &str, &str, u16)] = &[
    (ALICE, None, "1001", "BANK", 0),
    (ALICE, None, "1001", "bank", 16501),
    (BOB, None, "1001", "bank", 2003),
    (BOB, Some(AcctId(0)), "1002", "BANK", 2003),
    (BOB, Some(AcctId(1)), "1002", "BANK", 0),
    (ALICE, None, "1003", "BANK", 2003),
];

#[test]
fn a_mail_about_an_account_has_the_first_refusal_that_holds(rt: HostRuntime) {
    let alloc = rt.alloc();
    let setup = bank(&rt, alloc);
    for (user, only, number, target, code) in ASKED.iter() {
        let about = account(&rt, alloc, number);
        let asked = mail(&rt, alloc, target.as_bytes(), b"Hello");
        same(
            &rt,
            judge_bank_mail(&setup, *user, *only, &about, &asked),
            *code,
        );
    }
}

#[test]
fn the_bank_takes_mail_to_itself_alone(rt: HostRuntime) {
    let alloc = rt.alloc();
    same(&rt, judge_mail(&mail(&rt, alloc, b"BANK", b"Hello")), 0);
    same(
        &rt,
        judge_mail(&mail(&rt, alloc, b"alice", b"Hello")),
        16501,
    );
}

#[test]
fn each_object_has_its_mails_in_order(rt: HostRuntime) {
    let alloc = rt.alloc();
    let mut mails = Mails::new(alloc);
    assert!(rt; mails.rows(ObjectId(2)).is_empty());
    mails.reserve(ObjectId(2), 2).expect(&rt, "room");
    mails.put(ObjectId(2), mail_row(&rt, alloc, b"first"));
    mails.put(ObjectId(2), mail_row(&rt, alloc, b"second"));
    mails.reserve(ObjectId(6), 1).expect(&rt, "room");
    mails.put(ObjectId(6), mail_row(&rt, alloc, b"other"));
    same(&rt, mails.rows(ObjectId(2)).len(), 2);
    assert!(rt; mails.rows(ObjectId(2))[1].mail.subject.as_bytes() == b"second".as_slice());
    same(&rt, mails.rows(ObjectId(6)).len(), 1);
    assert!(rt; mails.rows(ObjectId(5)).is_empty());
}
