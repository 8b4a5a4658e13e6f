//! Two users whose uids and files have the same names, and the uids of one event.

use crate::sample::{ALICE, BOB};
use ofx_types::{FileUid, TrnUid};
use once_records::{Records, Uids};
use std::hash::RandomState;
use std::process::Abort;

fn trnuid(rt: &impl Abort, bytes: &[u8]) -> TrnUid {
    TrnUid::new(bytes).expect(rt, "a uid")
}

fn file(rt: &impl Abort, bytes: &[u8]) -> FileUid {
    FileUid::new(bytes).expect(rt, "a file's uid")
}

#[test]
fn a_uid_is_used_up_for_one_user(rt: HostRuntime) {
    let mut records = Records::new(rt.alloc(), RandomState::new(&rt).expect(&rt, "keys"));
    records.known();
    records.reserve(2, 0).expect(&rt, "room");
    assert!(rt; !records.used(ALICE, &trnuid(&rt, b"t1")));
    let first = trnuid(&rt, b"t1");
    assert!(rt; !records.used(ALICE, &first));
    records.use_up(ALICE, first);
    assert!(rt; records.used(ALICE, &trnuid(&rt, b"t1")));
    assert!(rt; !records.used(ALICE, &trnuid(&rt, b"t2")));
    let same = trnuid(&rt, b"t1");
    assert!(rt; !records.used(BOB, &same));
    records.use_up(BOB, same);
    assert!(rt; records.used(BOB, &trnuid(&rt, b"t1")));
}

#[test]
fn a_reply_is_kept_until_its_file_is_released(rt: HostRuntime) {
    let alloc = rt.alloc();
    let mut records = Records::new(alloc, RandomState::new(&rt).expect(&rt, "keys"));
    records.reserve(0, 2).expect(&rt, "room");
    let name = file(&rt, b"f1");
    assert!(rt; records.kept(ALICE, &name).is_none());
    records.keep(
        ALICE,
        name,
        Vec::from_slice(alloc, b"for alice").expect(&rt, "a reply"),
    );
    let same = file(&rt, b"f1");
    assert!(rt; records.kept(BOB, &same).is_none());
    records.keep(
        BOB,
        same,
        Vec::from_slice(alloc, b"for bob").expect(&rt, "a reply"),
    );
    let name = file(&rt, b"f1");
    assert!(rt; records.kept(ALICE, &name) == Some(b"for alice".as_slice()));
    assert!(rt; records.release(ALICE, &name));
    assert!(rt; !records.release(ALICE, &name));
    assert!(rt; records.kept(ALICE, &name).is_none());
    assert!(rt; records.kept(BOB, &name) == Some(b"for bob".as_slice()));
}

#[test]
fn uids_of_an_event_are_in_their_order(rt: HostRuntime) {
    let mut uids = Uids::new(rt.alloc());
    assert!(rt; !uids.has(&trnuid(&rt, b"t2")));
    uids.use_up(trnuid(&rt, b"t2")).expect(&rt, "room");
    uids.use_up(trnuid(&rt, b"t1")).expect(&rt, "room");
    assert!(rt; uids.len() == 2);
    assert!(rt; uids.has(&trnuid(&rt, b"t1")));
    assert!(rt; uids.has(&trnuid(&rt, b" t2 ")));
    assert!(rt; !uids.has(&trnuid(&rt, b"t")));
    let order = uids.into_vec();
    assert!(rt; order.len() == 2);
    assert!(rt; order[0].as_bytes() == b"t2".as_slice());
    assert!(rt; order[1].as_bytes() == b"t1".as_slice());
}
