//! The calls of a bank over keepers whose calls fail, and what they answer.

use crate::same::same;
use crate::sample::{failing, keys, reply_with, report, request_with, setup};
use crate::script::{Call, reported_over};
use bank_replay::OpenFault;
use bank_samples::changes::{DUE_LATER, NAMED, NEXT_DAY, NOON};
use bank_samples::transfer::{PAID, POSTED, SOURCE_BALANCE, TRANSFER};
use bank_shared::Opened;
use ofx_file::OfxPrinter;
use ofx_ports::{Keeper, MemKeeper};
use ofx_types::Moment;
use std::alloc::Global;
use std::process::Abort;

/// What the first reply to the named file with the transfer tells.
const FIRST: [(&str, &str); 5] = [NAMED, POSTED, PAID, SOURCE_BALANCE, SOURCE_BALANCE];

/// What a statement tells after the transfer.
const PAID_BEFORE: [(&str, &str); 3] = [PAID, SOURCE_BALANCE, SOURCE_BALANCE];

/// On 31 January 2024 at 12:00:00 the transfer with the id 1 is posted.
const POST: &[u8] = b"\
    \x01\x02\x00\x00\x00\x00\x65\xba\x36\x40\
    \x00\x00\x00\x00\x00\x00\x00\x01";

/// The append of a named file fails, and its record has landed. In the second call, on the next day, it can't be settled. The
/// third one adopts it, and is answered by the reply of the first moment, which was kept then.
#[test]
fn a_record_that_landed_is_adopted_before_the_next_file(rt: HostRuntime) {
    let alloc = rt.alloc();
    let file = request_with(&rt, alloc, &[NAMED, TRANSFER]);
    let keeper = failing(&rt, alloc, &[1, 2], &[1]);
    let calls = [Call::File(&file), Call::File(&file), Call::File(&file)];
    let reply = reply_with(&rt, alloc, &FIRST);
    let faults = "keeper 1\nkeeper 2\n";
    same(
        &rt,
        reported_over(&rt, alloc, keeper, &[NOON, NEXT_DAY], &calls),
        format!(in alloc; "{faults}{reply}").expect(&rt, "room"),
    );
}

/// It can't be settled three times, and is adopted then: faults that come since the append's don't take its place.
#[test]
fn what_is_pending_stays_so_until_it_is_settled(rt: HostRuntime) {
    let alloc = rt.alloc();
    let file = request_with(&rt, alloc, &[TRANSFER]);
    let plain = request_with(&rt, alloc, &[]);
    let keeper = failing(&rt, alloc, &[2, 3, 4, 5], &[2]);
    let calls = [
        Call::File(&plain),
        Call::File(&file),
        Call::Due,
        Call::File(&file),
        Call::Due,
        Call::Due,
        Call::File(&plain),
    ];
    let before = reply_with(&rt, alloc, &[]);
    let rest = reply_with(&rt, alloc, &PAID_BEFORE);
    let faults = "\
        keeper 1\n\
        keeper 2\n\
        keeper 3\n\
        keeper 4\n\
        nothing due\n";
    same(
        &rt,
        reported_over(&rt, alloc, keeper, &[NOON], &calls),
        format!(in alloc; "{before}{faults}{rest}").expect(&rt, "room"),
    );
}

/// What is reported of the keeper's first fault.
const FAULT: &str = "keeper 1\n";

/// What is reported of its second one.
const SECOND_FAULT: &str = "keeper 2\n";

/// Which calls of the keeper fail and which of these land, while a named file with a transfer is handed in once a minute four
/// times and a file without a name after that; which of the four get a fault, and the moment at which the file happened.
const FAILING: &[(&[u64], &[u64], [&str; 4], &str)] = &[
    (&[], &[], ["", "", "", ""], "20240131120000"),
    (&[1], &[], [FAULT, "", "", ""], "20240131120100"),
    (&[1], &[1], [FAULT, "", "", ""], "20240131120000"),
    (
        &[1, 2],
        &[],
        [FAULT, SECOND_FAULT, "", ""],
        "20240131120200",
    ),
    (
        &[1, 2],
        &[1],
        [FAULT, SECOND_FAULT, "", ""],
        "20240131120000",
    ),
    (
        &[1, 3],
        &[],
        [FAULT, SECOND_FAULT, "", ""],
        "20240131120200",
    ),
    (
        &[1, 3],
        &[3],
        [FAULT, SECOND_FAULT, "", ""],
        "20240131120100",
    ),
    (
        &[1, 3],
        &[1, 3],
        [FAULT, SECOND_FAULT, "", ""],
        "20240131120000",
    ),
    (&[2], &[], ["", FAULT, "", ""], "20240131120000"),
    (&[2], &[2], ["", FAULT, "", ""], "20240131120000"),
];

/// What is reported where these of the four calls get faults, and the named file happened at that moment: each other call is
/// answered by its reply, and the transfer was posted once.
fn reported_of_once(rt: &impl Abort, alloc: Global, faults: &[&str; 4], moment: &str) -> String {
    let reply = reported_at(rt, alloc, &FIRST, moment);
    let mut reported = String::new(alloc);
    for fault in faults.iter() {
        report(
            rt,
            &mut reported,
            if fault.is_empty() { &reply } else { fault },
        );
    }
    report(rt, &mut reported, &paid_before(rt, alloc, moment));
    reported
}

/// The sample's reply with these changes, at this moment.
fn reported_at(rt: &impl Abort, alloc: Global, changes: &[(&str, &str)], moment: &str) -> String {
    let reply = reply_with(rt, alloc, changes).replace(alloc, "20240131120000", moment);
    reply.expect(rt, "a reply")
}

/// What the statement of the fourth minute tells, where the transfer was posted at this moment.
fn paid_before(rt: &impl Abort, alloc: Global, moment: &str) -> String {
    let later = reported_at(rt, alloc, &PAID_BEFORE, "20240131120400");
    let posted = format!(in alloc; "<DTPOSTED>{moment}").expect(rt, "a line");
    let reported = later.replace(alloc, "<DTPOSTED>20240131120400", &posted);
    reported.expect(rt, "a reply")
}

/// Its transfer is posted once, whichever append fails, landed or not, and whichever settle.
#[test]
fn a_named_file_happens_once_however_the_keeper_fails(rt: HostRuntime) {
    let alloc = rt.alloc();
    let file = request_with(&rt, alloc, &[NAMED, TRANSFER]);
    let plain = request_with(&rt, alloc, &[]);
    let calls = [
        Call::File(&file),
        Call::File(&file),
        Call::File(&file),
        Call::File(&file),
        Call::File(&plain),
    ];
    for case in FAILING.iter() {
        let (refused, landing, faults, moment) = *case;
        let keeper = failing(&rt, alloc, refused, landing);
        let minutes = [
            NOON,
            Moment(1_706_702_460),
            Moment(1_706_702_520),
            Moment(1_706_702_580),
            Moment(1_706_702_640),
        ];
        same(
            &rt,
            reported_over(&rt, alloc, keeper, &minutes, &calls),
            reported_of_once(&rt, alloc, &faults, moment),
        );
    }
}

/// Which calls of the keeper fail and which of these land, in a bank with a transfer that is due on the next day, which is looked
/// for three times, and what is reported then.
const DUE: &[(&[u64], &[u64], &str)] = &[
    (&[], &[], "posted 1\nnothing due\nnothing due\n"),
    (&[2], &[], "keeper 1\nposted 1\nnothing due\n"),
    (&[2, 3], &[2], "keeper 1\nkeeper 2\nnothing due\n"),
];

#[test]
fn what_is_due_happens_once(rt: HostRuntime) {
    let alloc = rt.alloc();
    let file = request_with(&rt, alloc, &[TRANSFER, DUE_LATER]);
    let calls = [Call::File(&file), Call::Due, Call::Due, Call::Due];
    for case in DUE.iter() {
        let (refused, landing, lines) = *case;
        let keeper = failing(&rt, alloc, refused, landing);
        let reported = reported_over(&rt, alloc, keeper, &[NOON, NEXT_DAY], &calls);
        assert!(rt; reported.strip_suffix(lines).is_some());
    }
}

/// The keeper comes back with what it keeps.
#[test]
fn a_bank_that_does_not_open_hands_its_keeper_back(rt: HostRuntime) {
    let alloc = rt.alloc();
    let mut keeper = MemKeeper::new(alloc);
    keeper.append(POST).expect(&rt, "room");
    let refused = Opened::open(alloc, keys(&rt), keeper, setup(&rt, alloc), OfxPrinter).err();
    let (fault, keeper) = refused.expect(&rt, "a fault");
    same(&rt, fault, OpenFault::Illegal(1));
    same(&rt, keeper.record_count(), 1);
}
