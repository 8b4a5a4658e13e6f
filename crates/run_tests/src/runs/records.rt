//! Records: appends and fetches that fail, and the runs after them.

use super::{AT_NOON, BY_CLOCK, NAMES, end, reported_over};
use crate::same::same;
use crate::sample::{joined, replies, request_with, requests, sink, source, spelled};
use bank_samples::changes::{DUE_LATER, NAMED, NEXT_DAY, NOON};
use bank_samples::transfer::TRANSFER;
use ofx_ports::{Keeper, MemClock, MemKeeper};
use ofx_types::{Moment, Note, Told};
use std::alloc::Global;
use std::process::Abort;

/// What a run over the sample's frames of these names reported at the sample's moment, and what it wrote.
fn run_over(
    rt: &impl Abort,
    alloc: Global,
    names: &[&[u8; 2]],
    keeper: &mut MemKeeper,
) -> (Told, Vec<u8>) {
    let input = source(rt, alloc, &requests(rt, alloc, names));
    let mut clock = MemClock::new(alloc, &[Moment(0)]).expect(rt, "a clock");
    reported_over(
        rt,
        alloc,
        &AT_NOON,
        input,
        sink(rt, alloc),
        keeper,
        &mut clock,
    )
}

/// A keeper of which these calls fail, and these of them land.
fn failing(rt: &impl Abort, alloc: Global, failing: &[u64], landing: &[u64]) -> MemKeeper {
    MemKeeper::failing(alloc, failing, landing).expect(rt, "a keeper")
}

/// The second append of a run, which is the third call of its keeper.
const SECOND: [u64; 1] = [3];

/// Which calls land though they fail, and how many records are stored then.
const LANDINGS: &[(&[u64], u64)] = &[(&[], 1), (&SECOND, 2)];

/// Nothing is written for the second file. The records that are stored open the next run.
#[test]
fn an_append_that_fails_stops_the_run(rt: HostRuntime) {
    let alloc = rt.alloc();
    for case in LANDINGS.iter() {
        let (landing, count) = *case;
        let mut keeper = failing(&rt, alloc, &SECOND, landing);
        let (reported, written) = run_over(&rt, alloc, &NAMES, &mut keeper);
        same(&rt, reported, end(8, Note::Plain));
        same(&rt, written, replies(&rt, alloc, &[b"s1"]));
        same(&rt, keeper.record_count(), count);
        let (again, _) = run_over(&rt, alloc, &[], &mut keeper);
        same(&rt, again, end(0, Note::Plain));
        same(&rt, keeper.record_count(), count);
    }
}

/// A first run settles and appends twice, so a second run, which settles too, fetches by its second and third call.
#[test]
fn a_fetch_that_fails_stops_the_run(rt: HostRuntime) {
    let alloc = rt.alloc();
    let mut keeper = failing(&rt, alloc, &[6], &[]);
    let (first, _) = run_over(&rt, alloc, &[b"s1", b"s2"], &mut keeper);
    same(&rt, first, end(0, Note::Plain));
    let (reported, written) = run_over(&rt, alloc, &NAMES, &mut keeper);
    same(&rt, reported, end(8, Note::Plain));
    assert!(rt; written.is_empty());
    same(&rt, keeper.record_count(), 2);
}

/// A file with a name, and in it transfers of 20.00 and of 10.00 that are due on 1 February.
const TWO_WAITING: [(&str, &str); 7] = [
    NAMED,
    TRANSFER,
    ("<TRNUID>t1", "<TRNUID>x1"),
    (
        "<TRNAMT>10.00\r\n",
        "<TRNAMT>20.00\r\n<DTDUE>20240201000000\r\n",
    ),
    TRANSFER,
    ("<TRNUID>t1", "<TRNUID>x2"),
    DUE_LATER,
];

/// A named file with the transfers, a call for due work, and a plain file with a transfer of its own.
fn week(rt: &impl Abort, alloc: Global) -> String {
    let named = request_with(rt, alloc, &TWO_WAITING);
    let plain = request_with(rt, alloc, &[TRANSFER]);
    joined(rt, alloc, &[&named, "DUE\n", &plain])
}

/// The status of a run over these frames, the first on 31 January and the others a day later, and what it wrote.
fn run_by_days(
    rt: &impl Abort,
    alloc: Global,
    frames: &str,
    keeper: &mut MemKeeper,
) -> (u8, String) {
    let input = source(rt, alloc, frames.as_bytes());
    let mut clock = MemClock::new(alloc, &[NOON, NEXT_DAY]).expect(rt, "a clock");
    let out = sink(rt, alloc);
    let (reported, written) = reported_over(rt, alloc, &BY_CLOCK, input, out, keeper, &mut clock);
    (reported.status.0, spelled(rt, alloc, &written))
}

/// The statuses of two runs over the same frames, and what the second wrote.
fn run_twice(rt: &impl Abort, alloc: Global, keeper: &mut MemKeeper) -> (u8, u8, String) {
    let frames = week(rt, alloc);
    let (stopped, _) = run_by_days(rt, alloc, &frames, keeper);
    let (status, written) = run_by_days(rt, alloc, &frames, keeper);
    (stopped, status, written)
}

/// What a run without failures wrote, with this line for what is due.
fn unfailing(rt: &impl Abort, alloc: Global, due: &str) -> String {
    let frames = week(rt, alloc);
    let mut keeper = MemKeeper::new(alloc);
    let (_, written) = run_by_days(rt, alloc, &frames, &mut keeper);
    written.replace(alloc, "DUE 2\n", due).expect(rt, "room")
}

/// An append of a first run that fails, which calls land then, and what is still due to the second run. The run settles by
/// its first call. The last append that lands isn't here, since the plain file is refused by 2019 then.
const APPENDS: &[(u64, &[u64], &str)] = &[
    (2, &[], "DUE 2\n"),
    (2, &[2], "DUE 2\n"),
    (3, &[], "DUE 2\n"),
    (3, &[3], "DUE 1\n"),
    (4, &[], "DUE 1\n"),
    (4, &[4], "DUE 0\n"),
    (5, &[], "DUE 0\n"),
];

/// The same frames again get the bytes of a run without failures, but for the number of what is still due.
#[test]
fn a_run_after_a_failed_append_goes_on(rt: HostRuntime) {
    let alloc = rt.alloc();
    for case in APPENDS.iter() {
        let (call, landing, due) = *case;
        let mut keeper = failing(&rt, alloc, &[call], landing);
        let (stopped, status, written) = run_twice(&rt, alloc, &mut keeper);
        same(&rt, stopped, 8);
        same(&rt, status, 0);
        same(&rt, written, unfailing(&rt, alloc, due));
    }
}

/// A call of a second run over the same frames that fails, and which calls land then. That run settles, fetches four times,
/// and appends for the two files.
const REPEATED: &[(u64, &[u64])] = &[
    (7, &[]),
    (8, &[]),
    (9, &[]),
    (10, &[]),
    (11, &[]),
    (11, &[11]),
    (12, &[]),
    (12, &[12]),
];

/// A third run gets the bytes of a second one without failures: the named file's again, and 2019 for the plain file.
#[test]
fn a_run_after_a_failed_call_repeats(rt: HostRuntime) {
    let alloc = rt.alloc();
    for case in REPEATED.iter() {
        let (call, landing) = *case;
        let mut keeper = failing(&rt, alloc, &[call], landing);
        let _ = run_by_days(&rt, alloc, &week(&rt, alloc), &mut keeper);
        let (stopped, status, written) = run_twice(&rt, alloc, &mut keeper);
        same(&rt, stopped, 8);
        same(&rt, status, 0);
        let (_, _, repeated) = run_twice(&rt, alloc, &mut MemKeeper::new(alloc));
        assert!(rt; written.contains("<CODE>2019\r\n"));
        same(&rt, written, repeated);
    }
}
