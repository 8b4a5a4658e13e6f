//! A file with a name that comes again in a later run.

use super::{BY_CLOCK, reported_over};
use crate::same::same;
use crate::sample::{reply_with, request_with, sink, source, spelled};
use bank_samples::changes::NAMED;
use bank_samples::transfer::{PAID, POSTED, SOURCE_BALANCE, TRANSFER};
use ofx_ports::{MemClock, MemKeeper};
use ofx_types::Moment;
use std::alloc::Global;
use std::process::Abort;

/// The first reply to the named file with the transfer, as changes of the sample's reply.
const FIRST: [(&str, &str); 5] = [NAMED, POSTED, PAID, SOURCE_BALANCE, SOURCE_BALANCE];

/// 31 January 2024 at 12:00:00, and twice an hour later.
const AN_HOUR_APART: [Moment; 3] = [
    Moment(1_706_702_400),
    Moment(1_706_706_000),
    Moment(1_706_706_000),
];

/// The moment an hour later.
const AT_ONE: (&str, &str) = ("20240131120000", "20240131130000");

/// The reply to the plain file an hour later, as changes of the sample's reply, which has its moment four times.
const LATER: [(&str, &str); 7] = [
    AT_ONE,
    AT_ONE,
    AT_ONE,
    AT_ONE,
    PAID,
    SOURCE_BALANCE,
    SOURCE_BALANCE,
];

/// What a run over the records of a keeper writes for this frame, at a moment of the clock.
fn written_over(
    rt: &impl Abort,
    alloc: Global,
    frame: &str,
    keeper: &mut MemKeeper,
    clock: &mut MemClock,
) -> String {
    let input = source(rt, alloc, frame.as_bytes());
    let out = sink(rt, alloc);
    let (_reported, written) = reported_over(rt, alloc, &BY_CLOCK, input, out, keeper, clock);
    spelled(rt, alloc, &written)
}

/// An hour later, in another run over the same records, its reply still has the first moment. The transfer is posted once,
/// which the statement of a third run shows.
#[test]
fn a_named_file_that_comes_again_is_answered_by_the_same_bytes(rt: HostRuntime) {
    let alloc = rt.alloc();
    let named = request_with(&rt, alloc, &[NAMED, TRANSFER]);
    let plain = request_with(&rt, alloc, &[]);
    let mut clock = MemClock::new(alloc, &AN_HOUR_APART).expect(&rt, "a clock");
    let mut keeper = MemKeeper::new(alloc);
    let first = written_over(&rt, alloc, &named, &mut keeper, &mut clock);
    let again = written_over(&rt, alloc, &named, &mut keeper, &mut clock);
    assert!(rt; again == first);
    same(&rt, first, reply_with(&rt, alloc, &FIRST));
    same(&rt, keeper.record_count(), 2);
    let last = written_over(&rt, alloc, &plain, &mut keeper, &mut clock);
    same(&rt, last, reply_with(&rt, alloc, &LATER));
}
