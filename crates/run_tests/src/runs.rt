//! Whole runs over the memory forms: calls that fail one at a time, and calls of one byte.

ghost use Rattle.std.specs.Prelude.{◌<◌};

mod again;
mod letters;
mod records;

use crate::same::same;
use crate::sample::{ROOM, keys, replies, requests, sink, source, texts};
use bank_samples::sample::SETUP;
use bank_session::{answer_files, answer_told};
use ofx_ports::{Keeper, MemClock, MemKeeper, MemSink, MemSource};
use ofx_types::{Moment, Note, Status, Told};
use std::alloc::Global;
use std::process::Abort;

/// The arguments of a run at the sample's moment.
const AT_NOON: [&str; 5] = ["answer", "setup", "-", "--at", "20240131120000"];

/// The arguments of a run by the clock.
const BY_CLOCK: [&str; 3] = ["answer", "setup", "-"];

/// The names of the transactions of three requests.
const NAMES: [&[u8; 2]; 3] = [b"s1", b"s2", b"s3"];

/// What a run with these arguments, this keeper and this clock reported, and what it wrote, by the sample's setup. First the
/// keeper settles which records are stored.
fn reported_over(
    rt: &impl Abort,
    alloc: Global,
    arguments: &[&str],
    mut input: MemSource,
    mut out: MemSink,
    keeper: &mut MemKeeper,
    clock: &mut MemClock,
) -> (Told, Vec<u8>) {
    let texts = texts(rt, alloc, arguments);
    let mut setup = source(rt, alloc, SETUP);
    let _ = keeper.settle().expect(rt, "the records that stand");
    let reported = answer_told(
        alloc,
        keys(rt),
        &texts,
        &mut setup,
        &mut input,
        &mut out,
        keeper,
        clock,
    );
    (reported, written_to(rt, alloc, &out))
}

/// What was written to a sink.
fn written_to(rt: &impl Abort, alloc: Global, out: &MemSink) -> Vec<u8> {
    out.held().to_vec(alloc).expect(rt, "room")
}

/// The status of a run at the sample's moment, and what it wrote.
fn run(
    rt: &impl Abort,
    alloc: Global,
    mut setup: MemSource,
    mut input: MemSource,
    mut out: MemSink,
) -> (Status, Vec<u8>) {
    let texts = texts(rt, alloc, &AT_NOON);
    let mut keeper = MemKeeper::new(alloc);
    let mut clock = MemClock::new(alloc, &[Moment(0)]).expect(rt, "a clock");
    let status = answer_files(
        alloc,
        keys(rt),
        &texts,
        &mut setup,
        &mut input,
        &mut out,
        &mut keeper,
        &mut clock,
    );
    (status, written_to(rt, alloc, &out))
}

/// A source of these bytes, which gives at most so many at once, and of which these reads fail.
fn failing_source(
    rt: &impl Abort,
    alloc: Global,
    bytes: &[u8],
    most: usize,
    failing: &[u64],
) -> MemSource
    requires { 0 < most }
{
    MemSource::failing(alloc, bytes, most, failing).expect(rt, "a source")
}

/// A sink that takes at most so many bytes at once, and of which these writes fail.
fn failing_sink(rt: &impl Abort, alloc: Global, most: usize, failing: &[u64]) -> MemSink
    requires { 0 < most }
{
    MemSink::failing(alloc, ROOM, most, failing).expect(rt, "a sink")
}

/// What is reported of an end.
fn end(status: u8, note: Note) -> Told {
    Told {
        status: Status(status),
        note,
    }
}

/// A read of the setup that fails and one of the input, the bytes that are written, and the status. The setup has 158 bytes
/// and is read in pieces of 100, so its third read is at its end. The input has three frames of 538 bytes and is read in
/// pieces of 200, so its tenth read is at its end. Each reply has 761 bytes.
const READS: &[(u64, u64, usize, u8)] = &[
    (1, 99, 0, 5),
    (3, 99, 0, 5),
    (4, 1, 0, 5),
    (4, 3, 0, 5),
    (4, 4, 761, 5),
    (4, 7, 1_522, 5),
    (4, 9, 1_522, 5),
    (4, 10, 2_283, 5),
    (4, 11, 2_283, 0),
];

#[test]
fn a_read_that_fails_stops_the_run(rt: HostRuntime) {
    let alloc = rt.alloc();
    let bytes = requests(&rt, alloc, &NAMES);
    let whole = replies(&rt, alloc, &NAMES);
    for case in READS.iter() {
        let (of_setup, of_input, length, expected) = *case;
        let setup = failing_source(&rt, alloc, SETUP, 100, &[of_setup]);
        let input = failing_source(&rt, alloc, &bytes, 200, &[of_input]);
        let (status, written) = run(&rt, alloc, setup, input, sink(&rt, alloc));
        let found = (of_input, status, written.len());
        same(&rt, found, (of_input, Status(expected), length));
        assert!(rt; whole.starts_with(&written));
    }
}

/// The writes, how many bytes are written before each, and the status where it fails. Each of the three replies has 761
/// bytes and is written in pieces of 300, 300 and 161.
const WRITES: &[(u64, usize, u8)] = &[
    (1, 0, 6),
    (2, 300, 6),
    (4, 761, 6),
    (6, 1_361, 6),
    (9, 2_122, 6),
    (10, 2_283, 0),
];

#[test]
fn a_write_that_fails_stops_the_run(rt: HostRuntime) {
    let alloc = rt.alloc();
    let bytes = requests(&rt, alloc, &NAMES);
    let whole = replies(&rt, alloc, &NAMES);
    for case in WRITES.iter() {
        let (call, length, expected) = *case;
        let setup = source(&rt, alloc, SETUP);
        let input = source(&rt, alloc, &bytes);
        let out = failing_sink(&rt, alloc, 300, &[call]);
        let (status, written) = run(&rt, alloc, setup, input, out);
        let found = (call, status, written.len());
        same(&rt, found, (call, Status(expected), length));
        assert!(rt; whole.starts_with(&written));
    }
}

#[test]
fn single_bytes_are_answered_the_same(rt: HostRuntime) {
    let alloc = rt.alloc();
    let bytes = requests(&rt, alloc, &NAMES);
    let setup = failing_source(&rt, alloc, SETUP, 1, &[]);
    let input = failing_source(&rt, alloc, &bytes, 1, &[]);
    let out = failing_sink(&rt, alloc, 1, &[]);
    let (status, written) = run(&rt, alloc, setup, input, out);
    same(&rt, status, Status(0));
    same(&rt, written, replies(&rt, alloc, &NAMES));
}
