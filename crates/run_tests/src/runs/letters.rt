//! Letters: the command `mail`.

use super::{end, failing_sink, failing_source, reported_over};
use crate::same::same;
use ofx_ports::{Clock, MemClock, MemKeeper, MemSink, MemSource};
use ofx_types::{Moment, Note, Told};
use std::alloc::Global;
use std::process::Abort;

/// The arguments of a letter to bob.
const TO_BOB: [&str; 5] = ["mail", "setup", "-", "bob", "Hello"];

/// What the clock shows, one after another.
const SHOWN: [Moment; 3] = [Moment(1_706_702_400), Moment(1), Moment(0)];

/// What the letter's run reported, and what it wrote, in a bank without records.
fn reported_of(
    rt: &impl Abort,
    alloc: Global,
    input: MemSource,
    out: MemSink,
    clock: &mut MemClock,
) -> (Told, Vec<u8>) {
    let mut keeper = MemKeeper::new(alloc);
    reported_over(rt, alloc, &TO_BOB, input, out, &mut keeper, clock)
}

/// A read of the input and a write of the line that fail, the status, what is written, and which answer of the clock is next:
/// it is read once.
const ENDS: &[(u64, u64, u8, &str, usize)] = &[
    (99, 99, 0, "MAIL 1\n", 1),
    (2, 99, 5, "", 0),
    (3, 99, 5, "", 0),
    (99, 2, 6, "MAIL ", 1),
];

#[test]
fn a_letter_is_numbered_unless_a_call_fails(rt: HostRuntime) {
    let alloc = rt.alloc();
    for case in ENDS.iter() {
        let (read, write, status, line, next) = *case;
        let input = failing_source(&rt, alloc, b"Hi", 1, &[read]);
        let out = failing_sink(&rt, alloc, 5, &[write]);
        let mut clock = MemClock::new(alloc, &SHOWN).expect(&rt, "a clock");
        let (reported, written) = reported_of(&rt, alloc, input, out, &mut clock);
        same(&rt, reported, end(status, Note::Plain));
        same(&rt, written.as_slice(), line.as_bytes());
        same(&rt, SHOWN.get(next), Some(&clock.now()));
    }
}
