//! The bank of one thread, whose records the server goes on from.

ghost use Rattle.std.specs.Prelude.{◌≡◌, false, is_some};

use crate::sample::{keys, texts};
use bank_samples::sample::SETUP;
use bank_session::answer_told;
use ofx_ports::{Keeper, MemClock, MemKeeper, MemSink, MemSource};
use ofx_types::Status;
use std::alloc::Global;
use std::process::Abort;

/// More room than any run of these tests needs.
const ROOM: usize = 8_192;

/// What a run writes for this frame over the records of a keeper, at the moments of the clock. Nothing where it isn't answered.
/// Afterwards nothing is to be settled.
pub fn written_over(
    rt: &impl Abort,
    alloc: Global,
    frame: &str,
    keeper: &mut MemKeeper,
    clock: &mut MemClock,
) -> String
    ensures { is_some keeper.new.landed ≡ false }
{
    let arguments = texts(rt, alloc, &["answer", "setup", "-"]);
    let mut setup = MemSource::new(alloc, SETUP).expect(rt, "the setup");
    let mut input = MemSource::new(alloc, frame.as_bytes()).expect(rt, "the input");
    let mut out = MemSink::new(alloc, ROOM).expect(rt, "the output");
    let _ = keeper.settle().expect(rt, "the records that stand");
    let reported = answer_told(
        alloc,
        keys(rt),
        &arguments,
        &mut setup,
        &mut input,
        &mut out,
        keeper,
        clock,
    );
    let _ = keeper.settle().expect(rt, "the records that stand");
    if reported.status != Status(0) {
        return String::new(alloc);
    }
    let text = str::from_utf8(out.held()).expect(rt, "a text");
    String::from_str(alloc, text).expect(rt, "room")
}
