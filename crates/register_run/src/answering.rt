//! The frames of an input, answered in order.

ghost use Rattle.std.specs.Prelude.{drop, IsErrOf};
ghost use Rattle.ofx_ports.specs.Faults.{CountsFaults};
ghost use Rattle.register_run.specs.NextFrame.{IsFrame};
ghost use Rattle.register_run.specs.Turns.{AnswersOne, RunsTurn, AnswersAll, EndsInput};

use crate::frames::{Next, next_frame};
use crate::importing::import_file;
use crate::keeping::print;
use crate::stop::Stop;
use file_register::Register;
use ofx_ports::{FetchFault, Sink, Source};
use ofx_types::OutOfMemory;
use std::alloc::Global;

/// The most frames that a run answers.
const MAX_FRAMES: u32 = 1_000_000;

/// What a turn came to.
#[derive(Clone, Copy)]
pub(crate) enum Turn {
    /// A frame of this many bytes was answered.
    Answered(usize),
    /// The input is at its end.
    AtEnd,
    /// Bytes are left that begin no frame.
    NoFrame,
}

/// Answers the file of a frame that was read, and prints its line.
fn answer<W: Sink>(
    alloc: Global,
    register: &mut Register,
    frame: &[u8],
    head: usize,
    out: &mut W,
) -> Result<(), Stop>
    requires { IsFrame frame.now head }
    ensures answers { AnswersOne register.old (drop head frame.now) (W.held out.old) register.new (W.held out.new) result }
    ensures faults { CountsFaults (W.faults out.old) (W.faults out.new) (IsErrOf result Stop.WriteFailed) }
{
    match import_file(alloc, register, &frame[head..]) {
        Ok(line) => print(&line, out),
        Err(OutOfMemory) => Err(Stop::NoMemory),
    }
}

/// Reads the next frame and answers it.
fn run_turn<A: Source, W: Sink>(
    alloc: Global,
    register: &mut Register,
    input: &mut A,
    out: &mut W,
) -> Result<Turn, Stop>
    ensures turn { RunsTurn register.old (A.left input.old) (W.held out.old) register.new (A.left input.new) (W.held out.new) result }
    ensures reads { CountsFaults (A.faults input.old) (A.faults input.new) (IsErrOf result Stop.ReadFailed) }
    ensures writes { CountsFaults (W.faults out.old) (W.faults out.new) (IsErrOf result Stop.WriteFailed) }
{
    let mut bytes = Vec::new(alloc);
    match next_frame(input, &mut bytes) {
        Ok(Next::Frame(head)) => {
            answer(alloc, register, &bytes, head, out)?;
            Ok(Turn::Answered(bytes.len()))
        }
        Ok(Next::End) => Ok(Turn::AtEnd),
        Ok(Next::NoFrame) => Ok(Turn::NoFrame),
        Err(FetchFault::Failed) => Err(Stop::ReadFailed),
        Err(FetchFault::OutOfMemory) => Err(Stop::NoMemory),
    }
}

/// Answers the frames of an input, at most 1,000,000 of them.
pub(crate) fn answer_frames<A: Source, W: Sink>(
    alloc: Global,
    register: &mut Register,
    input: &mut A,
    out: &mut W,
) -> Result<(), Stop>
    ensures answers { AnswersAll register.old (A.left input.old) (W.held out.old) register.new (A.left input.new) (W.held out.new) result }
    ensures reads { CountsFaults (A.faults input.old) (A.faults input.new) (IsErrOf result Stop.ReadFailed) }
    ensures writes { CountsFaults (W.faults out.old) (W.faults out.new) (IsErrOf result Stop.WriteFailed) }
{
    let mut turns = 0;
    let mut offset = 0;
    while turns < MAX_FRAMES {
        match run_turn(alloc, register, input, out)? {
            Turn::Answered(size) => offset += size as u64,
            Turn::AtEnd => return Ok(()),
            Turn::NoFrame => return Err(Stop::Frame(offset)),
        }
        turns += 1;
    }
    end_of_input(alloc, offset, input)
}

/// The end of an input of which no more frames are answered, after this many bytes.
fn end_of_input<A: Source>(alloc: Global, offset: u64, input: &mut A) -> Result<(), Stop>
    ensures ends { EndsInput offset (A.left input.old) (A.left input.new) result }
    ensures reads { CountsFaults (A.faults input.old) (A.faults input.new) (IsErrOf result Stop.ReadFailed) }
{
    let mut bytes = Vec::new(alloc);
    match next_frame(input, &mut bytes) {
        Ok(Next::End) => Ok(()),
        Ok(Next::Frame(_)) => Err(Stop::Frame(offset)),
        Ok(Next::NoFrame) => Err(Stop::Frame(offset)),
        Err(FetchFault::Failed) => Err(Stop::ReadFailed),
        Err(FetchFault::OutOfMemory) => Err(Stop::NoMemory),
    }
}
