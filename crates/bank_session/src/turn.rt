//! One turn of a run: the next frame is read and answered, its records are kept, and its line is written.

ghost use Rattle.std.specs.Prelude.{◌≡◌, ◌≢◌, ◌≤◌, ℕ, true, false, List, Option, Err, IfOk, IfErr, IsErrOf, IsSome};
ghost use Rattle.std.specs.Io.KnownBytes.{Keeps, prepend_known};
ghost use Rattle.ofx_ports.specs.Faults.{CountsFaults};
ghost use Rattle.ofx_types.specs.Calendar.{IsMoment};
ghost use Rattle.ofx_types.specs.declared.number.Moment.{Moment};
ghost use Rattle.bank_frames.specs.NextFrame.{HoldsFrame, content_in, size_of};
ghost use Rattle.bank_arguments.specs.Bounds.{IsLawful};
ghost use Rattle.bank_session.specs.Turns.{turn_view, AnswersAndKeeps, HasNoLine, FrameResult};
ghost use Rattle.bank_session.specs.TurnResult.{TurnResult};

use crate::lines::{due_line, file_line};
use crate::moments::next_moment;
use crate::undone::stop_of;
use bank_desk::{Desk, DeskFault};
use bank_frames::{Ahead, Frame, Next, next_frame};
use bank_opening::Stop;
use ofx_ports::{Clock, Failed, Keeper, Sink, Source, write_whole};
use ofx_types::Moment;
use std::alloc::Global;

/// What is to be written for the frame that is ahead, once its records are kept.
fn frame_line<K: Keeper>(
    alloc: Global,
    desk: &mut Desk,
    at: Moment,
    ahead: &[u8],
    frame: Frame,
    keeper: &mut K,
) -> Result<Vec<u8>, DeskFault>
    requires moment { IsMoment at.0 }
    requires frame { HoldsFrame ahead.now frame }
    requires settled { K.unsettled keeper.old ≡ false }
    ensures setup { desk.new.setup ≡ desk.old.setup }
    ensures line { IfOk result (λ line. AnswersAndKeeps at desk.old desk.new (content_in ahead.now frame) (K.records keeper.old) (K.records keeper.new) line.items) }
    ensures undone { IfErr result (HasNoLine at desk.old (content_in ahead.now frame) (K.records keeper.old) (K.records keeper.new)) }
    ensures settled { result ≢ Err DeskFault.AppendFailed → K.unsettled keeper.new ≡ false }
    ensures unsettled { result ≡ Err DeskFault.AppendFailed → K.unsettled keeper.new ≡ true }
    ensures faults { CountsFaults (K.faults keeper.old) (K.faults keeper.new) (IsErrOf result DeskFault.AppendFailed) }
{
    match frame {
        Frame::File(size) => {
            let file = &ahead[size.head..size.head + size.file];
            file_line(alloc, desk, keeper, at, file)
        }
        Frame::Due => due_line(alloc, desk, keeper, at),
    }
}

/// Answers the frame that is ahead and writes its line. The frame is used up once its line is written whole.
fn answer_frame<W: Sink, K: Keeper>(
    alloc: Global,
    desk: &mut Desk,
    at: Moment,
    ahead: &mut Ahead,
    frame: Frame,
    out: &mut W,
    keeper: &mut K,
) -> Result<(), Stop>
    requires moment { IsMoment at.0 }
    requires frame { HoldsFrame ahead.old frame }
    requires settled { K.unsettled keeper.old ≡ false }
    // Whatever is to come of the input, of which nothing is lost, and whatever is left of the reads and of the clock:
    ensures turn { (coming left : Option (List ℕ)) (reads reads' : ℕ) (shown shown' : Option (List Moment)) → Keeps coming (prepend_known ahead.old left)
        → FrameResult at (size_of frame) desk.old desk.new
        (turn_view coming reads (W.held out.old) (W.faults out.old) (K.records keeper.old) (K.faults keeper.old) shown)
        (turn_view (prepend_known ahead.new left) reads' (W.held out.new) (W.faults out.new) (K.records keeper.new) (K.faults keeper.new) shown') result }
    ensures writes { W.faults out.old ≤ W.faults out.new }
    ensures keeps { K.faults keeper.old ≤ K.faults keeper.new }
    ensures settled { result ≢ Err Stop.KeeperFailed → K.unsettled keeper.new ≡ false }
    ensures unsettled { result ≡ Err Stop.KeeperFailed → K.unsettled keeper.new ≡ true }
{
    let line = match frame_line(alloc, desk, at, ahead.bytes(), frame, keeper) {
        Ok(line) => line,
        Err(undone) => return Err(stop_of(undone)),
    };
    match write_whole(out, &line) {
        Ok(()) => {
            ahead.consume(frame.size());
            Ok(())
        }
        Err(Failed) => Err(Stop::WriteFailed),
    }
}

/// What a turn came to.
#[derive(Clone, Copy, Debug, PartialEq, Eq)]
pub enum TurnEnd {
    /// A frame of this many bytes was answered.
    Answered(usize),
    /// The input is at its end.
    AtEnd,
    /// Bytes are left that begin no frame.
    NoFrame,
}

/// Takes the next turn. The frame's moment is taken once the whole frame is there, and before it is judged.
pub fn run_turn<B: Source, W: Sink, K: Keeper, C: Clock>(
    alloc: Global,
    desk: &mut Desk,
    at: Option<Moment>,
    clock: &mut C,
    ahead: &mut Ahead,
    input: &mut B,
    out: &mut W,
    keeper: &mut K,
) -> Result<TurnEnd, Stop>
    requires moment { IsLawful at }
    requires settled { K.unsettled keeper.old ≡ false }
    ensures turn { TurnResult at desk.old desk.new
        (turn_view (prepend_known ahead.old (B.left input.old)) (B.faults input.old) (W.held out.old) (W.faults out.old) (K.records keeper.old) (K.faults keeper.old) (C.shown clock.old))
        (turn_view (prepend_known ahead.new (B.left input.new)) (B.faults input.new) (W.held out.new) (W.faults out.new) (K.records keeper.new) (K.faults keeper.new) (C.shown clock.new))
        ahead.new result }
    ensures reads { B.faults input.old ≤ B.faults input.new }
    ensures writes { W.faults out.old ≤ W.faults out.new }
    ensures keeps { K.faults keeper.old ≤ K.faults keeper.new }
    ensures settled { result ≢ Err Stop.KeeperFailed → K.unsettled keeper.new ≡ false }
    ensures unsettled { result ≡ Err Stop.KeeperFailed → K.unsettled keeper.new ≡ true }
    ensures still { IsSome at → clock.new ≡ clock.old }
{
    match next_frame(input, ahead) {
        Err(Failed) => Err(Stop::ReadFailed),
        Ok(Next::NoFrame) => Ok(TurnEnd::NoFrame),
        Ok(Next::End) => Ok(TurnEnd::AtEnd),
        Ok(Next::Frame(frame)) => {
            let moment = next_moment(at, clock);
            answer_frame(alloc, desk, moment, ahead, frame, out, keeper)?;
            Ok(TurnEnd::Answered(frame.size()))
        }
    }
}
