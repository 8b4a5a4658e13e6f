//! A run over the frames of an input.

ghost use Rattle.std.specs.Prelude.{◌≡◌, ◌≢◌, ◌≤◌, ℕ, true, false, List, Option, Err, IsSome};
ghost use Rattle.std.specs.Io.KnownBytes.{prepend_known};
ghost use Rattle.bank_arguments.specs.Bounds.{IsLawful};
ghost use Rattle.bank_session.specs.PortsView.{ports_view};
ghost use Rattle.bank_session.specs.RunEnd.{RunEnds};
ghost use Rattle.bank_session.specs.AfterLastFrame.{AfterLastFrame};

use crate::turn::{TurnEnd, run_turn};
use bank_desk::Desk;
use bank_frames::{Ahead, Next, next_frame};
use bank_opening::Stop;
use ofx_ports::{Clock, Failed, Keeper, Sink, Source};
use ofx_types::Moment;
use std::alloc::Global;

/// The most frames that a run answers.
const MAX_FRAMES: u32 = 1_000_000;

/// Answers the frames of the input in order, each from the state that the one before left and at its moment, and keeps a
/// record of each event.
pub fn answer_frames<B: Source, W: Sink, K: Keeper, C: Clock>(
    alloc: Global,
    desk: &mut Desk,
    at: Option<Moment>,
    clock: &mut C,
    input: &mut B,
    out: &mut W,
    keeper: &mut K,
) -> Result<(), Stop>
    requires moment { IsLawful at }
    requires settled { K.unsettled keeper.old ≡ false }
    // Whatever is left of the source of the setup:
    ensures ends { (left left' : Option (List ℕ)) (faults faults' : ℕ) → RunEnds at desk.old.setup desk.old.state
        (ports_view left faults (B.left input.old) (B.faults input.old) (W.held out.old) (W.faults out.old) (K.records keeper.old) (K.faults keeper.old) (C.shown clock.old) (K.unsettled keeper.old))
        (ports_view left' faults' (B.left input.new) (B.faults input.new) (W.held out.new) (W.faults out.new) (K.records keeper.new) (K.faults keeper.new) (C.shown clock.new) (K.unsettled keeper.new)) result }
    ensures reads { B.faults input.old ≤ B.faults input.new }
    ensures writes { W.faults out.old ≤ W.faults out.new }
    ensures keeps { K.faults keeper.old ≤ K.faults keeper.new }
    ensures settled { result ≢ Err Stop.KeeperFailed → K.unsettled keeper.new ≡ false }
    ensures unsettled { result ≡ Err Stop.KeeperFailed → K.unsettled keeper.new ≡ true }
    ensures still { IsSome at → clock.new ≡ clock.old }
{
    let mut ahead = Ahead::new(alloc)?;
    let mut turns = 0;
    let mut offset = 0;
    while turns < MAX_FRAMES {
        match run_turn(alloc, desk, at, clock, &mut ahead, input, out, keeper)? {
            TurnEnd::Answered(size) => offset += size as u64,
            TurnEnd::AtEnd => return Ok(()),
            TurnEnd::NoFrame => return Err(Stop::Frame(offset)),
        }
        turns += 1;
    }
    end_of_input(offset, &mut ahead, input)
}

/// The end of an input of which no more frames are answered, after this many bytes.
fn end_of_input<B: Source>(offset: u64, ahead: &mut Ahead, input: &mut B) -> Result<(), Stop>
    ensures end { AfterLastFrame (prepend_known ahead.old (B.left input.old)) offset ahead.new (B.left input.new) (B.faults input.old) (B.faults input.new) result }
    ensures reads { B.faults input.old ≤ B.faults input.new }
    ensures kept { result ≢ Err Stop.KeeperFailed }
{
    match next_frame(input, ahead) {
        Ok(Next::End) => Ok(()),
        Ok(Next::Frame(_)) => Err(Stop::Frame(offset)),
        Ok(Next::NoFrame) => Err(Stop::Frame(offset)),
        Err(Failed) => Err(Stop::ReadFailed),
    }
}
