//! The command `due`: what is due in a bank that opens from its records, done once.

ghost use Rattle.std.specs.Prelude.{◌≡◌, ◌≢◌, ◌≤◌, ℕ, true, false, List, Option, Err};
ghost use Rattle.bank_session.specs.PortsView.{ports_view};
ghost use Rattle.bank_session.specs.DueEnd.{DueEnds};
ghost use Rattle.bank_session.specs.Run.{EndsSo};

use crate::lines::due_line;
use crate::opening::open_desk;
use crate::undone::stop_of;
use bank_desk::Desk;
use bank_opening::{Stop, read_setup};
use ofx_ports::{Clock, Failed, Keeper, Sink, Source, write_whole};
use std::alloc::Global;
use std::hash::RandomState;

/// Reads the setup, opens the bank from its records, does what is due at the moment that the clock shows, and writes how much
/// it was.
pub fn do_due_once<A: Source, W: Sink, K: Keeper, C: Clock>(
    alloc: Global,
    keys: RandomState,
    setup: &mut A,
    out: &mut W,
    keeper: &mut K,
    clock: &mut C,
) -> Result<(), Stop>
    requires { K.unsettled keeper.old ≡ false }
    // Whatever is left of the input:
    ensures ends { (left : Option (List ℕ)) (faults : ℕ) → EndsSo DueEnds
        (ports_view (A.left setup.old) (A.faults setup.old) left faults (W.held out.old) (W.faults out.old) (K.records keeper.old) (K.faults keeper.old) (C.shown clock.old) (K.unsettled keeper.old))
        (ports_view (A.left setup.new) (A.faults setup.new) left faults (W.held out.new) (W.faults out.new) (K.records keeper.new) (K.faults keeper.new) (C.shown clock.new) (K.unsettled keeper.new)) result }
    ensures settled { result ≢ Err Stop.KeeperFailed → K.unsettled keeper.new ≡ false }
    ensures later { K.faults keeper.old ≤ K.faults keeper.new }
{
    let setup = read_setup(alloc, setup)?;
    let mut desk = open_desk(alloc, keys, setup, keeper)?;
    write_due(alloc, &mut desk, out, keeper, clock)
}

/// Does what is due at a desk, and writes its line. The clock is read once.
fn write_due<W: Sink, K: Keeper, C: Clock>(
    alloc: Global,
    desk: &mut Desk,
    out: &mut W,
    keeper: &mut K,
    clock: &mut C,
) -> Result<(), Stop>
    requires { K.unsettled keeper.old ≡ false }
    // Whatever is left of the input and of the source of the setup:
    ensures ends { (setup_left setup_left' left : Option (List ℕ)) (setup_faults setup_faults' faults : ℕ) → DueEnds desk.old.setup desk.old.state
        (ports_view setup_left setup_faults left faults (W.held out.old) (W.faults out.old) (K.records keeper.old) (K.faults keeper.old) (C.shown clock.old) (K.unsettled keeper.old))
        (ports_view setup_left' setup_faults' left faults (W.held out.new) (W.faults out.new) (K.records keeper.new) (K.faults keeper.new) (C.shown clock.new) (K.unsettled keeper.new)) result }
    ensures settled { result ≢ Err Stop.KeeperFailed → K.unsettled keeper.new ≡ false }
    ensures unsettled { result ≡ Err Stop.KeeperFailed → K.unsettled keeper.new ≡ true }
    ensures later { K.faults keeper.old ≤ K.faults keeper.new }
{
    let moment = clock.now();
    let line = match due_line(alloc, desk, keeper, moment) {
        Ok(line) => line,
        Err(undone) => return Err(stop_of(undone)),
    };
    match write_whole(out, &line) {
        Ok(()) => Ok(()),
        Err(Failed) => Err(Stop::WriteFailed),
    }
}
