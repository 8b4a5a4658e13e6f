//! What is due at a moment, done and kept one event after another.

ghost use Rattle.std.specs.Prelude.{◌≡◌, ◌≢◌, false, true, Err, IfOk, IfErr, IsErrOf};
ghost use Rattle.ofx_ports.specs.Faults.{CountsFaults};
ghost use Rattle.ofx_types.specs.Calendar.{IsMoment};
ghost use Rattle.bank_desk.specs.DueSteps.{RunsNext, LeavesNext, MadeRun, StoppedWork};

use crate::desk::Desk;
use crate::fault::DeskFault;
use bank_engine::{MAX_DUE_EVENTS, Unsent};
use ofx_ports::Keeper;
use ofx_types::Moment;
use std::alloc::Global;

impl Desk {
    /// Does what is due at that moment, one event after another, until none is or they are as many as a run has, and counts them.
    /// Where it isn't done, a prefix of them has happened, and the bank is in the state after that prefix: memory is refused to
    /// no event whose append was acknowledged.
    pub fn due<K: Keeper>(
        &mut self,
        alloc: Global,
        keeper: &mut K,
        at: Moment,
    ) -> Result<u64, DeskFault>
        requires moment { IsMoment at.0 }
        requires settled { K.unsettled keeper.old ≡ false }
        ensures setup { self.new.setup ≡ self.old.setup }
        ensures run { IfOk result (MadeRun at self.old self.new (K.records keeper.old) (K.records keeper.new)) }
        ensures prefix { IfErr result (StoppedWork at self.old self.new (K.records keeper.old) (K.records keeper.new) (K.landed keeper.new)) }
        ensures settled { result ≢ Err DeskFault.AppendFailed → K.unsettled keeper.new ≡ false }
        ensures unsettled { result ≡ Err DeskFault.AppendFailed → K.unsettled keeper.new ≡ true }
        ensures faults { CountsFaults (K.faults keeper.old) (K.faults keeper.new) (IsErrOf result DeskFault.AppendFailed) }
    {
        let mut count = 0;
        while count < MAX_DUE_EVENTS {
            if !self.run_next(alloc, keeper, at)? {
                return Ok(count);
            }
            count += 1;
        }
        Ok(count)
    }

    /// Makes the event happen that is due first at that moment. False where none is.
    fn run_next<K: Keeper>(
        &mut self,
        alloc: Global,
        keeper: &mut K,
        at: Moment,
    ) -> Result<bool, DeskFault>
        requires moment { IsMoment at.0 }
        requires settled { K.unsettled keeper.old ≡ false }
        ensures setup { self.new.setup ≡ self.old.setup }
        ensures taken { IfOk result (RunsNext at self.old self.new (K.records keeper.old) (K.records keeper.new)) }
        ensures undone { IfErr result (LeavesNext at self.old self.new (K.records keeper.old) (K.records keeper.new) (K.landed keeper.new)) }
        ensures settled { result ≢ Err DeskFault.AppendFailed → K.unsettled keeper.new ≡ false }
        ensures unsettled { result ≡ Err DeskFault.AppendFailed → K.unsettled keeper.new ≡ true }
        ensures faults { CountsFaults (K.faults keeper.old) (K.faults keeper.new) (IsErrOf result DeskFault.AppendFailed) }
    {
        match self.engine.book().due(at) {
            None => Ok(false),
            Some(event) => {
                self.commit(alloc, keeper, at, event, Unsent)?;
                Ok(true)
            }
        }
    }
}
