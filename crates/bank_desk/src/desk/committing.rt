//! The step of one event: prepared, kept, and taken.

ghost use Rattle.std.specs.Prelude.{◌≡◌, ◌≢◌, true, false, Err, is_ok, IfOk, OnErr, OnOk, IsErrOf};
ghost use Rattle.ofx_ports.specs.Faults.{CountsFaults};
ghost use Rattle.ofx_ports.specs.Kept.{counted};
ghost use Rattle.ofx_types.specs.Calendar.{IsMoment};
ghost use Rattle.bank_model.specs.Rules.{IsLegal, state_after, answer_to};
ghost use Rattle.bank_desk.specs.Keeping.{Keeps};

use crate::desk::Desk;
use crate::fault::DeskFault;
use bank_engine::{Envelope, Log};
use bank_model::{Event, SubmitFault};
use ofx_ports::Keeper;
use ofx_types::Moment;
use std::alloc::Global;

impl Desk {
    /// Makes an event happen at that moment, keeps its record, and gives its reply in that envelope.
    ///
    /// All memory is taken before the record is appended, and the bank takes the step after it, which takes none. So the keeper
    /// has one record more exactly where the event has happened: memory is refused to no event whose append was acknowledged.
    /// Where memory is refused or the append fails the bank is as before. Where the append failed the record may be stored, and
    /// only the keeper can say whether it is, when this is settled: the step is given up, and who opens the bank again finds the
    /// record or doesn't.
    pub fn commit<K: Keeper, E: Envelope>(
        &mut self,
        alloc: Global,
        keeper: &mut K,
        at: Moment,
        event: Event,
        envelope: E,
    ) -> Result<Vec<u8>, DeskFault>
        requires moment { IsMoment at.0 }
        requires legal { IsLegal self.old.setup self.old.state at event }
        requires settled { K.unsettled keeper.old ≡ false }
        ensures setup { self.new.setup ≡ self.old.setup }
        ensures state { OnOk result (self.new.state ≡ state_after self.old.setup self.old.state at event) }
        ensures reply { IfOk result (λ line. line.items ≡ E.sent envelope (answer_to self.old.setup self.old.state at event)) }
        ensures kept { Keeps at event (K.records keeper.old) (K.records keeper.new) (K.landed keeper.new) result }
        ensures size { K.size keeper.new ≡ counted (K.size keeper.old) (is_ok result) }
        ensures unchanged { OnErr result (self.new ≡ self.old) }
        ensures settled { result ≢ Err DeskFault.AppendFailed → K.unsettled keeper.new ≡ false }
        ensures unsettled { result ≡ Err DeskFault.AppendFailed → K.unsettled keeper.new ≡ true }
        ensures faults { CountsFaults (K.faults keeper.old) (K.faults keeper.new) (IsErrOf result DeskFault.AppendFailed) }
    {
        // What happens is published to nobody.
        let mut log = Log::new();
        match self
            .engine
            .commit(alloc, keeper, &mut log, event, at, envelope)
        {
            Ok(line) => Ok(line),
            Err(SubmitFault::Keeper(_)) => {
                self.engine.give_up();
                Err(DeskFault::AppendFailed)
            }
            Err(SubmitFault::OutOfMemory) => Err(DeskFault::NoMemory),
        }
    }
}
