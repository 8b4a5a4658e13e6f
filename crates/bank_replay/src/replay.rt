//! One kept record, taken by a bank.

ghost use Rattle.std.specs.Prelude.{◌≡◌, ◌∷◌, [], IfOk, IfErr, OnOk};
ghost use Rattle.event_codec.specs.Records.{Codes, Reopens};
ghost use Rattle.bank_replay.specs.Replay.{IsUnread, IsNotTaken};

use crate::fault::OpenFault;
use bank_model::{Event, Printer};
use bank_solo::SoloBank;
use event_codec::{RecordFault, read_event};
use ofx_types::Moment;
use std::alloc::Global;

/// Lets the event happen that the record of this number codes.
pub(crate) fn apply_record<P: Printer>(
    alloc: Global,
    bank: &mut SoloBank<P>,
    number: u64,
    rec: &[u8],
) -> Result<(), OpenFault>
    requires { bank.old.held ≡ [] }
    ensures setup { bank.new.setup ≡ bank.old.setup }
    ensures pool { bank.new.held ≡ [] }
    ensures taken { OnOk result (Reopens bank.old.setup bank.old.state (rec.now ∷ []) bank.new.state) }
    ensures refused { IfErr result (IsNotTaken bank.old.setup bank.old.state number rec.now) }
{
    let (event, at) = event_of(alloc, number, rec)?;
    if !bank.book().legal(&event, at) {
        return Err(OpenFault::Illegal(number));
    }
    bank.replay(alloc, &event, at)?;
    Ok(())
}

/// The event that the record of this number codes, and its moment.
fn event_of(alloc: Global, number: u64, rec: &[u8]) -> Result<(Event, Moment), OpenFault>
    ensures found { IfOk result (λ found. Codes rec.now found.1 found.0) }
    ensures refused { IfErr result (IsUnread number rec.now) }
{
    match read_event(alloc, rec) {
        Ok(found) => Ok(found),
        Err(RecordFault::Version(_)) => Err(OpenFault::Record(number, 0)),
        Err(RecordFault::Bad(at)) => Err(OpenFault::Record(number, at)),
        Err(RecordFault::OutOfMemory) => Err(OpenFault::OutOfMemory),
    }
}
