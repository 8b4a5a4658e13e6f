//! Letters of the bank to a user.

ghost use Rattle.std.specs.Prelude.{◌≡◌, ◌≢◌, ℕ, true, false, List, [], ◌∷◌, Err, IfOk, IsErrOf};
ghost use Rattle.ofx_ports.specs.Faults.{CountsFaults};
ghost use Rattle.ofx_ports.specs.Known.{Stays, Grows};
ghost use Rattle.ofx_ports.specs.Kept.{MayGrow};
ghost use Rattle.ofx_types.specs.Calendar.{IsMoment};
ghost use Rattle.bank_model.specs.Rules.{IsLegal};
ghost use Rattle.bank_model.specs.declared.event.Event.TheVariants as events;
ghost use Rattle.event_codec.specs.Records.{Codes};
ghost use Rattle.bank_session.specs.Letters.{CanWrite, WritesLetter};

use bank_desk::{Desk, DeskFault, Unsent};
use bank_frames::letter_line;
use bank_model::Event;
use ofx_ports::Keeper;
use ofx_types::{Duplicate, Moment, Text, UserId};
use std::alloc::Global;

/// Writes a user a letter at that moment, as the entry of that number, and reports the number. All memory is taken before
/// the record is appended.
pub fn letter<K: Keeper>(
    alloc: Global,
    desk: &mut Desk,
    keeper: &mut K,
    at: Moment,
    to: (UserId, u64),
    subject: &Text,
    body: Text,
) -> Result<Vec<u8>, DeskFault>
    requires moment { IsMoment at.0 }
    requires to { CanWrite desk.old to subject.now body }
    requires settled { K.unsettled keeper.old ≡ false }
    ensures setup { desk.new.setup ≡ desk.old.setup }
    ensures line { IfOk result (λ line. (rec : List ℕ)
        × WritesLetter desk.old.setup at desk.old.state to.0 subject.now body line.items rec desk.new.state
        × Grows (K.records keeper.old) (K.records keeper.new) (rec ∷ [])) }
    ensures refused { result ≡ Err DeskFault.NoMemory → Stays (K.records keeper.old) (K.records keeper.new) }
    ensures unkept { result ≡ Err DeskFault.AppendFailed → (rec : List ℕ)
        × IsLegal desk.old.setup desk.old.state at (events.Letter to.0 subject.now body)
        × Codes rec at (events.Letter to.0 subject.now body)
        × MayGrow (K.records keeper.old) (K.records keeper.new) (K.landed keeper.new) rec }
    ensures settled { result ≢ Err DeskFault.AppendFailed → K.unsettled keeper.new ≡ false }
    ensures unsettled { result ≡ Err DeskFault.AppendFailed → K.unsettled keeper.new ≡ true }
    ensures faults { CountsFaults (K.faults keeper.old) (K.faults keeper.new) (IsErrOf result DeskFault.AppendFailed) }
{
    let event = Event::Letter(to.0, subject.copy()?, body);
    let line = letter_line(alloc, to.1)?;
    desk.commit(alloc, keeper, at, event, Unsent)?;
    Ok(line)
}
