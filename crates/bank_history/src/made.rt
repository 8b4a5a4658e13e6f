//! What entries made: transfers, recurring transfers and mails.

ghost use Rattle.std.specs.Prelude.{◌≡◌, ◌∷◌, ◌++◌, [], option_to_list, IfOk, OnOk};
ghost use Rattle.bank_model.specs.Objects.{history_of};
ghost use Rattle.bank_history.specs.Made.{made_in, made_of};

use bank_model::Entry;
use ofx_types::{Change, Duplicate, MailRow, ObjectId, OutOfMemory};

/// What an entry made.
#[derive(Drop)]
pub enum Made {
    /// The transfer with this id.
    Transfer(u64),
    /// The recurring transfer with this id.
    Model(u64),
    /// A mail.
    Mail(MailRow),
}

/// What a change made. A mail is copied.
pub(crate) fn made_by(change: &Change) -> Result<Option<Made>, OutOfMemory>
    ensures { IfOk result (λ made. option_to_list made ≡ made_in change.now) }
{
    match change {
        Change::NewTransfer(row) => Ok(Some(Made::Transfer(row.id))),
        Change::NewModel(row) => Ok(Some(Made::Model(row.id))),
        Change::NewMail(row) => {
            let copy = row.copy()?;
            Ok(Some(Made::Mail(copy)))
        }
        Change::SetTransfer(_) => Ok(None),
        Change::DropTransfer(_) => Ok(None),
        Change::SetModel(_, _) => Ok(None),
        Change::DropModel(_, _) => Ok(None),
    }
}

/// Puts what those of some entries made that are an object's after what is there.
pub fn put_made(
    made: &mut Vec<Made>,
    entries: &[Entry],
    object: ObjectId,
) -> Result<(), OutOfMemory>
    ensures { OnOk result (made.new.items ≡ made.old.items ++ made_of object entries.now) }
{
    for entry in entries {
        put_one(made, entry, object)?;
    }
    Ok(())
}

/// Puts what an entry made after what is there, where the entry is one of the object.
#[tactic(auto, unfolding(bank_model::specs::Objects::history_of))]
fn put_one(made: &mut Vec<Made>, entry: &Entry, object: ObjectId) -> Result<(), OutOfMemory>
    ensures { OnOk result (made.new.items ≡ made.old.items ++ made_of object (entry.now ∷ [])) }
{
    if entry.object.0 == object.0 {
        return put_change(made, &entry.change);
    }
    Ok(())
}

/// Puts what a change made after what is there.
fn put_change(made: &mut Vec<Made>, change: &Change) -> Result<(), OutOfMemory>
    ensures { OnOk result (made.new.items ≡ made.old.items ++ made_in change.now) }
{
    match made_by(change)? {
        Some(one) => {
            made.push(one)?;
            Ok(())
        }
        None => Ok(()),
    }
}
