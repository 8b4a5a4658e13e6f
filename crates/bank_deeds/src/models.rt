//! Deeds on recurring transfers: what each adds to a draft (OFX 1.6, "Recurring Transactions").

ghost use Rattle.std.specs.Prelude.{◌≡◌, ◌+◌, ◌≤◌, None, Some, true, is_some, length, IfOk, OnOk};
ghost use Rattle.std.specs.Option.{option_map, IfSome};
ghost use Rattle.ofx_types.specs.Calendar.{IsDay};
ghost use Rattle.ofx_types.specs.declared.transfer.Deed.TheVariants as deeds;
ghost use Rattle.bank_model.specs.SetupLookups.{account_of};
ghost use Rattle.bank_model.specs.Models.{model_of};
ghost use Rattle.bank_model.specs.Deeds as rules;
ghost use Rattle.bank_model.specs.Deeds.{done};
ghost use Rattle.bank_model.specs.Sound.{IsSoundDeed};
ghost use Rattle.bank_invariants.specs.SoundStates.{IsSoundState};
ghost use Rattle.bank_invariants.specs.Pending.{pending_of, ids_of, own_entries};
ghost use Rattle.bank_ledger.specs.DraftView.{drafted, HasAdded};
ghost use Rattle.bank_deeds.specs.Unrefused.{IsUnrefused};

use crate::entries::{new_model_entry, set_model_entry};
use crate::pending::{change_pending, drop_pending};
use crate::rows::{changed_model, new_model};
use bank_ledger::{Draft, RowChange};
use bank_model::Entry;
use ofx_types::{Change, Duplicate, ModelRow, ObjectId, OutOfMemory, Recur, TrnUid, XferInfo};

/// Takes a recurring transfer.
pub(crate) fn add_model(
    draft: &mut Draft<'_>,
    trnuid: &TrnUid,
    recur: Recur,
    info: &XferInfo,
) -> Result<(), OutOfMemory>
    requires few { length (drafted draft.old).entries + 1 ≤ draft.old.setup.entries }
    requires deed { IsSoundDeed (deeds.Model recur info.now) }
    requires judged { IsUnrefused draft.old.setup (drafted draft.old) draft.old.user
        (deeds.Model recur info.now) }
    ensures added { OnOk result (HasAdded draft.old draft.new
        (done draft.old.setup (drafted draft.old) draft.old.user draft.old.at trnuid.now (deeds.Model recur info.now))) }
{
    let number = draft.count() + 1;
    let row = new_model(draft.setup(), number, draft.day(), recur, info)?;
    let object = draft.model_object_of(&info.from);
    let entry = new_model_entry(number, object, trnuid, &row)?;
    draft.enter(entry, RowChange::Model(row))?;
    Ok(())
}

/// Changes a recurring transfer, which begins anew, and the transfers of it that wait.
pub(crate) fn modify_model(
    draft: &mut Draft<'_>,
    trnuid: &TrnUid,
    asked: (u64, Recur, bool),
    info: &XferInfo,
    pending: &[u64],
) -> Result<(), OutOfMemory>
    requires few { length (drafted draft.old).entries + (length pending.now + 1) ≤ draft.old.setup.entries }
    requires deed { IsSoundDeed (deeds.ModifyModel asked.0 asked.1 info.now asked.2) }
    requires judged { IsUnrefused draft.old.setup (drafted draft.old) draft.old.user
        (deeds.ModifyModel asked.0 asked.1 info.now asked.2) }
    requires pending { pending.now ≡ ids_of (pending_of (drafted draft.old)
        (deeds.ModifyModel asked.0 asked.1 info.now asked.2)) }
    ensures added { OnOk result (HasAdded draft.old draft.new
        (done draft.old.setup (drafted draft.old) draft.old.user draft.old.at trnuid.now
        (deeds.ModifyModel asked.0 asked.1 info.now asked.2))) }
{
    change_model(draft, trnuid, asked, info)?;
    change_pending(draft, info, pending)?;
    Ok(())
}

/// Cancels a recurring transfer, and the transfers of it that wait.
pub(crate) fn cancel_model(
    draft: &mut Draft<'_>,
    trnuid: &TrnUid,
    asked: (u64, bool),
    pending: &[u64],
) -> Result<(), OutOfMemory>
    requires few { length (drafted draft.old).entries + (length pending.now + 1) ≤ draft.old.setup.entries }
    requires judged { IsUnrefused draft.old.setup (drafted draft.old) draft.old.user
        (deeds.CancelModel asked.0 asked.1) }
    requires pending { pending.now ≡ ids_of (pending_of (drafted draft.old)
        (deeds.CancelModel asked.0 asked.1)) }
    ensures added { OnOk result (HasAdded draft.old draft.new
        (done draft.old.setup (drafted draft.old) draft.old.user draft.old.at trnuid.now
        (deeds.CancelModel asked.0 asked.1))) }
{
    drop_model(draft, trnuid, asked.0, asked.1)?;
    drop_pending(draft, pending)?;
    Ok(())
}

/// Gives a recurring transfer the row that it has from now on.
fn change_model(
    draft: &mut Draft<'_>,
    trnuid: &TrnUid,
    asked: (u64, Recur, bool),
    info: &XferInfo,
) -> Result<(), OutOfMemory>
    requires few { length (drafted draft.old).entries + 1 ≤ draft.old.setup.entries }
    requires deed { IsSoundDeed (deeds.ModifyModel asked.0 asked.1 info.now asked.2) }
    requires judged { IsUnrefused draft.old.setup (drafted draft.old) draft.old.user
        (deeds.ModifyModel asked.0 asked.1 info.now asked.2) }
    ensures sound { OnOk result (IsSoundState draft.old.setup (drafted draft.old)) }
    ensures added { OnOk result (HasAdded draft.old draft.new (own_entries draft.old.setup
        (drafted draft.old) trnuid.now (deeds.ModifyModel asked.0 asked.1 info.now asked.2))) }
{
    let number = draft.count() + 1;
    let row = changed(draft, asked.0, asked.1, info)?;
    let object = draft.model_object_of(&row.from);
    let entry = set_model_entry(number, object, trnuid, &row, asked.2)?;
    draft.enter(entry, RowChange::Model(row))?;
    Ok(())
}

/// Cancels a recurring transfer alone.
fn drop_model(
    draft: &mut Draft<'_>,
    trnuid: &TrnUid,
    id: u64,
    also: bool,
) -> Result<(), OutOfMemory>
    requires few { length (drafted draft.old).entries + 1 ≤ draft.old.setup.entries }
    requires judged { IsUnrefused draft.old.setup (drafted draft.old) draft.old.user
        (deeds.CancelModel id also) }
    ensures sound { OnOk result (IsSoundState draft.old.setup (drafted draft.old)) }
    ensures added { OnOk result (HasAdded draft.old draft.new (own_entries draft.old.setup
        (drafted draft.old) trnuid.now (deeds.CancelModel id also))) }
{
    let number = draft.count() + 1;
    let object = object_of_model(draft, id);
    let trnuid = trnuid.copy()?;
    let entry = Entry {
        number,
        object,
        trnuid,
        change: Change::DropModel(id, also),
    };
    draft.enter(entry, RowChange::NoModel(id))?;
    Ok(())
}

/// The row of the recurring transfer with this id, changed.
fn changed(
    draft: &Draft<'_>,
    id: u64,
    recur: Recur,
    info: &XferInfo,
) -> Result<ModelRow, OutOfMemory>
    requires due { IfSome info.now.due (λ due. IsDay due.0) }
    requires there { is_some (model_of id (drafted draft.now).entries) ≡ true }
    ensures { IfOk result (λ changed. option_map (rules.changed_model draft.now.day recur info.now)
        (model_of id (drafted draft.now).entries) ≡ Some changed) }
{
    match draft.model(id) {
        Some(row) => changed_model(draft.setup(), draft.day(), recur, info, row),
        None => unreachable!(),
    }
}

/// The object of the recurring transfer with this id.
fn object_of_model(draft: &Draft<'_>, id: u64) -> ObjectId
    requires there { is_some (model_of id (drafted draft.now).entries) ≡ true }
    requires own { IfSome (model_of id (drafted draft.now).entries)
        (λ row. is_some (account_of draft.now.setup row.from) ≡ true) }
    ensures { option_map (λ row. rules.model_object_of draft.now.setup row.from)
        (model_of id (drafted draft.now).entries) ≡ Some result }
{
    match draft.model(id) {
        Some(row) => draft.model_object_of(&row.from),
        None => unreachable!(),
    }
}
