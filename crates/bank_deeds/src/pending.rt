//! The transfers that wait while a deed changes or cancels their recurring transfer (MODPENDING, CANPENDING).

ghost use Rattle.std.specs.Prelude.{◌≡◌, ◌+◌, ◌≤◌, ◌∷◌, ◌++◌, [], Some, true, is_some, length, filter, IfOk, OnOk};
ghost use Rattle.std.specs.Option.{option_map};
ghost use Rattle.bank_model.specs.Ledger.{row_of};
ghost use Rattle.bank_model.specs.Models.{waiting_of};
ghost use Rattle.bank_model.specs.Deeds as rules;
ghost use Rattle.bank_model.specs.Deeds.{entries_after};
ghost use Rattle.bank_model.specs.Sound.{IsSoundInfo};
ghost use Rattle.ofx_types.specs.declared.transfer.Change.TheVariants as changes;
ghost use Rattle.bank_transfers.specs.TransfersView.{waits};
ghost use Rattle.bank_invariants.specs.Pending.{pending_of, waiting_if, ids_of, rows_at, waits_for, AreWaiting, AreTerms};
ghost use Rattle.bank_ledger.specs.DraftView.{drafted, HasAdded};

use crate::entries::{own_entry, own_set_entry};
use crate::rows::with_terms;
use crate::transfers::cancelled;
use bank_ledger::{Draft, RowChange};
use ofx_types::{Change, Deed, OutOfMemory, TransferRow, XferCode, XferInfo};
use std::alloc::Global;

/// The ids of the transfers that wait and go along with a deed.
pub(crate) fn pending_ids(
    draft: &Draft<'_>,
    alloc: Global,
    deed: &Deed,
) -> Result<Vec<u64>, OutOfMemory>
    ensures { IfOk result (λ ids. ids.items ≡ ids_of (pending_of (drafted draft.now) deed.now)) }
{
    match deed {
        Deed::ModifyModel(id, _, _, also) => waiting_if(draft, alloc, *also, *id),
        Deed::CancelModel(id, also) => waiting_if(draft, alloc, *also, *id),
        _ => Ok(Vec::new(alloc)),
    }
}

fn waiting_if(
    draft: &Draft<'_>,
    alloc: Global,
    also: bool,
    model: u64,
) -> Result<Vec<u64>, OutOfMemory>
    ensures { IfOk result (λ ids. ids.items ≡ ids_of (waiting_if also model (drafted draft.now))) }
{
    if !also {
        return Ok(Vec::new(alloc));
    }
    waiting(draft, alloc, model)
}

/// The ids of the transfers of a recurring transfer that wait: of those that the bank had made, and of those that are
/// made in the draft.
fn waiting(draft: &Draft<'_>, alloc: Global, model: u64) -> Result<Vec<u64>, OutOfMemory>
    ensures { IfOk result (λ ids. ids.items ≡ ids_of (waiting_of model (drafted draft.now).entries)) }
{
    let before = draft.ledger().waiting(alloc, model)?;
    let mut ids = Vec::new(alloc);
    for id in &before {
        push_waiting(draft, &mut ids, model, *id)?;
    }
    for entry in draft.entries() {
        if let Change::NewTransfer(row) = &entry.change {
            push_waiting(draft, &mut ids, model, row.id)?;
        }
    }
    Ok(ids)
}

/// Puts the id after the others, where the transfer is one of the recurring transfer's that wait.
fn push_waiting(
    draft: &Draft<'_>,
    ids: &mut Vec<u64>,
    model: u64,
    id: u64,
) -> Result<(), OutOfMemory>
    ensures { OnOk result (ids.new.items ≡ ids.old.items
        ++ filter (λ one. waits_for model (row_of one (drafted draft.now).entries)) (id ∷ [])) }
{
    if is_waiting_for(draft.row(id), model) {
        ids.push(id)?;
    }
    Ok(())
}

/// Changes transfers that wait, each on its due day.
pub(crate) fn change_pending(
    draft: &mut Draft<'_>,
    info: &XferInfo,
    ids: &[u64],
) -> Result<(), OutOfMemory>
    requires few { length (drafted draft.old).entries + length ids.now ≤ draft.old.setup.entries }
    requires waiting { AreWaiting (drafted draft.old).entries ids.now }
    requires info { IsSoundInfo info.now }
    requires terms { AreTerms draft.old.setup (drafted draft.old).entries ids.now info.now }
    ensures { OnOk result (HasAdded draft.old draft.new (entries_after draft.old.setup
        (length (drafted draft.old).entries) (λ row. changes.SetTransfer (rules.with_terms info.now row))
        (rows_at (drafted draft.old).entries ids.now))) }
{
    for id in ids {
        change_waiting(draft, info, *id)?;
    }
    Ok(())
}

/// Cancels transfers that wait.
pub(crate) fn drop_pending(draft: &mut Draft<'_>, ids: &[u64]) -> Result<(), OutOfMemory>
    requires few { length (drafted draft.old).entries + length ids.now ≤ draft.old.setup.entries }
    requires waiting { AreWaiting (drafted draft.old).entries ids.now }
    ensures { OnOk result (HasAdded draft.old draft.new (entries_after draft.old.setup
        (length (drafted draft.old).entries) (λ row. changes.DropTransfer row.id)
        (rows_at (drafted draft.old).entries ids.now))) }
{
    for id in ids {
        drop_waiting(draft, *id)?;
    }
    Ok(())
}

/// Changes a transfer that waits: the bank does it by itself.
fn change_waiting(draft: &mut Draft<'_>, info: &XferInfo, id: u64) -> Result<(), OutOfMemory>
    requires few { length (drafted draft.old).entries + 1 ≤ draft.old.setup.entries }
    requires waits { waits (row_of id (drafted draft.old).entries) ≡ true }
    requires info { IsSoundInfo info.now }
    requires terms { AreTerms draft.old.setup (drafted draft.old).entries (id ∷ []) info.now }
    ensures { OnOk result (HasAdded draft.old draft.new (entries_after draft.old.setup
        (length (drafted draft.old).entries) (λ row. changes.SetTransfer (rules.with_terms info.now row))
        (rows_at (drafted draft.old).entries (id ∷ [])))) }
{
    let number = draft.count() + 1;
    let row = row_with_terms(draft, info, id)?;
    let object = draft.object_of(&row.from);
    let entry = own_set_entry(number, object, &row)?;
    draft.enter(entry, RowChange::Row(row))?;
    Ok(())
}

/// Cancels a transfer that waits: the bank does it by itself.
fn drop_waiting(draft: &mut Draft<'_>, id: u64) -> Result<(), OutOfMemory>
    requires few { length (drafted draft.old).entries + 1 ≤ draft.old.setup.entries }
    requires waits { waits (row_of id (drafted draft.old).entries) ≡ true }
    ensures { OnOk result (HasAdded draft.old draft.new (entries_after draft.old.setup
        (length (drafted draft.old).entries) (λ row. changes.DropTransfer row.id)
        (rows_at (drafted draft.old).entries (id ∷ [])))) }
{
    let number = draft.count() + 1;
    let row = cancelled(draft, id)?;
    let object = draft.object_of(&row.from);
    let entry = own_entry(number, object, Change::DropTransfer(id))?;
    draft.enter(entry, RowChange::Row(row))?;
    Ok(())
}

/// The row of the transfer with this id, with a new destination and amount.
fn row_with_terms(draft: &Draft<'_>, info: &XferInfo, id: u64) -> Result<TransferRow, OutOfMemory>
    requires { is_some (row_of id (drafted draft.now).entries) ≡ true }
    ensures { IfOk result (λ changed. option_map (rules.with_terms info.now)
        (row_of id (drafted draft.now).entries) ≡ Some changed) }
{
    match draft.row(id) {
        Some(row) => with_terms(draft.setup(), info, row),
        None => unreachable!(),
    }
}

/// Whether the transfer waits, and is one of the recurring transfer's.
fn is_waiting_for(row: Option<&TransferRow>, model: u64) -> bool
    ensures { result ≡ waits_for model (option_map (λ row. row.now) row.entry) }
{
    match row {
        Some(row) => row.code == XferCode::Waiting && row.model == model,
        None => false,
    }
}
