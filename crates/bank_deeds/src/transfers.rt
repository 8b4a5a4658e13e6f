//! Deeds on transfers: what each adds to a draft (OFX 1.6, "Intrabank Funds Transfer").

ghost use Rattle.std.specs.Prelude.{◌≡◌, ◌+◌, ◌≤◌, Some, true, is_some, length, IfOk, OnOk};
ghost use Rattle.std.specs.Option.{option_map, IfSome};
ghost use Rattle.ofx_types.specs.Calendar.{IsDay};
ghost use Rattle.ofx_types.specs.declared.transfer.XferCode.TheVariants as codes;
ghost use Rattle.ofx_types.specs.declared.transfer.Deed.TheVariants as asked;
ghost use Rattle.bank_model.specs.Ledger as ledgers;
ghost use Rattle.bank_model.specs.Ledger.{row_of};
ghost use Rattle.bank_model.specs.Deeds as rules;
ghost use Rattle.bank_model.specs.Deeds.{done};
ghost use Rattle.bank_model.specs.Rules.{named_by_deed};
ghost use Rattle.bank_model.specs.Sound.{IsSoundDeed};
ghost use Rattle.bank_accounts.specs.HeldAccounts.{AreHeld};
ghost use Rattle.bank_ledger.specs.DraftView.{drafted, HasAdded};
ghost use Rattle.bank_deeds.specs.Unrefused.{IsUnrefused};

use crate::entries::{new_entry, set_entry};
use crate::rows::{changed_row, new_row};
use bank_ledger::{Draft, RowChange};
use bank_model::Entry;
use ofx_types::{Change, Duplicate, OutOfMemory, TransferRow, TrnUid, XferCode, XferInfo};

/// Takes a transfer: it is posted where it is due, and waits otherwise.
pub(crate) fn transfer(
    draft: &mut Draft<'_>,
    trnuid: &TrnUid,
    info: &XferInfo,
) -> Result<(), OutOfMemory>
    requires few { length (drafted draft.old).entries + 1 ≤ draft.old.setup.entries }
    requires deed { IsSoundDeed (asked.Transfer info.now) }
    requires named { AreHeld draft.old.held (named_by_deed draft.old.setup (asked.Transfer info.now)) }
    requires judged { IsUnrefused draft.old.setup (drafted draft.old) draft.old.user
        (asked.Transfer info.now) }
    ensures added { OnOk result (HasAdded draft.old draft.new
        (done draft.old.setup (drafted draft.old) draft.old.user draft.old.at trnuid.now (asked.Transfer info.now))) }
{
    let number = draft.count() + 1;
    let row = new_row(draft.setup(), number, draft.at(), draft.day(), info)?;
    let object = draft.object_of(&info.from);
    let entry = new_entry(number, object, trnuid, &row)?;
    draft.enter_processed(entry, row)?;
    Ok(())
}

/// Changes a transfer that waits.
pub(crate) fn modify(
    draft: &mut Draft<'_>,
    trnuid: &TrnUid,
    id: u64,
    info: &XferInfo,
) -> Result<(), OutOfMemory>
    requires few { length (drafted draft.old).entries + 1 ≤ draft.old.setup.entries }
    requires deed { IsSoundDeed (asked.ModifyTransfer id info.now) }
    requires judged { IsUnrefused draft.old.setup (drafted draft.old) draft.old.user
        (asked.ModifyTransfer id info.now) }
    ensures added { OnOk result (HasAdded draft.old draft.new
        (done draft.old.setup (drafted draft.old) draft.old.user draft.old.at trnuid.now (asked.ModifyTransfer id info.now))) }
{
    let number = draft.count() + 1;
    let row = changed(draft, id, info)?;
    let object = draft.object_of(&row.from);
    let entry = set_entry(number, object, trnuid, &row)?;
    draft.enter(entry, RowChange::Row(row))?;
    Ok(())
}

/// Cancels a transfer that waits.
pub(crate) fn cancel(draft: &mut Draft<'_>, trnuid: &TrnUid, id: u64) -> Result<(), OutOfMemory>
    requires few { length (drafted draft.old).entries + 1 ≤ draft.old.setup.entries }
    requires judged { IsUnrefused draft.old.setup (drafted draft.old) draft.old.user
        (asked.CancelTransfer id) }
    ensures added { OnOk result (HasAdded draft.old draft.new
        (done draft.old.setup (drafted draft.old) draft.old.user draft.old.at trnuid.now (asked.CancelTransfer id))) }
{
    let number = draft.count() + 1;
    let row = cancelled(draft, id)?;
    let object = draft.object_of(&row.from);
    let trnuid = trnuid.copy()?;
    let entry = Entry {
        number,
        object,
        trnuid,
        change: Change::DropTransfer(id),
    };
    draft.enter(entry, RowChange::Row(row))?;
    Ok(())
}

/// The row of the transfer with this id, changed.
fn changed(draft: &Draft<'_>, id: u64, info: &XferInfo) -> Result<TransferRow, OutOfMemory>
    requires due { IfSome info.now.due (λ due. IsDay due.0) }
    requires there { is_some (row_of id (drafted draft.now).entries) ≡ true }
    ensures { IfOk result (λ changed. option_map (rules.changed_row draft.now.day info.now)
        (row_of id (drafted draft.now).entries) ≡ Some changed) }
{
    match draft.row(id) {
        Some(row) => changed_row(draft.setup(), draft.day(), info, row),
        None => unreachable!(),
    }
}

/// The row of the transfer with this id, cancelled.
pub(crate) fn cancelled(draft: &Draft<'_>, id: u64) -> Result<TransferRow, OutOfMemory>
    requires { is_some (row_of id (drafted draft.now).entries) ≡ true }
    ensures { IfOk result (λ cancelled. option_map (ledgers.with_code codes.Cancelled)
        (row_of id (drafted draft.now).entries) ≡ Some cancelled) }
{
    match draft.row(id) {
        Some(row) => cancelled_row(row),
        None => unreachable!(),
    }
}

pub(crate) fn cancelled_row(row: &TransferRow) -> Result<TransferRow, OutOfMemory>
    ensures { IfOk result (λ cancelled. cancelled ≡ ledgers.with_code codes.Cancelled row.now) }
{
    Ok(TransferRow {
        id: row.id,
        model: row.model,
        from: row.from.copy()?,
        to: row.to.copy()?,
        amount: row.amount,
        due: row.due,
        code: XferCode::Cancelled,
        stamp: row.stamp,
    })
}
