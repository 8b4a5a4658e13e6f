//! Entries of deeds and of due work.

ghost use Rattle.std.specs.Prelude.{◌≡◌, codes, IfOk};
ghost use Rattle.ofx_types.specs.declared.transfer.Change.TheVariants as changes;
ghost use Rattle.bank_deeds.specs.Entries.{entry_with};

use bank_ledger::own_uid;
use bank_model::Entry;
use ofx_types::{Change, Duplicate, ModelRow, ObjectId, OutOfMemory, TransferRow, TrnUid};

/// The entry of a deed.
pub(crate) fn entry_of(
    number: u64,
    object: ObjectId,
    trnuid: &TrnUid,
    change: Change,
) -> Result<Entry, OutOfMemory>
    ensures { IfOk result (λ entry. entry ≡ entry_with number object trnuid.now change) }
{
    let trnuid = trnuid.copy()?;
    Ok(Entry {
        number,
        object,
        trnuid,
        change,
    })
}

/// The entry of a new transfer.
pub(crate) fn new_entry(
    number: u64,
    object: ObjectId,
    trnuid: &TrnUid,
    row: &TransferRow,
) -> Result<Entry, OutOfMemory>
    ensures { IfOk result (λ entry. entry ≡ entry_with number object trnuid.now (changes.NewTransfer row.now)) }
{
    let copy = row.copy()?;
    entry_of(number, object, trnuid, Change::NewTransfer(copy))
}

/// The entry of a transfer that has another row.
pub(crate) fn set_entry(
    number: u64,
    object: ObjectId,
    trnuid: &TrnUid,
    row: &TransferRow,
) -> Result<Entry, OutOfMemory>
    ensures { IfOk result (λ entry. entry ≡ entry_with number object trnuid.now (changes.SetTransfer row.now)) }
{
    let copy = row.copy()?;
    entry_of(number, object, trnuid, Change::SetTransfer(copy))
}

/// The entry of a new recurring transfer.
pub(crate) fn new_model_entry(
    number: u64,
    object: ObjectId,
    trnuid: &TrnUid,
    row: &ModelRow,
) -> Result<Entry, OutOfMemory>
    ensures { IfOk result (λ entry. entry ≡ entry_with number object trnuid.now (changes.NewModel row.now)) }
{
    let copy = row.copy()?;
    entry_of(number, object, trnuid, Change::NewModel(copy))
}

/// The entry of a recurring transfer that has another row.
pub(crate) fn set_model_entry(
    number: u64,
    object: ObjectId,
    trnuid: &TrnUid,
    row: &ModelRow,
    also: bool,
) -> Result<Entry, OutOfMemory>
    ensures { IfOk result (λ entry. entry ≡ entry_with number object trnuid.now (changes.SetModel row.now also)) }
{
    let copy = row.copy()?;
    entry_of(number, object, trnuid, Change::SetModel(copy, also))
}

/// The entry of what the bank does by itself.
pub(crate) fn own_entry(number: u64, object: ObjectId, change: Change) -> Result<Entry, OutOfMemory>
    ensures { IfOk result (λ entry. entry ≡ entry_with number object (codes "0") change) }
{
    let trnuid = own_uid()?;
    Ok(Entry {
        number,
        object,
        trnuid,
        change,
    })
}

/// The entry of a transfer to which the bank itself gives another row.
pub(crate) fn own_set_entry(
    number: u64,
    object: ObjectId,
    row: &TransferRow,
) -> Result<Entry, OutOfMemory>
    ensures { IfOk result (λ entry. entry ≡ entry_with number object (codes "0") (changes.SetTransfer row.now)) }
{
    let copy = row.copy()?;
    own_entry(number, object, Change::SetTransfer(copy))
}

/// The entry of a transfer that the bank itself makes.
pub(crate) fn own_new_entry(
    number: u64,
    object: ObjectId,
    row: &TransferRow,
) -> Result<Entry, OutOfMemory>
    ensures { IfOk result (λ entry. entry ≡ entry_with number object (codes "0") (changes.NewTransfer row.now)) }
{
    let copy = row.copy()?;
    own_entry(number, object, Change::NewTransfer(copy))
}
