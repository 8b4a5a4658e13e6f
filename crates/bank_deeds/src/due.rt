//! What the bank does while nobody asks: what each adds to a draft.

ghost use Rattle.std.specs.Prelude.{◌≡◌, ℕ, Some, true, is_some, IfOk, OnOk};
ghost use Rattle.std.specs.Option.{option_map, IfSome};
ghost use Rattle.ofx_types.specs.Calendar.{IsDay};
ghost use Rattle.ofx_types.specs.declared.transfer.TransferRow.{TransferRow};
ghost use Rattle.bank_model.specs.SetupLookups.{account_of};
ghost use Rattle.bank_model.specs.Ledger as ledgers;
ghost use Rattle.bank_model.specs.Ledger.{row_of};
ghost use Rattle.bank_model.specs.Models.{model_of};
ghost use Rattle.bank_model.specs.Due as rules;
ghost use Rattle.bank_model.specs.Due.{may_post, posts, may_spawn, spawns, occurrence_date};
ghost use Rattle.bank_model.specs.Rules.{named_by_row};
ghost use Rattle.bank_accounts.specs.HeldAccounts.{AreHeld, IsHeld};
ghost use Rattle.bank_deeds.specs.Made.{made_row};
ghost use Rattle.bank_ledger.specs.DraftView.{drafted, HasAdded};

use crate::entries::{own_new_entry, own_set_entry};
use crate::rows::{processed_row, spawned_row};
use bank_ledger::{Draft, RowChange};
use bank_recur::date_of;
use ofx_types::{Cents, ModelRow, OutOfMemory, TransferRow};

/// Posts a transfer that waits and is due, or closes it where there is no cover.
pub fn post(draft: &mut Draft<'_>, id: u64) -> Result<(), OutOfMemory>
    requires may { may_post draft.old.setup (drafted draft.old)
        (row_of id (drafted draft.old).entries) ≡ true }
    requires named { AreHeld draft.old.held
        (named_by_row draft.old.setup (row_of id (drafted draft.old).entries)) }
    ensures { OnOk result (HasAdded draft.old draft.new (posts draft.old.setup
        (drafted draft.old) draft.old.at (row_of id (drafted draft.old).entries))) }
{
    let number = draft.count() + 1;
    let row = processed(draft, id)?;
    let object = draft.object_of(&row.from);
    let entry = own_set_entry(number, object, &row)?;
    draft.enter_processed(entry, row)?;
    Ok(())
}

/// Makes the transfer of a recurring transfer that has this occurrence number in its series.
pub fn spawn(draft: &mut Draft<'_>, id: u64, occurrence: u32) -> Result<(), OutOfMemory>
    requires may { may_spawn draft.old.setup (drafted draft.old) id occurrence ≡ true }
    ensures { OnOk result (HasAdded draft.old draft.new (spawns draft.old.setup
        (drafted draft.old) id occurrence)) }
{
    let number = draft.count() + 1;
    let row = spawned(draft, number, id, occurrence)?;
    let object = draft.object_of(&row.from);
    let entry = own_new_entry(number, object, &row)?;
    draft.enter(entry, RowChange::Made(row))?;
    Ok(())
}

/// The row of the transfer with this id, posted or closed.
fn processed(draft: &Draft<'_>, id: u64) -> Result<TransferRow, OutOfMemory>
    requires there { is_some (row_of id (drafted draft.now).entries) ≡ true }
    requires own { IfSome (row_of id (drafted draft.now).entries)
        (λ row. is_some (account_of draft.now.setup row.from) ≡ true) }
    requires held { IfSome (row_of id (drafted draft.now).entries)
        (λ row. IfSome (account_of draft.now.setup row.from) (IsHeld draft.now.held)) }
    ensures { IfOk result (λ processed. option_map (λ (row : TransferRow).
        rules.processed_row (rules.has_cover draft.now.setup (drafted draft.now) row) draft.now.at row)
        (row_of id (drafted draft.now).entries) ≡ Some processed) }
{
    match draft.row(id) {
        Some(row) => {
            let covered = covers(draft, row);
            processed_row(covered, draft.at(), row)
        }
        None => unreachable!(),
    }
}

/// Whether the balance of its source covers a transfer.
fn covers(draft: &Draft<'_>, row: &TransferRow) -> bool
    requires own { is_some (account_of draft.now.setup row.now.from) ≡ true }
    requires held { IfSome (account_of draft.now.setup row.now.from) (IsHeld draft.now.held) }
    ensures { result ≡ rules.has_cover draft.now.setup (drafted draft.now) row.now }
{
    let from = draft.account_named(&row.from);
    is_covered(row.amount, draft.held_balance(from))
}

/// The row of the transfer that a recurring transfer makes at an occurrence.
fn spawned(
    draft: &Draft<'_>,
    number: u64,
    id: u64,
    occurrence: u32,
) -> Result<TransferRow, OutOfMemory>
    requires there { is_some (occurrence_date (model_of id (drafted draft.now).entries) occurrence) ≡ true }
    requires first { IfSome (model_of id (drafted draft.now).entries) (λ row. IsDay row.first.0) }
    requires day { IfSome (occurrence_date (model_of id (drafted draft.now).entries) occurrence) (λ day. IsDay day.0) }
    ensures { IfOk result (λ spawned. made_row number (model_of id (drafted draft.now).entries)
        (occurrence_date (model_of id (drafted draft.now).entries) occurrence) ≡ Some spawned) }
{
    match draft.model(id) {
        Some(row) => next_row(number, row, occurrence),
        None => unreachable!(),
    }
}

fn is_covered(amount: Cents, balance: Cents) -> bool
    ensures { result ≡ ledgers.is_covered amount.0 balance.0 }
{
    amount.0 <= balance.0
}

/// The row of the transfer with this id that a recurring transfer makes at an occurrence.
fn next_row(id: u64, model: &ModelRow, occurrence: u32) -> Result<TransferRow, OutOfMemory>
    requires first { IsDay model.now.first.0 }
    requires there { is_some (occurrence_date (Some model.now) occurrence) ≡ true }
    requires day { IfSome (occurrence_date (Some model.now) occurrence) (λ day. IsDay day.0) }
    ensures { IfOk result (λ made. made_row id (Some model.now) (occurrence_date (Some model.now) occurrence) ≡ Some made) }
{
    match date_of(model.first, model.recur.freq, occurrence) {
        Some(date) => spawned_row(id, date, model),
        None => unreachable!(),
    }
}
