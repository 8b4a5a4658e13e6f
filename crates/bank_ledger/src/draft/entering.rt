//! One entry more in a draft, and the money that it moves.

ghost use Rattle.std.specs.Prelude.{◌≡◌, ◌+◌, ◌≤◌, ◌∷◌, [], true, length, OnOk, pos, ◌≤ℤ◌, ◌-ℤ◌, ◌+ℤ◌};
ghost use Rattle.bank_model.specs.Ledger as rules;
ghost use Rattle.bank_model.specs.Ledger.{row_in, posting_of};
ghost use Rattle.bank_invariants.specs.Next.{IsNext};
ghost use Rattle.bank_ledger.specs.declared.row_change.RowChange.TheVariants.{Row};
ghost use Rattle.bank_ledger.specs.Changes.{GivesRows};
ghost use Rattle.bank_ledger.specs.DraftView.{drafted, HasAdded, HasBothHeld};

use crate::additions::is_posted;
use crate::draft::Draft;
use crate::row_change::RowChange;
use bank_accounts::Balance;
use bank_model::Entry;
use ofx_types::{Cents, OutOfMemory, TransferRow};

impl Draft<'_> {
    /// Adds an entry that posts nothing, with what it gives.
    pub fn enter(&mut self, entry: Entry, row_change: RowChange) -> Result<(), OutOfMemory>
        requires few { length (drafted self.old).entries + 1 ≤ self.old.setup.entries }
        requires next { IsNext self.old.setup (drafted self.old) entry }
        requires gives { GivesRows (drafted self.old).entries entry.change row_change }
        requires nothing { posting_of entry.number (row_in entry.change) ≡ [] }
        ensures { OnOk result (HasAdded self.old self.new (entry ∷ [])) }
    {
        self.added.add(entry, row_change)?;
        Ok(())
    }

    /// Adds an entry with the row that it gives to a transfer, and moves the money of a row that is posted.
    pub fn enter_processed(&mut self, entry: Entry, row: TransferRow) -> Result<(), OutOfMemory>
        requires few { length (drafted self.old).entries + 1 ≤ self.old.setup.entries }
        requires next { IsNext self.old.setup (drafted self.old) entry }
        requires gives { GivesRows (drafted self.old).entries entry.change (Row row) }
        requires held { rules.is_posted row.code ≡ true → HasBothHeld self.old.setup self.old.held row }
        ensures { OnOk result (HasAdded self.old self.new (entry ∷ [])) }
    {
        if is_posted(row.code) {
            return self.enter_posted(entry, row);
        }
        self.enter(entry, RowChange::Row(row))
    }

    /// Adds an entry that posts a transfer, and moves its money.
    fn enter_posted(&mut self, entry: Entry, row: TransferRow) -> Result<(), OutOfMemory>
        requires few { length (drafted self.old).entries + 1 ≤ self.old.setup.entries }
        requires next { IsNext self.old.setup (drafted self.old) entry }
        requires gives { GivesRows (drafted self.old).entries entry.change (Row row) }
        requires posted { rules.is_posted row.code ≡ true }
        requires held { HasBothHeld self.old.setup self.old.held row }
        ensures { OnOk result (HasAdded self.old self.new (entry ∷ [])) }
    {
        let from = self.account_named(&row.from);
        let to = self.account_named(&row.to);
        let less = less_by(self.held_balance(from), row.amount);
        let more = more_by(self.held_balance(to), row.amount);
        let source = Balance {
            account: from,
            amount: less,
        };
        let destination = Balance {
            account: to,
            amount: more,
        };
        self.added.add_posted(entry, row, source, destination)?;
        Ok(())
    }
}

fn less_by(balance: Cents, amount: Cents) -> Cents
    requires amount { pos 0 ≤ℤ amount.0 }
    requires covered { amount.0 ≤ℤ balance.0 }
    ensures { result.0 ≡ balance.0 -ℤ amount.0 }
{
    Cents(balance.0 - amount.0)
}

fn more_by(balance: Cents, amount: Cents) -> Cents
    requires balance { pos 0 ≤ℤ balance.0 }
    requires amount { pos 0 ≤ℤ amount.0 }
    requires most { (balance.0 +ℤ amount.0) ≤ℤ pos 9999999999999 }
    ensures { result.0 ≡ balance.0 +ℤ amount.0 }
{
    Cents(balance.0 + amount.0)
}
