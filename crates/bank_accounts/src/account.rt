//! An account with its running balance, and the table that ties the balance to the book's side of it.

ghost use Rattle.std.specs.Prelude.{◌≡◌, pos, ◌≤ℤ◌, IfOk};

use crate::book_side::BookSide;
use crate::side_rule::{AccountTable, Part, Side};
use ofx_types::{AcctId, Cents, OutOfMemory};
use std::alloc::Global;
use std::marker::Model;

/// An account of a bank: its number, its balance in cents, and the table where it has the account's side.
pub struct Account {
    number: AcctId,
    pub(crate) amount: Cents,
    pub(crate) table: AccountTable,
    pub(crate) side: Side,
}

impl Model for Account {
    ghost use Rattle.bank_accounts.specs.AccountView.{AccountView, IsAccountSide};

    ghost Value = { AccountView };

    ghost view = { λ a. record { number = a.number; balance = a.amount; table = a.table.shared.table_id } };

    ghost invariant = { λ a. IsAccountSide a.table.shared.table_id a.side.table_id a.side.me a.amount };
}

impl Drop for Account {
    fn drop(self) {
        let Account {
            number: _,
            amount: _,
            table: _,
            side: _,
        } = self;
    }
}

impl Account {
    /// The account of that number with that balance, 0 or more, and the book's side of it.
    pub fn new(
        alloc: Global,
        number: AcctId,
        amount: Cents,
    ) -> Result<(Account, BookSide), OutOfMemory>
        requires { pos 0 ≤ℤ amount.0 }
        ensures account { IfOk result (λ sides. (sides.0.number ≡ number) × (sides.0.balance ≡ amount)) }
        ensures book { IfOk result (λ sides. sides.1 ≡ record { balance = amount; table = sides.0.table }) }
    {
        let word = amount.0 as u64;
        let (table, mut book) = AccountTable::of_words(alloc, &[word], &word)?;
        let side = table.shared.split_seat::<Part>(&mut book);
        let account = Account {
            number,
            amount,
            table,
            side,
        };
        Ok((account, BookSide::of(book)))
    }

    /// The number of the account, by which the setup knows it.
    pub fn number(&self) -> AcctId
        ensures { result ≡ self.now.number }
    {
        self.number
    }

    /// The balance in cents.
    pub fn balance(&self) -> Cents
        ensures { result ≡ self.now.balance }
    {
        self.amount
    }
}
