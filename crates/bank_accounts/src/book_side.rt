//! The book's side of an account, which the journal keeps while the account is with whoever has its turn.

ghost use Rattle.std.specs.Prelude.{◌≡◌, pos, ◌≤ℤ◌};
ghost use Rattle.bank_accounts.specs.AccountTable.{HasBookSide, amount_in};
ghost use Rattle.bank_accounts.specs.AccountView.{cents};

use crate::account::Account;
use crate::side_rule::Side;
use crate::side_steps::{change, compare};
use ofx_types::Cents;
use std::marker::Model;

/// The balance that the book has for an account. It has no bytes: the account has the number.
pub struct BookSide {
    side: Side,
}

impl Model for BookSide {
    ghost use Rattle.bank_accounts.specs.AccountTable.{HasBookSide, amount_in};
    ghost use Rattle.bank_accounts.specs.AccountView.{BookSideView, cents};

    ghost Value = { BookSideView };

    ghost view = { λ b. record { balance = cents (amount_in b.side.me.0.book); table = b.side.table_id } };

    ghost invariant = { λ b. HasBookSide b.side.me };
}

impl Drop for BookSide {
    fn drop(self) {
        let BookSide { side: _ } = self;
    }
}

impl BookSide {
    pub(crate) fn of(side: Side) -> BookSide
        requires { HasBookSide side.me }
        ensures { result ≡ record { balance = cents (amount_in side.me.0.book); table = side.table_id } }
    {
        BookSide { side }
    }

    /// Shows that the book and the account have one balance. Takes no memory.
    ///
    /// Both are sides of one account.
    pub fn meet(&mut self, account: &mut Account)
        requires { self.old.table ≡ account.old.table }
        ensures one_balance { self.old.balance ≡ account.old.balance }
        ensures book { self.new ≡ self.old }
        ensures account { account.new ≡ account.old }
    {
        let table = &account.table;
        compare(&table.shared, &mut self.side, &mut account.side);
    }

    /// Gives both sides another balance, 0 or more. Takes no memory.
    ///
    /// Both are sides of one account.
    pub fn set(&mut self, account: &mut Account, amount: Cents)
        requires sides { self.old.table ≡ account.old.table }
        requires not_negative { pos 0 ≤ℤ amount.0 }
        ensures book { self.new ≡ record { balance = amount; table = self.old.table } }
        ensures account { account.new ≡ record { number = account.old.number; balance = amount; table = account.old.table } }
    {
        let word = amount.0 as u64;
        let table = &account.table;
        change(&table.shared, &mut self.side, &mut account.side, word);
        account.amount = amount;
    }
}
