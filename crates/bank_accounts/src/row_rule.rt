//! The rule of the row of turns, and the steps that take and give an account.

ghost use Rattle.std.specs.Prelude.{◌≡◌};
ghost use Rattle.bank_accounts.specs.Row.{AreHomeOrOut, HasTaken};
ghost use Rattle.bank_accounts.specs.Sides.{tables_of};

use crate::account::Account;
use atomic_table::{Play, Seat, Shared, Table, TableRule};
use std::alloc::Global;
use std::snapshot::Snapshot;

/// The accounts with which a row is made, for contracts alone.
pub type MadeWith = Snapshot<Vec<Account>>;

/// Each word is 0 where the account of its number is home, and 1 otherwise. The key is what the row is made with.
pub struct HomeOrOut;

impl TableRule<Option<Account>, MadeWith, MadeWith> for HomeOrOut {
    ghost holds = { λ made. AreHomeOrOut (tables_of made.value.items) };

    ghost first = { λ made. made };
}

pub type RowTable = Table<Option<Account>, MadeWith, MadeWith, HomeOrOut, Global>;

pub type SharedRow = Shared<Option<Account>, MadeWith, MadeWith, HomeOrOut>;

pub type RowSeat = Seat<Option<Account>, MadeWith>;

/// A swap that takes the slot of its word where it finds 0.
pub struct Take;

impl Play<Option<Account>, MadeWith> for Take {
    ghost then = { λ step before found after. found ≡ 0 → HasTaken (tables_of before.0.value.items) step.word after };
}

/// A store that gives the slot back.
pub struct Give;

impl Play<Option<Account>, MadeWith> for Give {
    ghost then = { λ _ _ _ _. Unit {0} };
}
