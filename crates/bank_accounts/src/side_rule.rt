//! The rule of an account's table, and the steps that its seats make.

ghost use Rattle.bank_accounts.specs.AccountTable.{HaveOneAmount, both_sides, no_side, book_part, account_part, joined, Agreed, Given};

use atomic_table::{Join, Play, Seat, Shared, Split, Table, TableRule};
use std::alloc::Global;

/// What a seat at an account's table knows: the amount of each side that it has. No value of it is made.
pub struct Sides {
    pub book: Option<u64>,
    pub account: Option<u64>,
}

/// The word is the amount of both sides, and each side is with one seat at most. The key is the amount at the start.
pub struct OneAmount;

impl<S> TableRule<S, Sides, u64> for OneAmount {
    ghost holds = { λ _. HaveOneAmount };

    ghost first = { λ amount. both_sides amount amount };
}

pub type AccountTable = Table<(), Sides, u64, OneAmount, Global>;

pub type SharedTable = Shared<(), Sides, u64, OneAmount>;

pub type Side = Seat<(), Sides>;

/// A new seat gets the account's side, and the seat keeps the book's.
pub struct Part;

impl Split<Sides> for Part {
    ghost left = { book_part };

    ghost right = { account_part };
}

/// A new seat gets all that the seat has.
pub struct Hand;

impl Split<Sides> for Hand {
    ghost left = { λ _. no_side };

    ghost right = { λ v. v };
}

/// The book's seat gets the account's side.
pub struct Meet;

impl Join<Sides> for Meet {
    ghost both = { joined };

    ghost spent = { no_side };
}

/// A load by the seat that has both sides: both amounts are the word.
pub struct Compare;

impl<S> Play<S, Sides> for Compare {
    ghost then = { λ _. Agreed };
}

/// A store by the seat that has both sides: both amounts are what is stored.
pub struct Change;

impl<S> Play<S, Sides> for Change {
    ghost then = { λ _. Given };
}
