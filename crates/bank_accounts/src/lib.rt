//! Accounts of a bank: each account's table ties its balance to the book's side of it. Some accounts are held while an event is
//! answered, and come to other balances; the others wait in a pool, for one caller, or in a row that lends each account to one
//! thread at a time.
#![tactic(auto)]

mod account;
mod balances;
mod book_side;
mod book_sides;
mod held;
mod pool;
mod row;
mod row_rule;
mod row_steps;
mod side_rule;
mod side_steps;

pub use account::Account;
pub use balances::{Balance, Balances};
pub use book_side::BookSide;
pub use book_sides::BookSides;
pub use held::{Held, HeldFault};
pub use pool::AccountPool;
pub use row::{AccountRow, Turn};
