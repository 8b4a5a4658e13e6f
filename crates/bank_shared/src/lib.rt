//! A bank that many callers share: the row of its accounts, its journal behind a lock, and the board of its newest tokens.
//!
//! `Bank::submit` and `Bank::advance` take the accounts that an event names from the row, each as soon as it is home, and only then
//! wait for the `Journal`. So events that have no account in common wait for each other at the journal alone. The journal has the
//! book and the keeper of the records, and its contracts the log of all that its callers were answered. It commits an event with
//! its record, and settles an append that failed before the next event is looked at. `Bank::poll` loads tokens from the board and
//! waits for nobody.
#![tactic(auto)]

mod advance;
mod bank;
mod due_work;
mod hold;
mod journal;
mod name;
mod opened;
mod outcome;
mod publishing;
mod submitting;

pub use advance::Advance;
pub use bank::Bank;
pub use bank_model::SubmitFault;
pub use journal::Journal;
pub use name::BankName;
pub use opened::Opened;
pub use token_board::Pass;
