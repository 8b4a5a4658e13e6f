//! What a bank has written down, and the draft of what an event adds to it.
//!
//! A `Draft` lends the setup and the ledger of a bank and the accounts that are held, and is one value: the state that
//! it makes is sound. What an event adds is taken out of it as `Additions`, which the ledger takes in later.
#![tactic(auto)]

mod additions;
mod draft;
mod ledger;
mod row_change;

pub use additions::Additions;
pub use draft::{Draft, own_uid};
pub use ledger::Ledger;
pub use row_change::RowChange;
