//! The parts that the bank's messages and messages of mail have in common, read from a tape and written on a sheet:
//! accounts, statuses, the uids of transactions, flags, and the names of transactions (OFX 1.6, "Common Aggregates,
//! Elements, and Data Types").
//!
//! What is read is the part that is there, or the first fault of its form with that fault's offset. What is written is
//! the part's one printed form.
#![tactic(auto)]

mod account;
mod flag;
pub mod laws;
mod status;
mod transaction;
mod trnuid;

pub use account::{print_account, print_destination, read_account, read_account_in};
pub use flag::print_flag;
pub use status::{print_status, read_status};
pub use transaction::{reply_name, request_name};
pub use trnuid::{print_trnuid, read_own_trnuid, read_trnuid};
