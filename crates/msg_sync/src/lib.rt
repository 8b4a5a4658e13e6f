//! Synchronisation: what a client asks for of an object's history, and what it is sent, read from a tape and written on a sheet
//! (OFX 1.6, "Data Synchronization").
//!
//! The calls for a transaction of any kind, which a file may have alone or inside a synchronisation, are here too. What is read
//! is the message that is there, or the first fault of its form with that fault's offset. What is written is the message's one
//! printed form.
#![tactic(auto)]

pub mod laws;
mod listing;
mod object;
mod reply;
mod request;
mod transaction;

pub use listing::put_form;
pub use reply::{print_sync_reply, read_sync_reply};
pub use request::{print_sync, read_sync};
pub use transaction::{
    print_transaction, print_transaction_reply, read_transaction, read_transaction_reply,
};
