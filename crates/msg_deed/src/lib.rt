//! Deeds, which are transfers and recurring transfers, and the answers to them, read from a tape and written on a sheet
//! (OFX 1.6, "Intrabank Funds Transfer", "Recurring Transactions").
//!
//! What is read is the message that is there, or the first fault of its form with that fault's offset. What is
//! written is the message's one printed form.
#![tactic(auto)]

pub mod laws;
mod recurring;
mod reply;
mod request;
mod transfer;

pub use reply::{print_reply, read_reply};
pub use request::{print_deed, read_deed};
