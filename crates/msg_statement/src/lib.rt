//! Statements: what asks for one, and the replies, read from a tape and written on a sheet (OFX 1.6, "Statement Download").
//!
//! What is read is the message that is there, or the first fault of its form with that fault's offset. What is
//! written is the message's one printed form.
#![tactic(auto)]

pub mod laws;
mod list;
mod reply;
mod request;

pub use reply::{print_statement_reply, read_statement_reply};
pub use request::{print_statement, read_statement};
