//! Files as bytes: request files and reply files are read, and written in their one printed form.
//!
//! `read_request` and `read_reply` answer the file that the bytes spell, or the offset of their one fault. `write_request` and
//! `write_reply` write a file. `OfxPrinter`, which the bank is given, writes replies.
#![tactic(auto)]

pub mod laws;
mod messages;
mod reply;
mod request;
mod tags;

pub use reply::{OfxPrinter, read_reply, write_reply};
pub use request::{read_request, write_request};
