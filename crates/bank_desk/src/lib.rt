//! A bank on one thread over its keeper: it answers the bytes of files, does what is due, and lets any legal event happen. An
//! event's record is kept before anything of it shows. How files come and where replies go is nothing to this crate.
#![tactic(auto)]

mod desk;
mod fault;

pub use bank_engine::{Envelope, Unsent};
pub use desk::{Answered, Desk};
pub use fault::DeskFault;
