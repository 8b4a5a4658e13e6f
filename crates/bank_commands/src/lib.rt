//! What the bank's program does for its commands, and how that ends: rehearsals here, and all runs over a bank in
//! `bank_session`.
#![tactic(auto)]

mod dispatch;
mod lines;

pub use dispatch::{bank_told, command_told};
