//! The sample's bank, its requests and replies, byte for byte, and changes of them. Tests of runs and of servers use them.
#![tactic(auto)]

pub mod changes;
pub mod keys;
pub mod sample;
pub mod transfer;
pub mod words;
