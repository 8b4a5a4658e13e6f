//! What the callers of a bank know of it, and the replies to their polls.
//!
//! A caller has seen a prefix of the bank's log, owns some endings in it, and has loaded tokens. What a call of a bank does to that
//! is said by definitions that every bank and every connection share. A poll is answered by tokens that are handed in: whoever
//! has a bank loads them.
#![tactic(auto)]

pub mod laws;
mod polls;

pub use polls::{add_answer, poll_reply};
