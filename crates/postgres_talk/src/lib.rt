//! The talk with a server of PostgreSQL: what its messages tell of a sign-on, and of statements that were sent.
//!
//! Nothing here reads or writes: a caller hands in each message, and does what the answer says. A connection on which anything
//! comes that wasn't asked for is given up, and what came of its statements isn't known then.
#![tactic(auto)]

pub mod laws;
mod sign_on;
mod standing;

pub use sign_on::{Saying, SignOn, Stage};
pub use standing::{Outcome, SqlState, Standing};
