//! Accounts that are taken together for an event, in the order of their numbers, and given back together.
#![tactic(auto)]

mod holding;
mod merging;
mod turns;

pub use holding::has_all;
pub use merging::merged;
pub use turns::{Turns, give_all, take_all};
