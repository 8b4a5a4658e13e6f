//! Transfers: their rows and postings, and what is refused of a deed on them.
//!
//! `judge_transfer`, `judge_modify` and `judge_cancel` give the code of a deed. `Transfers` holds the row of each
//! transfer and the posted transfers, and tells which transfers wait; its contracts say what it answers by the list of
//! entries that it stands for.
#![tactic(auto)]

mod judging;
mod key;
pub mod laws;
mod order;
mod posted;
mod postings;
mod rows;
mod skip_link;
mod transfers;
mod waiting;

pub use judging::{judge_cancel, judge_modify, judge_transfer};
pub use transfers::Transfers;
