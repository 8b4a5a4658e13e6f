//! Runs of the customer's command `import`: the register that is kept takes in the reply files of an input, frame by frame, is
//! saved, and its accounts are printed.
//!
//! The clauses of `register_told` say what a run read, printed and saved, and why it ended.
#![tactic(auto)]

mod answering;
mod frames;
mod head;
mod importing;
mod keeping;
mod lines;
mod reading;
mod run;
mod status;
mod stop;
mod tallies;

pub use run::{register_run, register_told};
pub use stop::Stop;
pub use tallies::Tally;
