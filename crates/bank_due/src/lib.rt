//! Due work of a bank that many callers share: one event after another, until nothing is due.
//!
//! `due_run` does it over a bank, and says which events happened and why the run ended, as far as its caller has seen the log. Its
//! rule is stated once, over whoever makes what is due first happen (`Advancer`).
#![tactic(auto)]

mod advancer;
mod caller;
mod due;
mod fault;

pub use advancer::Advancer;
pub use due::{due_run, run_due};
pub use fault::DueFault;
