//! A register of downloaded statements: the lines of reply files, gathered by account and FITID, each once, in one order.
//!
//! `Register` takes reply files and answers their lines and the sum of each account. What it keeps doesn't depend on the order in
//! which files come, nor on how often. A line that differs from an earlier one of its account and FITID is refused with its
//! file. The register is saved as a text, and read from it.
#![tactic(auto)]

mod gathering;
mod import;
pub mod laws;
mod line;
mod placing;
mod ranked;
mod register;
mod saving;
mod summing;

pub use import::{ImportFault, Imported};
pub use line::Line;
pub use register::{MAX_LINES, Register};
pub use saving::RegisterFault;
