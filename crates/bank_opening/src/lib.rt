//! How a bank opens for a command: its setup, its records, and why a command stops.
//!
//! A setup is read from its source. A command that has none, or whose bank doesn't open from its records, stops, as do those whose
//! work stops, and of each end a status and a note are reported.
#![tactic(auto)]

pub mod laws;
mod records;
mod report;
mod setup_source;
mod stop;

pub use records::opening_stop;
pub use report::report_of_end;
pub use setup_source::read_setup;
pub use stop::{LetterFault, RecordsFault, Stop};
