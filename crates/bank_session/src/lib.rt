//! Whole runs of the bank's server: frames of request files in, replies out; the work that is due; and letters to users.
//!
//! A run takes its command and reads its setup, then answers each frame of its input in turn, does once what is due, or writes a
//! letter. The clauses of `session_told` say what it wrote, for which frames and at which moments, why it ended, and what is
//! reported of that. Those of `answer_told` say the same in terms of the arguments.
#![tactic(auto)]

mod addressee;
mod answer;
mod body;
mod due;
pub mod laws;
mod letters;
mod lines;
mod mail;
mod moments;
mod opening;
mod ports;
mod run;
mod turn;
mod undone;

pub use answer::{answer_files, answer_told, session_told};
pub use ports::Ports;
