//! The lines that a client prints of replies and of what it keeps.
//!
//! Each line is a text without its LF. `specs/Lines.antt` says what each has.
#![tactic(auto)]

mod lines;
mod words;

pub use lines::{balance_line, done_line, newest_line, number_text, store_line};
