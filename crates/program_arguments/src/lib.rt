//! The arguments of a program's command line: the words as texts, and the numbers among them.
#![tactic(auto)]

mod number;
mod text;
mod words;

pub use number::number_within;
pub use text::{is_word, named, text_at};
pub use words::{Unread, read_words};
