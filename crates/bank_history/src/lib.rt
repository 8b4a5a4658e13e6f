//! The history of a bank: of each object the last entries, as many as clients may ask for, with the number of its last one,
//! and what its whole history made.
//!
//! There is no list of all entries: contracts alone speak of it. What is asked of an object is answered from what is held of
//! that object and from the entries that came since they last went to their objects, all of which are gone through.
#![tactic(auto)]

mod among;
mod entry_trace;
mod history;
mod laid;
mod laying;
mod made;
mod object_history;
mod objects;
mod origins;

pub use among::{count_of, last_number, number_at};
pub use history::History;
pub use made::{Made, put_made};
