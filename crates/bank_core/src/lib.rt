//! The book of the bank: what an event is answered, and the step to the next state.
//!
//! A `Book` answers an event from the accounts that are held meanwhile, and takes the step once the answer is
//! kept. Until then nothing has changed.
#![tactic(auto)]

mod ask;
mod book;
mod failed_signon;
mod opening;
mod prepared;
mod reply_bound;
mod sync;

pub use book::Book;
pub use failed_signon::denial;
pub use prepared::Prepared;
