//! The engine of a bank: an event's step is prepared, its record is appended, and only then the step is taken. What a failed
//! append left open is settled before the next event.
//!
//! `Engine` has the book and what is pending. It borrows the keeper of the records, the accounts that an event names, and who
//! publishes the bank's log. `SoloEngine` is one with all accounts of its bank. Whoever makes events happen does it by one of
//! these: the desk of a run, the journal of a bank that many callers share, and the server of a rehearsal.
#![tactic(auto)]

mod applying;
mod checkout;
mod due;
mod engine;
mod envelope;
pub mod laws;
mod log;
mod log_trace;
mod pending;
mod publisher;
mod ready;
mod solo;

pub use checkout::check_out;
pub use due::MAX_DUE_EVENTS;
pub use engine::Engine;
pub use envelope::{Bare, Envelope, Unsent};
pub use log::Log;
pub use publisher::Publisher;
pub use ready::Ready;
pub use solo::SoloEngine;
