//! The engine as one log that keepers append to, and the laws of what keepers learn of it.
//!
//! A keeper takes the log with a new epoch, and appends to it under that epoch. A call that was sent is done once at some later
//! moment, or never, and its answer may be lost. A keeper whose append had no answer settles it: it takes a new epoch, after
//! which that append can't land any more, and looks whether it has landed. That the engine does each request at once or not at
//! all is the premise.
#![tactic(auto)]

mod engine;
pub mod laws;
mod rows;

pub use engine::{Appended, EngineFault, MemEngine};
