//! What came of looking for due work.

use bank_model::Event;

/// What came of looking for due work once.
#[derive(Drop)]
pub enum Advance {
    /// This event was due, and has happened in this call.
    Done(Event),
    /// This event was due, and may no longer happen: another one came between.
    Gone(Event),
    /// Nothing was due.
    Nothing,
}
