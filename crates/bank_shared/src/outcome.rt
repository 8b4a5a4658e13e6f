//! What comes of one hold of the journal.

use bank_model::Event;
use ofx_types::AcctId;

/// What comes of a hold for a file.
#[derive(Drop)]
pub enum Submitted {
    /// The file's event has happened, and this is its reply.
    Answered(Vec<u8>),
    /// The pending event names these accounts, and they aren't all held. Nothing has happened.
    Lacks(Vec<AcctId>),
}

/// What comes of a hold that looks for due work.
#[derive(Drop)]
pub enum Looked {
    /// Nothing is due.
    Nothing,
    /// This event is due, and names these accounts.
    Due(Event, Vec<AcctId>),
    /// The pending event names these accounts, and they aren't all held. Nothing has happened.
    Lacks(Vec<AcctId>),
}

/// What comes of a hold for an event that was due.
#[derive(Drop)]
pub enum Tried {
    /// It has happened.
    Done,
    /// It may no longer happen.
    Gone,
    /// It may happen, but names other accounts than those that are held.
    Moved,
    /// The pending event names these accounts, and they aren't all held. Nothing has happened.
    Lacks(Vec<AcctId>),
}
