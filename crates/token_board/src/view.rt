//! What a seat at the board knows, for contracts alone.

use bank_model::LogItem;
use ofx_types::ObjectId;
use std::collections::LinkedList;

/// A load of a token: of what, and what was found. No value of it is made.
pub struct Load {
    /// The object whose newest token was loaded.
    pub object: ObjectId,
    /// What its word held.
    pub token: u64,
}

/// What a writer, a pass or a note knows. They differ in what they use of it. No value of it is made.
pub struct View {
    /// Whether it may publish.
    pub writes: bool,
    /// How much of the log it has seen.
    pub seen: LinkedList<LogItem>,
    /// What another one has seen, which it has heard.
    pub heard: LinkedList<LogItem>,
    /// The endings that it owns, or claims for whoever asked.
    pub owned: LinkedList<u64>,
    /// The tokens that it has loaded, or that the one which it heard has.
    pub tokens: LinkedList<Load>,
}
