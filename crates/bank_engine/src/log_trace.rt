//! The items that came to a log, for contracts alone.

use bank_model::{Entry, Event};
use ofx_types::Moment;
use std::snapshot::Snapshot;

/// The items of a log, one after another. It has no bytes of theirs.
#[derive(Drop)]
pub(crate) enum LogTrace {
    /// None came.
    Start,
    /// An effect more.
    Effect(Snapshot<LogTrace>, Snapshot<Entry>),
    /// An answer more: its event, its moment and its reply.
    Answer(Snapshot<LogTrace>, Snapshot<Event>, Snapshot<Moment>, Snapshot<Vec<u8>>),
    /// An adopted event more: the number of its fault, the event and its moment.
    Adopted(Snapshot<LogTrace>, Snapshot<u64>, Snapshot<Event>, Snapshot<Moment>),
    /// A failed append more: the keeper's count, the event and its moment.
    Failed(Snapshot<LogTrace>, Snapshot<u64>, Snapshot<Event>, Snapshot<Moment>),
    /// A failed settling more: the keeper's count.
    Unsettled(Snapshot<LogTrace>, Snapshot<u64>),
}
