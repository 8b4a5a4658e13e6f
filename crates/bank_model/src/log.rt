//! The log of a bank: what its callers were answered and what the keeper of its records refused, one item after another.

use crate::entry::Entry;
use crate::event::Event;
use ofx_types::{Moment, Sequence};

/// One item of a bank's log.
#[derive(Drop)]
pub enum LogItem {
    /// An entry that the event makes whose ending comes next.
    Effect(Entry),
    /// The event happened at that moment, and was answered by these bytes: none, unless it is a file.
    Answer(Event, Moment, Sequence<u8>),
    /// The append of the event's record had failed in the ending of this number, modulo 2^64. It turned out to have landed, so
    /// the event happened after all, at the moment that it had then. The fault was reported to its caller.
    Adopted(u64, Event, Moment),
    /// A call of the keeper failed and raised its count of faults to this number. It was the append of the record of this
    /// event at this moment, or, where there is none, the settling of an append that had failed before.
    Fault(u64, Option<(Event, Moment)>),
}

/// An item of a log that ends what a caller asked, lent in its parts.
#[derive(Clone, Copy)]
pub enum Ending<'a> {
    /// The event, its moment and the reply.
    Answer(&'a Event, Moment, &'a [u8]),
    /// The number of the ending in which the append failed, modulo 2^64, the event and its moment.
    Adopted(u64, &'a Event, Moment),
    /// The keeper's count of faults, and the event whose append failed, with its moment.
    Fault(u64, Option<(&'a Event, Moment)>),
}
