//! How a run of a program ended, with the numbers that are reported.

use crate::number::Status;

/// A status, and the numbers after it.
#[derive(Clone, Copy, Debug, PartialEq, Eq)]
pub struct Told {
    /// The status with which the program ends.
    pub status: Status,
    /// What the line on the error stream says beside it.
    pub note: Note,
}

/// The numbers that the line on the error stream gives.
#[derive(Clone, Copy, Debug, PartialEq, Eq)]
pub enum Note {
    /// None.
    Plain,
    /// An offset, or the number of a line.
    Place(u64),
    /// The record of this number, from 1, has no form at this offset.
    Record(u64, u64),
    /// The record of this number, from 1, isn't legal after those before it.
    Illegal(u64),
    /// No user has the name that was given.
    NoUser,
    /// The bank has no number left for an entry.
    Full,
    /// The reply of this number, from 1, doesn't answer what was asked.
    Shape(u64),
}
