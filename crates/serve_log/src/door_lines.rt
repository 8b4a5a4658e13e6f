//! The lines of what keeps links from coming in.

use crate::stamp::Stamp;
use std::fmt;

/// No link could be had.
#[derive(Clone, Copy)]
pub(crate) struct AcceptEntry {
    pub(crate) stamp: Stamp,
    /// The worker's number.
    pub(crate) worker: u32,
    /// Whether the worker goes on.
    pub(crate) goes_on: bool,
    /// The system's number of the error.
    pub(crate) error: i32,
    /// How many faults there were since the last link.
    pub(crate) failures: u64,
}

impl fmt::Display for AcceptEntry {
    fn fmt<W: fmt::Write>(&self, f: &mut fmt::Formatter<W>) -> fmt::Result {
        let (stamp, worker, error) = (self.stamp, self.worker, self.error);
        let outcome = if self.goes_on { "failed" } else { "ended" };
        write!(
            f,
            "at={stamp} level=warn worker={worker} accept={outcome} error={error}"
        )?;
        let failures = self.failures;
        write!(f, " failures={failures}")
    }
}

/// Fewer workers have begun than are wanted.
#[derive(Clone, Copy)]
pub(crate) struct RosterEntry {
    pub(crate) stamp: Stamp,
    /// How many have begun.
    pub(crate) begun: u64,
    /// How many are wanted.
    pub(crate) wanted: u32,
}

impl fmt::Display for RosterEntry {
    fn fmt<W: fmt::Write>(&self, f: &mut fmt::Formatter<W>) -> fmt::Result {
        let (stamp, begun, wanted) = (self.stamp, self.begun, self.wanted);
        write!(f, "at={stamp} level=warn workers={begun} wanted={wanted}")
    }
}
