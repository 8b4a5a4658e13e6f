//! How long the parts of a request may take.

use std::time::Duration;

/// How many seconds the head of a request may take, where nothing else is said.
pub const HEAD_SECONDS: u64 = 30;

/// How many seconds the body of a request may take, where nothing else is said.
pub const BODY_SECONDS: u64 = 60;

/// How long the parts of a request may take to come.
#[derive(Clone, Copy)]
pub struct LinkLimits {
    /// The time from the first byte of a head to its last one.
    pub(crate) head: Duration,
    /// The time from the last byte of a head to the last one of its body.
    pub(crate) body: Duration,
}

impl LinkLimits {
    /// Limits of so many seconds for a head and for a body, of which none is 0.
    pub fn of_seconds(head: u64, body: u64) -> LinkLimits {
        LinkLimits {
            head: Duration::from_secs(head),
            body: Duration::from_secs(body),
        }
    }
}
