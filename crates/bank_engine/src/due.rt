//! The limit of a run of due work.

/// The most events of a run of due work, whoever makes them happen: the desk of a run, or a caller of a bank that many share.
pub const MAX_DUE_EVENTS: u64 = 100_000;
