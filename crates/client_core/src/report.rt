//! What is reported of a reply.

use ofx_types::{Sequence, Text};

/// Lines in order, each without its LF.
pub type ReportLines = Sequence<Text>;

/// What is to be printed of a reply that was accepted.
#[derive(Drop)]
pub struct Report {
    /// The lines.
    pub lines: ReportLines,
}
