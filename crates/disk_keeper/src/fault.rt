//! Why a disk could not be made or opened.

/// Why no keeper was made or opened over a disk. The disk is handed back.
#[derive(Drop)]
pub enum DiskFault<D> {
    /// A call of the disk failed.
    Failed(D),
    /// The first eight bytes aren't the mark of a file of records.
    BadMark(D),
    /// The record or gate of this number, counted from 1, is the first that passes the end.
    BadRecord(D, u64),
}
