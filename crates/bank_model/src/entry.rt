//! The entries of the bank's history.

use ofx_types::{Change, Duplicate, ObjectId, OutOfMemory, TrnUid};

/// One change that the bank made. Its history is the list of all entries.
#[derive(Debug, Drop)]
pub struct Entry {
    /// Its position in the history, from 1.
    pub number: u64,
    /// What it belongs to.
    pub object: ObjectId,
    /// The uid of the deed that it answers, `0` where the bank acted by itself.
    pub trnuid: TrnUid,
    /// What it says.
    pub change: Change,
}

impl Duplicate for Entry {
    fn copy(&self) -> Result<Entry, OutOfMemory> {
        Ok(Entry {
            number: self.number,
            object: self.object,
            trnuid: self.trnuid.copy()?,
            change: self.change.copy()?,
        })
    }
}
