//! What makes a deed run once and a file be answered once: used uids, and kept replies.

use ofx_types::{Duplicate, FileUid, OutOfMemory, Sequence, TrnUid, UserId};

/// A uid that a user has used up (TRNUID).
#[derive(Debug, Drop)]
pub struct UsedPair {
    /// The user.
    pub user: UserId,
    /// The uid.
    pub trnuid: TrnUid,
}

/// The reply to a file that may come again (NEWFILEUID; OFX 1.6, "File-Based Error Recovery").
#[derive(Debug, Drop)]
pub struct KeptReply {
    /// The user who sent the file.
    pub user: UserId,
    /// The file's name.
    pub file: FileUid,
    /// The bytes of the reply.
    pub reply: Sequence<u8>,
}

impl Duplicate for UsedPair {
    fn copy(&self) -> Result<UsedPair, OutOfMemory> {
        Ok(UsedPair {
            user: self.user,
            trnuid: self.trnuid.copy()?,
        })
    }
}
