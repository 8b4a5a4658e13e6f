//! What a client knows, and why a saved text isn't one of a client.

ghost use Rattle.std.specs.Prelude.{◌≡◌};
ghost use Rattle.client_saved.specs.declared.state.StoreFault.TheVariants as faults;

use client_store::Store;
use ofx_types::{FileUid, Moment, OutOfMemory, RequestFile, Sequence, Text};
use thiserror::Error;

/// A file that was made and is not yet answered, and the moment at which it was made.
#[derive(Drop)]
pub struct Outstanding {
    /// The moment at which the file was made, of the years 1900 to 9999.
    pub at: Moment,
    /// The file. Its user is the client's, and its password is empty.
    pub file: RequestFile,
}

/// What is kept of objects, in the order in which the stores were made. Their objects are distinct.
pub type Stores = Sequence<Store>;

/// What a client knows.
#[derive(Drop)]
pub struct ClientState {
    /// The client's name: 1 to 12 letters and digits of ASCII.
    pub name: Text,
    /// The user for whom it acts (USERID), 1 to 32 bytes.
    pub user: Text,
    /// The number of its next file, at most 9,999,999,999.
    pub next: u64,
    /// The last file whose reply was accepted.
    pub done: Option<FileUid>,
    /// The file that was made and is not yet answered.
    pub outstanding: Option<Outstanding>,
    /// What it keeps of objects.
    pub stores: Stores,
}

/// Why a saved text isn't one of a client, or why it couldn't be read.
#[derive(Clone, Copy, Debug, PartialEq, Eq, Error)]
pub enum StoreFault {
    /// The first field without a form begins at this byte, counted from 0.
    #[error("the saved text has no form at byte {0}")]
    Bad(u64),
    /// Memory was refused.
    #[error("out of memory")]
    OutOfMemory,
}

impl From<OutOfMemory> for StoreFault {
    ghost from_gives = { λ _ e. e ≡ faults.OutOfMemory };

    fn from(_refused: OutOfMemory) -> StoreFault {
        StoreFault::OutOfMemory
    }
}
