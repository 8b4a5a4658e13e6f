//! The ways in which a call of the outside fails.

ghost use Rattle.std.specs.Prelude.{◌≡◌};

use std::alloc::{AllocError, AllocFailed};
use thiserror::Error;

/// A call of the outside failed. The count of faults of what was called rose in that call.
#[derive(Clone, Copy, Debug, PartialEq, Eq, Error)]
#[error("a call of the outside failed")]
pub struct Failed;

/// Why a record could not be appended, or a text saved.
#[derive(Clone, Copy, Debug, PartialEq, Eq, Error)]
pub enum PutFault {
    /// The call failed. Whether the record is stored is to be settled. Of a text the old one or the new one is stored.
    #[error("what was to be kept could not be written")]
    Failed,
    /// Memory was refused. The records are as before, and so is the text.
    #[error("out of memory")]
    OutOfMemory,
}

/// Why a record could not be fetched, or a text loaded.
#[derive(Clone, Copy, Debug, PartialEq, Eq, Error)]
pub enum FetchFault {
    /// The call failed.
    #[error("what is kept could not be read")]
    Failed,
    /// Memory was refused.
    #[error("out of memory")]
    OutOfMemory,
}
