//! How a connection ended.

use std::alloc::AllocError;
use thiserror::Error;

/// How a connection ended as it may.
#[derive(Clone, Copy, Debug, PartialEq, Eq)]
pub enum Served {
    /// The link ended after so many exchanges.
    End(u32),
    /// The reply of this number, the last one, said that the connection ends.
    Closed(u32),
}

/// Why a connection broke.
#[derive(Clone, Copy, Debug, PartialEq, Eq, Error)]
pub enum ServeError {
    /// A read of the link failed.
    #[error("the link could not be read")]
    ReadFault,
    /// A write of a reply failed. A prefix of it may be written.
    #[error("the link could not be written")]
    WriteFault,
    /// The link ended so many bytes into a request.
    #[error("the link ended {0} bytes into a request")]
    Cut(u64),
    /// Memory was refused for the bytes that are read, or for the heads of replies.
    #[error("out of memory")]
    OutOfMemory,
}

impl From<AllocError> for ServeError {
    ghost use Rattle.std.specs.Prelude.{◌≡◌};
    ghost use Rattle.http_link.specs.declared.served.ServeError.TheVariants.{OutOfMemory};

    ghost from_gives = { λ _ e. e ≡ OutOfMemory };

    fn from(_refused: AllocError) -> ServeError {
        ServeError::OutOfMemory
    }
}
