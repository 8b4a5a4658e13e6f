//! Why the file did not do what it was asked.

use sqlite::{Error, ErrorCode};
use std::alloc::AllocError;

/// Why a call of a keeper over a file was refused.
#[derive(Clone, Copy)]
pub enum Refusal {
    /// The file, its form or the disk.
    Failed,
    /// Memory was refused.
    OutOfMemory,
}

impl From<Error> for Refusal {
    ghost use Rattle.std.specs.Prelude.{◌≡◌};
    ghost use Rattle.sqlite_keeper.specs.Refusals.{refusal_of};

    ghost from_gives = { λ error refusal. refusal ≡ refusal_of error };

    fn from(error: Error) -> Refusal {
        match error {
            Error::SqliteFailure(ErrorCode::OutOfMemory) => Refusal::OutOfMemory,
            _ => Refusal::Failed,
        }
    }
}

impl From<AllocError> for Refusal {
    ghost use Rattle.std.specs.Prelude.{◌≡◌};
    ghost use Rattle.sqlite_keeper.specs.declared.refusal.Refusal.TheVariants.{OutOfMemory};

    ghost from_gives = { λ _ refusal. refusal ≡ OutOfMemory };

    fn from(_refused: AllocError) -> Refusal {
        Refusal::OutOfMemory
    }
}
