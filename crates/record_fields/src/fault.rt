//! Why a record codes no event.

ghost use Rattle.std.specs.Prelude.{◌≡◌};
ghost use Rattle.record_fields.specs.declared.fault.RecordFault.TheVariants as faults;

use ofx_types::OutOfMemory;
use thiserror::Error;

/// Why a record codes no event, or why it couldn't be read.
#[derive(Clone, Copy, Debug, PartialEq, Eq, Error)]
pub enum RecordFault {
    /// The first byte, which names the version of the coding, is this and not 1.
    #[error("the record is of the unknown version {0}")]
    Version(u8),
    /// The first field without a form begins at this byte, counted from 0.
    #[error("the record has no form at byte {0}")]
    Bad(u64),
    /// Memory was refused.
    #[error("out of memory")]
    OutOfMemory,
}

impl From<OutOfMemory> for RecordFault {
    ghost from_gives = { λ _ e. e ≡ faults.OutOfMemory };

    fn from(_refused: OutOfMemory) -> RecordFault {
        RecordFault::OutOfMemory
    }
}
