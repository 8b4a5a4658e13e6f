//! Why an event wasn't committed.

ghost use Rattle.std.specs.Prelude.{◌≡◌};
ghost use Rattle.bank_model.specs.declared.submit.SubmitFault.TheVariants as faults;

use ofx_types::OutOfMemory;
use thiserror::Error;

/// Why an event wasn't committed.
#[derive(Clone, Copy, Debug, PartialEq, Eq, Error)]
pub enum SubmitFault {
    /// A call of the keeper of the records failed, and its count of faults rose to this number.
    #[error("the record could not be kept")]
    Keeper(u64),
    /// Memory was refused.
    #[error("out of memory")]
    OutOfMemory,
}

impl From<OutOfMemory> for SubmitFault {
    ghost from_gives = { λ _ e. e ≡ faults.OutOfMemory };

    fn from(_refused: OutOfMemory) -> SubmitFault {
        SubmitFault::OutOfMemory
    }
}
