//! Why due work wasn't done to its end.

ghost use Rattle.std.specs.Prelude.{◌≡◌};
ghost use Rattle.bank_due.specs.DueRuns.{fault_of};

use bank_model::SubmitFault;
use thiserror::Error;

/// Why due work wasn't done to its end.
#[derive(Clone, Copy, Debug, PartialEq, Eq, Error)]
pub enum DueFault {
    /// As many events have happened as a run has, and the last look found this transfer or recurring transfer due. More may be
    /// due.
    #[error("{0} was due, and more may be")]
    Left(u64),
    /// A call of the keeper of the records failed, and its count of faults rose to this number.
    #[error("the record could not be kept")]
    Keeper(u64),
    /// Memory was refused.
    #[error("out of memory")]
    OutOfMemory,
}

impl From<SubmitFault> for DueFault {
    ghost from_gives = { λ fault e. e ≡ fault_of fault };

    fn from(fault: SubmitFault) -> DueFault {
        match fault {
            SubmitFault::Keeper(count) => DueFault::Keeper(count),
            SubmitFault::OutOfMemory => DueFault::OutOfMemory,
        }
    }
}
