//! Why a bank doesn't open from its records.

ghost use Rattle.std.specs.Prelude.{◌≡◌};
ghost use Rattle.bank_replay.specs.declared.fault.OpenFault.TheVariants as faults;
ghost use Rattle.bank_replay.specs.Fetching.{failed_fetch};

use ofx_ports::FetchFault;
use ofx_types::OutOfMemory;
use thiserror::Error;

/// Why a bank doesn't open from its records.
#[derive(Clone, Copy, Debug, PartialEq, Eq, Error)]
pub enum OpenFault {
    /// A record couldn't be fetched.
    #[error("a record could not be read")]
    Read,
    /// The record of this number, from 1, codes no event: its first fault is at this byte, from 0.
    #[error("record {0} has no form at byte {1}")]
    Record(u64, u64),
    /// The record of this number, from 1, codes an event that isn't legal after those before it.
    #[error("record {0} is not legal after those before it")]
    Illegal(u64),
    /// Memory was refused.
    #[error("out of memory")]
    OutOfMemory,
}

impl From<OutOfMemory> for OpenFault {
    ghost from_gives = { λ _ e. e ≡ faults.OutOfMemory };

    fn from(_refused: OutOfMemory) -> OpenFault {
        OpenFault::OutOfMemory
    }
}

impl From<FetchFault> for OpenFault {
    ghost from_gives = { λ fault e. e ≡ failed_fetch fault };

    fn from(fault: FetchFault) -> OpenFault {
        match fault {
            FetchFault::Failed => OpenFault::Read,
            FetchFault::OutOfMemory => OpenFault::OutOfMemory,
        }
    }
}
