//! Why a client refuses.

ghost use Rattle.std.specs.Prelude.{◌≡◌};
ghost use Rattle.client_core.specs.declared.fault.ClientFault.TheVariants as faults;

use ofx_types::OutOfMemory;
use thiserror::Error;

/// Why a client is not made, why it makes no file, or why it doesn't take a reply in.
#[derive(Clone, Copy, Debug, PartialEq, Eq, Error)]
pub enum ClientFault {
    /// The name isn't 1 to 12 letters and digits of ASCII.
    #[error("the client's name isn't 1 to 12 letters and digits")]
    BadName,
    /// No store has the row of this id, which the wish names.
    #[error("no row {0}")]
    NoRow(u64),
    /// The reply doesn't bear the name of the outstanding file (NEWFILEUID), or no file is outstanding.
    #[error("the reply isn't to the outstanding file")]
    NotMine,
    /// The signon failed with this status code (SONRS).
    #[error("the signon failed with the status {0}")]
    Signon(u16),
    /// The reply of this number, from 1, doesn't answer what was asked there.
    #[error("reply {0} doesn't answer what was asked")]
    Shape(u64),
    /// Memory was refused.
    #[error("out of memory")]
    OutOfMemory,
}

impl From<OutOfMemory> for ClientFault {
    ghost from_gives = { λ _ e. e ≡ faults.OutOfMemory };

    fn from(_refused: OutOfMemory) -> ClientFault {
        ClientFault::OutOfMemory
    }
}
