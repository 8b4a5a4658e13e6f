//! Why a run ends before all was done.

ghost use Rattle.std.specs.Prelude.{◌≡◌};

use client_core::ClientFault;
use client_saved::StoreFault;
use ofx_ports::{FetchFault, PutFault};
use ofx_types::OutOfMemory;

/// Why no client was found that the arguments name.
#[derive(Clone, Copy, Debug, PartialEq, Eq)]
pub enum StoreOpenFault {
    /// The text is another client's or another user's, or its client has no number left for a file.
    NotOurs,
    /// The text has no form: its first fault is at this byte.
    Bad(u64),
    /// The text couldn't be loaded.
    Failed,
    /// Memory was refused.
    OutOfMemory,
}

/// Why no reply file came.
#[derive(Clone, Copy, Debug, PartialEq, Eq)]
pub enum CallStop {
    /// A read of the link failed.
    ReadFailed,
    /// A write of the link failed.
    WriteFailed,
    /// Memory was refused.
    NoMemory,
    /// The reply's head has no form or no usable length.
    BadHead,
    /// The link ended so many bytes into the reply.
    Cut(u64),
    /// The reply has this code, which isn't 200.
    Http(u16),
    /// The body spells no reply file: its first fault is at this byte.
    BadReply(u64),
}

/// Why a run ended before all was done.
#[derive(Clone, Copy, Debug, PartialEq, Eq)]
pub enum ClientStop {
    /// No client was found that the arguments name.
    Open(StoreOpenFault),
    /// No reply file came.
    Call(CallStop),
    /// No file was made, or the reply was refused.
    Refused(ClientFault),
    /// What the client knows couldn't be saved.
    Keep(PutFault),
    /// The lines couldn't be printed.
    Print(PutFault),
}

impl From<OutOfMemory> for StoreOpenFault {
    ghost use Rattle.client_run.specs.declared.stop.StoreOpenFault.TheVariants as opens;

    ghost from_gives = { λ _ e. e ≡ opens.OutOfMemory };

    fn from(_refused: OutOfMemory) -> StoreOpenFault {
        StoreOpenFault::OutOfMemory
    }
}

impl From<FetchFault> for StoreOpenFault {
    ghost use Rattle.client_run.specs.Stopping.{open_fault};

    ghost from_gives = { λ fault e. e ≡ open_fault fault };

    fn from(fault: FetchFault) -> StoreOpenFault {
        match fault {
            FetchFault::Failed => StoreOpenFault::Failed,
            FetchFault::OutOfMemory => StoreOpenFault::OutOfMemory,
        }
    }
}

impl From<StoreFault> for StoreOpenFault {
    ghost use Rattle.client_run.specs.Stopping.{text_fault};

    ghost from_gives = { λ fault e. e ≡ text_fault fault };

    fn from(fault: StoreFault) -> StoreOpenFault {
        match fault {
            StoreFault::Bad(at) => StoreOpenFault::Bad(at),
            StoreFault::OutOfMemory => StoreOpenFault::OutOfMemory,
        }
    }
}

impl From<OutOfMemory> for CallStop {
    ghost use Rattle.client_run.specs.declared.stop.CallStop.TheVariants as calls;

    ghost from_gives = { λ _ e. e ≡ calls.NoMemory };

    fn from(_refused: OutOfMemory) -> CallStop {
        CallStop::NoMemory
    }
}
