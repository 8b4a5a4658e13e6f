//! Why a run ends before all was done.

use ofx_types::OutOfMemory;

/// Why a run ended before all was done.
#[derive(Clone, Copy)]
pub enum Stop {
    /// The text that is kept has no form: its first fault is at this byte.
    BadStore(u64),
    /// After this many bytes the input goes on with bytes that begin no frame, or with more frames than a run answers.
    Frame(u64),
    /// A read of the input failed.
    ReadFailed,
    /// A write of the output failed.
    WriteFailed,
    /// Memory was refused.
    NoMemory,
    /// A call of the store failed.
    StoreFailed,
}

impl From<OutOfMemory> for Stop {
    ghost use Rattle.std.specs.Prelude.{◌≡◌};
    ghost use Rattle.register_run.specs.declared.stop.Stop.TheVariants as stops;

    ghost from_gives = { λ _ e. e ≡ stops.NoMemory };

    fn from(_refused: OutOfMemory) -> Stop {
        Stop::NoMemory
    }
}
