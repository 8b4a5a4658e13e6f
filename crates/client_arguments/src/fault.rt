//! Why arguments are not read.

use ofx_types::OutOfMemory;

/// Why the arguments of a command line order nothing.
#[derive(Clone, Copy, Debug, PartialEq, Eq)]
pub enum ArgumentsFault {
    /// They have no form.
    Usage,
    /// Memory was refused.
    OutOfMemory,
}

impl From<OutOfMemory> for ArgumentsFault {
    ghost use Rattle.std.specs.Prelude.{◌≡◌};
    ghost use Rattle.client_arguments.specs.declared.fault.ArgumentsFault.TheVariants as faults;

    ghost from_gives = { λ _ e. e ≡ faults.OutOfMemory };

    fn from(_refused: OutOfMemory) -> ArgumentsFault {
        ArgumentsFault::OutOfMemory
    }
}
