//! Why what was asked of a desk didn't come to its end.

use ofx_types::OutOfMemory;

/// Why what was asked of a desk didn't come to its end.
#[derive(Clone, Copy, Debug, PartialEq, Eq)]
pub enum DeskFault {
    /// Memory was refused.
    NoMemory,
    /// The append of a record failed.
    AppendFailed,
}

impl From<OutOfMemory> for DeskFault {
    ghost use Rattle.std.specs.Prelude.{◌≡◌};
    ghost use Rattle.bank_desk.specs.declared.fault.DeskFault.TheVariants.{NoMemory};

    ghost from_gives = { λ _ e. e ≡ NoMemory };

    fn from(_refused: OutOfMemory) -> DeskFault {
        DeskFault::NoMemory
    }
}
