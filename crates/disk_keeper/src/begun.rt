//! What of an append isn't settled.

ghost use Rattle.std.specs.Prelude.{◌≡◌};

use crate::reading::OPEN;

/// How far an append came that failed and isn't settled.
#[derive(Clone, Copy)]
pub enum Begun {
    /// There is none.
    Nothing,
    /// To its body.
    Body,
    /// To its gate. The gate after the record is at this offset.
    Opening(u64),
}

impl Begun {
    ghost use Rattle.disk_keeper.specs.Keeping.{opened_by};

    /// The gate after the record, where the gate before it was found to be this one and the record is stored.
    pub fn opened(self, gate: u8) -> Option<u64>
        ensures { result ≡ opened_by self gate }
    {
        match self {
            Begun::Opening(next) if gate == OPEN => Some(next),
            _ => None,
        }
    }
}
