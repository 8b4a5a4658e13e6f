//! Why a command ends before its work is done.

use ofx_types::OutOfMemory;

/// Why a command ended before its work was done.
#[derive(Clone, Copy, Debug, PartialEq, Eq)]
pub enum Stop {
    /// The arguments have no form.
    Usage,
    /// The setup has no form or is past a limit, at the line of this number, from 1.
    Setup(u64),
    /// After this many bytes the input goes on with bytes that begin no frame, or with more frames than a run answers.
    Frame(u64),
    /// A read failed.
    ReadFailed,
    /// A write failed.
    WriteFailed,
    /// A call of the keeper failed.
    KeeperFailed,
    /// A record doesn't go on from those before it.
    Records(RecordsFault),
    /// A letter can't be written.
    Letter(LetterFault),
    /// Memory was refused.
    NoMemory,
}

/// Why the records that are kept are none of this bank.
#[derive(Clone, Copy, Debug, PartialEq, Eq)]
pub enum RecordsFault {
    /// The record of this number, from 1, codes no event: its first fault is at this byte, from 0.
    NoForm(u64, u64),
    /// The record of this number, from 1, codes an event that isn't legal after those before it.
    NotLegal(u64),
}

/// Why a letter can't be written.
#[derive(Clone, Copy, Debug, PartialEq, Eq)]
pub enum LetterFault {
    /// The input is no body of a letter.
    NoBody,
    /// No user has the name.
    NoUser,
    /// The bank has no number left for an entry.
    Full,
}

impl From<OutOfMemory> for Stop {
    ghost use Rattle.std.specs.Prelude.{◌≡◌};
    ghost use Rattle.bank_opening.specs.declared.stop.Stop.TheVariants.{NoMemory};

    ghost from_gives = { λ _ e. e ≡ NoMemory };

    fn from(_refused: OutOfMemory) -> Stop {
        Stop::NoMemory
    }
}
