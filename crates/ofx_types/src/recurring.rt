//! Recurring transfers: how often they are made, and the rows that the bank keeps of them (OFX 1.6, "Recurring
//! Transactions").

ghost use Rattle.std.specs.Prelude.{◌≡◌};
ghost use Rattle.ofx_types.specs.RecurringForm.{freq_word};

use crate::account::AcctName;
use crate::duplicate::Duplicate;
use crate::memory::OutOfMemory;
use crate::number::{Cents, Day};

/// How often a recurring transfer is made (FREQ).
#[derive(Clone, Copy, Debug, PartialEq, Eq)]
pub enum Freq {
    /// Every 7 days.
    Weekly,
    /// Every 14 days.
    Biweekly,
    /// Twice a month.
    TwiceMonthly,
    /// Every month.
    Monthly,
    /// Every 28 days.
    FourWeeks,
    /// Every other month.
    Bimonthly,
    /// Every third month.
    Quarterly,
    /// Every sixth month.
    Semiannually,
    /// Every year.
    Annually,
}

impl Freq {
    /// Its word in files.
    pub fn word(self) -> &'static [u8]
        ensures { result.now ≡ freq_word self }
    {
        match self {
            Freq::Weekly => b"WEEKLY",
            Freq::Biweekly => b"BIWEEKLY",
            Freq::TwiceMonthly => b"TWICEMONTHLY",
            Freq::Monthly => b"MONTHLY",
            Freq::FourWeeks => b"FOURWEEKS",
            Freq::Bimonthly => b"BIMONTHLY",
            Freq::Quarterly => b"QUARTERLY",
            Freq::Semiannually => b"SEMIANNUALLY",
            Freq::Annually => b"ANNUALLY",
        }
    }
}

/// How a transfer recurs (RECURRINST).
#[derive(Clone, Copy, Debug, PartialEq, Eq)]
pub struct Recur {
    /// How many transfers are made, 1 to 999 (NINSTS). None is no end.
    pub count: Option<u32>,
    /// How often one is made.
    pub freq: Freq,
}

/// A recurring transfer as the bank keeps it: the model of the transfers that it makes.
#[derive(Debug, Drop)]
pub struct ModelRow {
    /// Its id (RECSRVRTID): the number of the entry that made it.
    pub id: u64,
    /// How it recurs.
    pub recur: Recur,
    /// The source of each transfer.
    pub from: AcctName,
    /// The destination of each transfer.
    pub to: AcctName,
    /// The amount of each transfer.
    pub amount: Cents,
    /// The day on which the first transfer is due.
    pub first: Day,
}

impl Duplicate for ModelRow {
    fn copy(&self) -> Result<ModelRow, OutOfMemory> {
        Ok(ModelRow {
            id: self.id,
            recur: self.recur,
            from: self.from.copy()?,
            to: self.to.copy()?,
            amount: self.amount,
            first: self.first,
        })
    }
}
