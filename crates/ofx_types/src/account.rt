//! Accounts as files name them: BANKACCTFROM and BANKACCTTO (OFX 1.6, "Banking Account").

ghost use Rattle.std.specs.Prelude.{◌≡◌};
ghost use Rattle.ofx_types.specs.AccountForm.{kind_number, kind_word};

use crate::duplicate::Duplicate;
use crate::memory::OutOfMemory;
use crate::text::Text;

/// The kind of a bank account (ACCTTYPE).
#[derive(Clone, Copy, Debug, PartialEq, Eq)]
pub enum AcctKind {
    /// `CHECKING`
    Checking,
    /// `SAVINGS`
    Savings,
    /// `MONEYMRKT`
    MoneyMarket,
    /// `CREDITLINE`
    CreditLine,
}

impl AcctKind {
    /// Its index among the kinds, from 0: the order in which setups are searched, and its code in a record.
    pub fn number(self) -> u8
        ensures { result ≡ kind_number self }
    {
        match self {
            AcctKind::Checking => 0,
            AcctKind::Savings => 1,
            AcctKind::MoneyMarket => 2,
            AcctKind::CreditLine => 3,
        }
    }

    /// Its word in files.
    pub fn word(self) -> &'static [u8]
        ensures { result.now ≡ kind_word self }
    {
        match self {
            AcctKind::Checking => b"CHECKING",
            AcctKind::Savings => b"SAVINGS",
            AcctKind::MoneyMarket => b"MONEYMRKT",
            AcctKind::CreditLine => b"CREDITLINE",
        }
    }
}

/// What names an account: bank id, number and kind together.
#[derive(Debug, Drop, PartialEq, Eq)]
pub struct AcctName {
    /// The bank (BANKID), 1 to 32 bytes.
    pub bank: Text,
    /// The account's number at that bank (ACCTID), 1 to 32 bytes.
    pub number: Text,
    /// The account's kind (ACCTTYPE).
    pub kind: AcctKind,
}

impl Duplicate for AcctName {
    fn copy(&self) -> Result<AcctName, OutOfMemory> {
        Ok(AcctName {
            bank: self.bank.copy()?,
            number: self.number.copy()?,
            kind: self.kind,
        })
    }
}
