//! The setup of a bank: its name, its users, its accounts and its limits.

mod copies;
mod draft;
mod keys;
mod lines;
mod lookups;
mod reading;
mod words;

use crate::directory::Directory;
use ofx_types::{AcctName, Cents, OutOfMemory, Text, UserId};

/// A user of the bank.
#[derive(Drop)]
pub struct User {
    /// The name with which the user signs on (USERID), a word.
    pub name: Text,
    /// The password (USERPASS), a word.
    pub pass: Text,
}

/// The users, numbered from 0, with distinct names.
pub type Users = Directory<User>;

/// The users to whom an account belongs, each once.
pub type Owners = Directory<UserId>;

/// An account of the bank.
#[derive(Drop)]
pub struct AccountLine {
    /// What names the account in files.
    pub name: AcctName,
    /// The balance with which it opened, 0 or more.
    pub opening: Cents,
    /// Its owners, at least one, each once.
    pub owners: Owners,
}

/// The accounts, numbered from 0, with distinct names.
pub type Accounts = Directory<AccountLine>;

/// What stays the same over a bank's life.
///
/// ```rust
/// use bank_model::{Setup, SetupFault};
/// use ofx_types::{AcctId, UserId};
///
/// let bytes = b"OFXBANK 1\nBANK 121099999\nLEAD 5\nWINDOW 3\nENTRIES 9999999999\n\
///     USER alice secret\nACCT 1001 CHECKING 10000 alice\n";
/// let setup = Setup::read(rt.alloc(), bytes).expect(&rt, "a setup");
/// assert!(rt; setup.lead == 5 && setup.accounts.items()[0].opening.0 == 10_000);
/// assert!(rt; setup.owns(UserId(0), AcctId(0)));
/// // The second line says another bank id.
/// let fault = Setup::read(rt.alloc(), b"OFXBANK 1\nBANK\n").err();
/// assert!(rt; fault == Some(SetupFault::SetupLine(2)));
/// ```
pub struct Setup {
    /// The bank's id (BANKID), a word.
    pub bank: Text,
    /// The users, 1 to 1,000, with distinct names.
    pub users: Users,
    /// The accounts, 1 to 1,000, with distinct names.
    pub accounts: Accounts,
    /// How many days ahead a recurring transfer is made ready, 0 to 30.
    pub lead: u32,
    /// How many entries of an object's history are kept for synchronisation, 1 to 10,000.
    pub window: u32,
    /// How many entries the bank makes in its life at most, 1 to 9,999,999,999.
    pub entries: u64,
}

impl Drop for Setup {
    fn drop(self) {
        let Setup {
            bank: _,
            users: _,
            accounts: _,
            lead: _,
            window: _,
            entries: _,
        } = self;
    }
}

/// Why bytes are no setup.
#[derive(Clone, Copy, Debug, PartialEq, Eq)]
pub enum SetupFault {
    /// The first line without a form or past a limit, counted from 1; where lines are missing, the number of
    /// lines plus 1.
    SetupLine(u64),
    /// Memory was refused.
    OutOfMemory,
}

impl From<OutOfMemory> for SetupFault {
    ghost use Rattle.std.specs.Prelude.{◌≡◌};
    ghost use Rattle.bank_model.specs.declared.setup.SetupFault.TheVariants as faults;

    ghost from_gives = { λ _ e. e ≡ faults.OutOfMemory };

    fn from(_refused: OutOfMemory) -> SetupFault {
        SetupFault::OutOfMemory
    }
}
