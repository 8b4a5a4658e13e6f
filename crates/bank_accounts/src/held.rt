//! The accounts that are held while an event is answered.

ghost use Rattle.std.specs.Prelude.{◌≡◌, ◌∷◌, ◌++◌, [], OnOk, IfErr, OnErr, IfSome, IfNone};
ghost use Rattle.bank_accounts.specs.HeldAccounts.{NumbersRise, balance_held};
ghost use Rattle.bank_accounts.specs.declared.held.HeldFault.TheVariants.{NoMemory};

use crate::account::Account;
use ofx_types::{AcctId, Cents};
use std::alloc::Global;
use std::marker::Model;

/// Accounts in the order of their numbers, each once.
pub struct Held {
    pub(crate) accounts: Vec<Account>,
}

impl Model for Held {
    ghost use Rattle.std.specs.Prelude.{List};
    ghost use Rattle.bank_accounts.specs.AccountView.{AccountView};
    ghost use Rattle.bank_accounts.specs.HeldAccounts.{NumbersRise};

    ghost Value = { List AccountView };

    ghost view = { λ h. h.accounts.items };

    ghost invariant = { λ h. NumbersRise h.accounts.items };
}

impl Drop for Held {
    fn drop(self) {
        let Held { accounts: _ } = self;
    }
}

/// Why an account wasn't taken among those held.
#[derive(Drop)]
pub enum HeldFault {
    /// Memory was refused. Here is the account again.
    NoMemory(Account),
}

impl HeldFault {
    /// The account that wasn't taken.
    pub fn into_account(self) -> Account
        ensures { self ≡ NoMemory result }
    {
        match self {
            HeldFault::NoMemory(account) => account,
        }
    }
}

impl Held {
    /// No accounts.
    pub fn new(alloc: Global) -> Held
        ensures { result ≡ [] }
    {
        Held {
            accounts: Vec::new(alloc),
        }
    }

    /// The accounts of a vector, which takes no memory. Their numbers rise.
    pub fn from_vec(accounts: Vec<Account>) -> Held
        requires { NumbersRise accounts.items }
        ensures { result ≡ accounts.items }
    {
        Held { accounts }
    }

    /// Takes an account whose number is above those held.
    ///
    /// Where memory is refused, what is held is as before and the account is handed back.
    pub fn add(&mut self, account: Account) -> Result<(), HeldFault>
        requires { NumbersRise (self.old ++ account ∷ []) }
        ensures ok { OnOk result (self.new ≡ self.old ++ account ∷ []) }
        ensures err { OnErr result (self.new ≡ self.old) }
        ensures handed_back { IfErr result (λ fault. fault ≡ NoMemory account) }
    {
        match self.accounts.push(account) {
            Ok(()) => Ok(()),
            Err(refused) => Err(HeldFault::NoMemory(refused.value)),
        }
    }

    /// Gives up the last account. None exactly where none is held. Takes no memory.
    pub fn pop(&mut self) -> Option<Account>
        ensures last { IfSome result (λ account. self.old ≡ self.new ++ account ∷ []) }
        ensures none { IfNone result ((self.old ≡ []) × (self.new ≡ [])) }
        ensures rising { NumbersRise self.old }
    {
        self.accounts.pop()
    }

    /// The accounts held, lent.
    pub fn accounts(&self) -> &[Account]
        ensures accounts { result.now ≡ self.now }
        ensures rising { NumbersRise self.now }
    {
        self.accounts.as_slice()
    }

    /// The balance of an account, in cents. None exactly where it isn't held. Takes no memory.
    pub fn balance(&self, number: AcctId) -> Option<Cents>
        ensures { result ≡ balance_held self.now number }
    {
        self.accounts
            .iter()
            .find(|account| account.number().0 == number.0)
            .map(|account| account.balance())
    }

    /// The accounts, in the order of their numbers. Takes no memory.
    pub fn into_vec(self) -> Vec<Account>
        ensures { result.items ≡ self }
    {
        let Held { accounts } = self;
        accounts
    }
}
