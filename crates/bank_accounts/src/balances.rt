//! Balances that accounts come to while an event is answered.

ghost use Rattle.std.specs.Prelude.{◌≡◌, ◌+◌, ◌<◌, ◌≤◌, ◌∷◌, ◌++◌, [], length, ◌==◌, OnOk};
ghost use Rattle.std.specs.Option.{option_copied};
ghost use Rattle.bank_accounts.specs.BalancesView.{last_given, amount_given};

use ofx_types::{AcctId, Cents, OutOfMemory};
use std::alloc::Global;
use std::marker::Model;

/// The balance that an account comes to, in cents.
#[derive(Drop)]
pub struct Balance {
    /// The account, by its number.
    pub account: AcctId,
    /// The balance.
    pub amount: Cents,
}

/// Balances in the order in which accounts came to them. The last one of an account counts.
pub struct Balances {
    given: Vec<Balance>,
}

impl Model for Balances {
    ghost use Rattle.std.specs.Prelude.{◌-◌, vec_len, vec_capacity};
    ghost use Rattle.bank_accounts.specs.BalancesView.{BalancesView};

    ghost Value = { BalancesView };

    ghost view = { λ b. record { given = b.given.items; room = vec_capacity b.given - vec_len b.given } };
}

impl Drop for Balances {
    fn drop(self) {
        let Balances { given: _ } = self;
    }
}

impl Balances {
    /// No account has come to another balance. Takes no memory.
    pub fn new(alloc: Global) -> Balances
        ensures { result.given ≡ [] }
    {
        Balances {
            given: Vec::new(alloc),
        }
    }

    /// Whether no account has come to another balance.
    pub fn is_empty(&self) -> bool
        ensures { result ≡ (length self.now.given == 0) }
    {
        self.given.is_empty()
    }

    /// Makes room for so many balances more.
    pub fn reserve(&mut self, count: u32) -> Result<(), OutOfMemory>
        ensures given { self.new.given ≡ self.old.given }
        ensures room { OnOk result (count ≤ self.new.room) }
    {
        self.given.reserve(count as usize)?;
        Ok(())
    }

    /// Gives an account another balance. Takes no memory.
    pub fn give(&mut self, balance: Balance)
        requires { 0 < self.old.room }
        ensures given { self.new.given ≡ self.old.given ++ balance ∷ [] }
        ensures room { self.old.room ≡ self.new.room + 1 }
    {
        self.given.push_reserved(balance);
    }

    /// The balance that an account came to last. None exactly where it came to none. Takes no memory.
    pub fn get(&self, account: AcctId) -> Option<Cents>
        ensures { result ≡ amount_given self.now.given account }
    {
        match self.last(account) {
            Some(balance) => Some(balance.amount),
            None => None,
        }
    }

    fn last(&self, account: AcctId) -> Option<&Balance>
        ensures { option_copied result ≡ last_given self.now.given account }
    {
        self.given
            .iter()
            .rev()
            .find(|balance| account.0 == balance.account.0)
    }
}
