//! Accounts in the pool, each in the slot of its number. Some are checked out for a while, and come back.

ghost use Rattle.std.specs.Prelude.{◌≡◌, ◌≢◌, ◌<◌, [], ◌∷◌, ◌++◌, length, map, set, None, Some, OnOk, OnErr, IfOk, IfSome, All};
ghost use Rattle.std.specs.List.Sorted.{IsStrictlyIncreasing};
ghost use Rattle.ofx_types.specs.declared.number.AcctId.{AcctId};
ghost use Rattle.bank_accounts.specs.AccountView.{AccountView, Tables};
ghost use Rattle.bank_accounts.specs.HeldAccounts.{NumbersRise};
ghost use Rattle.bank_accounts.specs.Pool.{in_pool, AreAllPooled, AreCheckedOut, AreNumbered};
ghost use Rattle.bank_accounts.specs.Sides.{tables_of};

use crate::account::Account;
use crate::held::Held;
use ofx_types::{AcctId, OutOfMemory};
use std::alloc::Global;
use std::marker::Model;

/// The accounts of a bank, numbered from 0, each in its slot unless it is checked out.
///
/// ```rust
/// use bank_accounts::{Account, AccountPool, Held};
/// use ofx_types::{AcctId, Cents};
///
/// let alloc = rt.alloc();
/// let (first, _side) = Account::new(alloc, AcctId(0), Cents(10_000)).expect(&rt, "room");
/// let (second, _side) = Account::new(alloc, AcctId(1), Cents(5_000)).expect(&rt, "room");
/// let accounts = vec![in alloc; first, second].expect(&rt, "room");
/// let mut pool = AccountPool::from_vec(alloc, accounts).expect(&rt, "room");
/// // One account is held while an event is answered. The other one stays in the pool.
/// let mut held = Held::new(alloc);
/// pool.check_out(&mut held, &[AcctId(1)]).expect(&rt, "room");
/// assert!(rt; held.balance(AcctId(1)) == Some(Cents(5_000)) && held.balance(AcctId(0)) == None);
/// pool.check_in(&mut held);
/// assert!(rt; held.accounts().is_empty());
/// ```
pub struct AccountPool {
    slots: Vec<Option<Account>>,
}

impl Model for AccountPool {
    ghost use Rattle.std.specs.Prelude.{List, Option};
    ghost use Rattle.bank_accounts.specs.AccountView.{AccountView};
    ghost use Rattle.bank_accounts.specs.HeldAccounts.{NumbersRise};
    ghost use Rattle.bank_accounts.specs.Pool.{AreUnderNumbers};

    ghost Value = { List (Option AccountView) };

    ghost view = { λ h. h.slots.items };

    ghost invariant = { λ h. AreUnderNumbers h.slots.items };
}

impl Drop for AccountPool {
    fn drop(self) {
        let AccountPool { slots: _ } = self;
    }
}

impl AccountPool {
    /// The accounts of a vector, all of them in the pool. They are numbered from 0 in their order.
    pub fn from_vec(alloc: Global, mut accounts: Vec<Account>) -> Result<AccountPool, OutOfMemory>
        requires { AreNumbered accounts.items }
        ensures slots { IfOk result (λ pool. pool ≡ map Some accounts.items) }
        ensures pool { IfOk result (λ pool. AreCheckedOut (tables_of accounts.items) pool []) }
    {
        let mut slots = Vec::with_capacity(alloc, accounts.len())?;
        while let Some(account) = accounts.pop() {
            slots.push(Some(account))?;
        }
        slots.reverse();
        Ok(AccountPool { slots })
    }

    /// Checks out the accounts of these numbers, which rise. Where memory is refused, all are in the pool again.
    pub fn check_out(&mut self, held: &mut Held, numbers: &[AcctId]) -> Result<(), OutOfMemory>
        requires rising { IsStrictlyIncreasing (map (λ number. number.0) numbers.now) }
        requires known { All (λ number. number.0 < length self.old) numbers.now }
        requires pool { AreAllPooled self.old }
        requires none_held { held.old ≡ [] }
        ensures pool { (tables : Tables) → AreCheckedOut tables self.old held.old → AreCheckedOut tables self.new held.new }
        ensures numbers { OnOk result (map (λ account. account.number) held.new ≡ numbers.now) }
        ensures none_lent { OnErr result (held.new ≡ []) }
    {
        for number in numbers {
            if self.check_out_one(held, *number).is_err() {
                self.check_in(held);
                return Err(OutOfMemory);
            }
        }
        Ok(())
    }

    /// Checks out the account of that number, which is above those that are held. Where memory is refused it is in the pool again.
    fn check_out_one(&mut self, held: &mut Held, number: AcctId) -> Result<(), OutOfMemory>
        requires known { number.0 < length self.old }
        requires pool { in_pool self.old number ≢ None }
        requires rises { (account : AccountView) → account.number ≡ number → NumbersRise (held.old ++ account ∷ []) }
        ensures gone { OnOk result (self.new ≡ set self.old number.0 None) }
        ensures checked_out { OnOk result ((account : AccountView) → in_pool self.old number ≡ Some account
            → (account.number ≡ number) × (held.new ≡ held.old ++ account ∷ [])) }
        ensures refused { OnErr result (self.new ≡ self.old) }
        ensures none_lent { OnErr result (held.new ≡ held.old) }
    {
        match self.take(number) {
            None => Ok(()),
            Some(account) => match held.add(account) {
                Ok(()) => Ok(()),
                Err(fault) => {
                    self.put(fault.into_account());
                    Err(OutOfMemory)
                }
            },
        }
    }

    /// Takes all accounts back that are held. Takes no memory.
    pub fn check_in(&mut self, held: &mut Held)
        requires { All (λ account. account.number.0 < length self.old) held.old }
        ensures pool { (tables : Tables) → AreCheckedOut tables self.old held.old → AreCheckedOut tables self.new held.new }
        ensures none_held { held.new ≡ [] }
    {
        while let Some(account) = held.pop() {
            self.put(account);
        }
    }

    /// All the accounts in the order of their numbers.
    pub fn into_vec(self, alloc: Global) -> Result<Vec<Account>, OutOfMemory>
        requires { AreAllPooled self }
        ensures numbered { IfOk result (λ accounts. AreNumbered accounts.items) }
        ensures all { IfOk result (λ accounts. map Some accounts.items ≡ self) }
        ensures tables { IfOk result (λ accounts. (tables : Tables) → AreCheckedOut tables self [] → tables_of accounts.items ≡ tables) }
    {
        let AccountPool { mut slots } = self;
        let mut accounts = Vec::with_capacity(alloc, slots.len())?;
        while let Some(slot) = slots.pop() {
            if let Some(account) = slot {
                accounts.push(account)?;
            }
        }
        accounts.reverse();
        Ok(accounts)
    }

    /// The account of that number, which is no longer in the pool.
    fn take(&mut self, number: AcctId) -> Option<Account>
        requires { number.0 < length self.old }
        ensures account { result ≡ in_pool self.old number }
        ensures own { IfSome result (λ account. account.number ≡ number) }
        ensures gone { self.new ≡ set self.old number.0 None }
    {
        self.slots[number.0 as usize].take()
    }

    /// Puts an account into its slot.
    fn put(&mut self, account: Account)
        requires { account.number.0 < length self.old }
        ensures { self.new ≡ set self.old account.number.0 (Some account) }
    {
        let index = account.number().0 as usize;
        self.slots[index] = Some(account);
    }
}
