//! The book's sides of all accounts of a bank.

ghost use Rattle.std.specs.Prelude.{◌≡◌, Some, map, slice_get};
ghost use Rattle.bank_accounts.specs.BalancesView.{amount_given};
ghost use Rattle.bank_accounts.specs.HeldAccounts.{with_balances};
ghost use Rattle.bank_accounts.specs.Sides.{tables_in, IsOf, AreOf, AreMet, AreNotNegative, side_of, with_side, with_sides};

use crate::account::Account;
use crate::balances::Balances;
use crate::book_side::BookSide;
use crate::held::Held;
use std::marker::Model;

/// The balance that the book has for each account of a bank, by the account's number.
///
/// ```rust
/// use bank_accounts::{Account, Balance, Balances, BookSides, Held};
/// use ofx_types::{AcctId, Cents};
///
/// let alloc = rt.alloc();
/// let (account, side) = Account::new(alloc, AcctId(0), Cents(10_000)).expect(&rt, "room");
/// let mut sides = BookSides::from_vec(vec![in alloc; side].expect(&rt, "room"));
/// let mut held = Held::new(alloc);
/// assert!(rt; held.add(account).is_ok());
/// // An account that is held comes to another balance, and so does the book's side of it.
/// let mut balances = Balances::new(alloc);
/// balances.reserve(1).expect(&rt, "room");
/// balances.give(Balance { account: AcctId(0), amount: Cents(9_900) });
/// sides.set_balances(&mut held, &balances);
/// sides.meet(&mut held);
/// assert!(rt; held.balance(AcctId(0)) == Some(Cents(9_900)));
/// ```
pub struct BookSides {
    sides: Vec<BookSide>,
}

impl Model for BookSides {
    ghost use Rattle.std.specs.Prelude.{List};
    ghost use Rattle.bank_accounts.specs.AccountView.{BookSideView};

    ghost Value = { List BookSideView };

    ghost view = { λ b. b.sides.items };
}

impl Drop for BookSides {
    fn drop(self) {
        let BookSides { sides: _ } = self;
    }
}

impl BookSides {
    /// The sides of a vector, each at the number of its account. Takes no memory.
    pub fn from_vec(sides: Vec<BookSide>) -> BookSides
        ensures { result ≡ sides.items }
    {
        BookSides { sides }
    }

    /// Shows that each account that is held has the balance that the book has for it. Takes no memory.
    ///
    /// Each of the accounts is of this book.
    pub fn meet(&mut self, held: &mut Held)
        requires { AreOf (tables_in self.old) held.old }
        ensures met { AreMet self.old held.old }
        ensures sides { self.new ≡ self.old }
        ensures accounts { held.new ≡ held.old }
    {
        for account in held.accounts.iter_mut() {
            self.meet_one(account);
        }
    }

    fn meet_one(&mut self, account: &mut Account)
        requires { IsOf (tables_in self.old) account.old }
        ensures met { slice_get self.old account.old.number.0 ≡ Some (side_of account.old) }
        ensures sides { self.new ≡ self.old }
        ensures account { account.new ≡ account.old }
    {
        let index = account.number().0 as usize;
        self.sides[index].meet(account);
    }

    /// Gives each account that is held the balance that it came to, at both of its sides. All others stay. Takes no memory.
    ///
    /// Each of the accounts is of this book, and no balance is below 0.
    pub fn set_balances(&mut self, held: &mut Held, given: &Balances)
        requires own { AreOf (tables_in self.old) held.old }
        requires not_negative { AreNotNegative given.now.given }
        ensures sides { self.new ≡ with_sides given.now.given self.old held.old }
        ensures accounts { held.new ≡ map (with_balances given.now.given) held.old }
        ensures tables { tables_in self.new ≡ tables_in self.old }
    {
        for account in held.accounts.iter_mut() {
            self.set_balance(account, given);
        }
    }

    fn set_balance(&mut self, account: &mut Account, given: &Balances)
        requires own { IsOf (tables_in self.old) account.old }
        requires not_negative { AreNotNegative given.now.given }
        ensures side { self.new ≡ with_side self.old account.old (amount_given given.now.given account.old.number) }
        ensures account { account.new ≡ with_balances given.now.given account.old }
    {
        if let Some(amount) = given.get(account.number()) {
            let index = account.number().0 as usize;
            self.sides[index].set(account, amount);
        }
    }
}
