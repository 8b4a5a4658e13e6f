//! The row of turns: it lends each account to one thread at a time.

ghost use Rattle.std.specs.Prelude.{◌≡◌, ◌<◌, length, map, Some, IfOk};
ghost use Rattle.bank_accounts.specs.Pool.{AreNumbered};
ghost use Rattle.bank_accounts.specs.Sides.{IsOf, tables_of};

use crate::account::Account;
use crate::row_rule::{RowSeat, RowTable};
use crate::row_steps::{put_back, try_take};
use atomic_table::{Refused, Table};
use ofx_types::{AcctId, OutOfMemory};
use std::alloc::Global;
use std::marker::Model;
use std::snapshot::Snapshot;
use std::sync::Wait;

/// The accounts of a bank, numbered from 0, each at home or with the thread that has its turn.
///
/// ```rust
/// use bank_accounts::{Account, AccountRow};
/// use ofx_types::{AcctId, Cents};
///
/// let (account, mut book) = Account::new(rt.alloc(), AcctId(0), Cents(500)).expect(&rt, "room");
/// let mut accounts = Vec::with_capacity(rt.alloc(), 1).expect(&rt, "room");
/// accounts.push_reserved(account);
/// let row = AccountRow::new(rt.alloc(), accounts).expect(&rt, "room");
/// // Waits until the account is home. Its balance moves with the book's side alone.
/// let (mut account, turn) = row.take(&rt, AcctId(0));
/// book.set(&mut account, Cents(300));
/// assert!(rt; account.balance() == Cents(300));
/// row.give(account, turn);
/// ```
pub struct AccountRow {
    table: RowTable,
}

impl Model for AccountRow {
    ghost use Rattle.bank_accounts.specs.Row.{RowView, IsRow};
    ghost use Rattle.bank_accounts.specs.Sides.{tables_of};

    ghost Value = { RowView };

    ghost view = { λ r. record { row = r.table.shared.table_id; tables = tables_of r.table.shared.key.value.items } };

    ghost invariant = { λ r. IsRow r.table.shared.table_id (tables_of r.table.shared.key.value.items) };
}

impl Drop for AccountRow {
    fn drop(self) {
        let AccountRow { table: _ } = self;
    }
}

/// The right to an account that is out, with the duty to give it back. It has no `Drop`: only `AccountRow::give` ends it.
pub struct Turn {
    number: AcctId,
    seat: RowSeat,
}

impl Model for Turn {
    ghost use Rattle.std.specs.Prelude.{◌≡◌, [], ◌∷◌, None};
    ghost use Rattle.bank_accounts.specs.Row.{TurnView};

    ghost Value = { TurnView };

    ghost view = { λ t. record { row = t.seat.table_id; number = t.number } };

    ghost invariant = { λ t. t.seat.me.1 ≡ (t.number.0, None) ∷ [] };
}

impl Turn {
    /// The number of the account that is out.
    pub fn number(&self) -> AcctId
        ensures { result ≡ self.now.number }
    {
        self.number
    }
}

impl AccountRow {
    /// The row of these accounts, all of them home. They are numbered from 0 in their order.
    pub fn new(alloc: Global, accounts: Vec<Account>) -> Result<AccountRow, OutOfMemory>
        requires { AreNumbered accounts.items }
        ensures { IfOk result (λ row. row.tables ≡ tables_of accounts.items) }
    {
        let made_with = Snapshot::of(&accounts);
        let words = Vec::from_elem(alloc, 0u64, accounts.len())?;
        let slots = slots_of(alloc, accounts)?;
        match Table::new(alloc, words.as_slice(), slots, &made_with) {
            Ok((table, _seat)) => Ok(AccountRow { table }),
            Err(Refused { slots: _ }) => Err(OutOfMemory),
        }
    }

    /// Waits until the account of that number is home and takes it, with its turn. Takes no memory.
    ///
    /// The row was made with an account of that number.
    pub fn take<R: Wait>(&self, rt: &R, number: AcctId) -> (Account, Turn)
        requires { number.0 < length self.now.tables }
        ensures account { (result.0.number ≡ number) × IsOf self.now.tables result.0 }
        ensures turn { result.1 ≡ record { row = self.now.row; number = number } }
    {
        let index = number.0 as usize;
        for _ in rt.forever() {
            let table = &self.table;
            if let Some((account, seat)) = try_take(&table.shared, index) {
                return (account, Turn { number, seat });
            }
            table.shared.park(rt, index, 1);
        }
        unreachable!()
    }

    /// Gives an account back and ends its turn. Takes no memory and doesn't wait.
    ///
    /// The turn is of this row, and the account is the row's account of the turn's number.
    pub fn give(&self, account: Account, turn: Turn)
        requires row { turn.row ≡ self.now.row }
        requires number { account.number ≡ turn.number }
        requires account { IsOf self.now.tables account }
    {
        let Turn { number, seat } = turn;
        let table = &self.table;
        let index = number.0 as usize;
        put_back(&table.shared, index, account, seat);
        table.shared.wake_one(index);
    }
}

// A slot for each account, with the account in it.
fn slots_of(alloc: Global, accounts: Vec<Account>) -> Result<Vec<Option<Account>>, OutOfMemory>
    ensures { IfOk result (λ slots. slots.items ≡ map Some accounts.items) }
{
    let mut slots = Vec::with_capacity(alloc, accounts.len())?;
    for account in accounts {
        slots.push(Some(account))?;
    }
    Ok(slots)
}
