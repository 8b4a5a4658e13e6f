//! Both sides of an account, and threads that take one account by turns.

ghost use Rattle.std.specs.Prelude.{◌≡◌, [], ◌∷◌, length, IfOk, pos, ◌≤ℤ◌};

use bank_accounts::{Account, AccountRow, BookSide};
use ofx_types::{AcctId, Cents, OutOfMemory};
use std::alloc::Global;
use std::sync::Wait;
use std::thread;
use std::time::{Clock, Duration};

const ONLY: AcctId = AcctId(0);

// An account with 0.00, alone in a row, and the book's side of it.
fn row_of_one(alloc: Global) -> Result<(AccountRow, BookSide), OutOfMemory>
    ensures { IfOk result (λ made. made.0.tables ≡ made.1.table ∷ []) }
{
    let (account, book) = Account::new(alloc, ONLY, Cents(0))?;
    let mut accounts = Vec::with_capacity(alloc, 1)?;
    accounts.push(account)?;
    let row = AccountRow::new(alloc, accounts)?;
    Ok((row, book))
}

// Sets the balance in a turn of its own.
fn set_in_turn<R: Wait>(rt: &R, row: &AccountRow, mut book: BookSide, amount: Cents) -> BookSide
    requires of_row { row.now.tables ≡ book.table ∷ [] }
    requires not_negative { pos 0 ≤ℤ amount.0 }
    ensures { result.table ≡ book.table }
{
    let (mut account, turn) = row.take(rt, ONLY);
    book.meet(&mut account);
    book.set(&mut account, amount);
    row.give(account, turn);
    book
}

// Sets the balance to 1, 2 and so on.
fn count_up<R: Wait>(rt: &R, row: &AccountRow, mut book: BookSide, times: u32) -> BookSide
    requires { row.now.tables ≡ book.table ∷ [] }
{
    for cents in 0..times {
        book = set_in_turn(rt, row, book, Cents(i64::from(cents) + 1));
    }
    book
}

// The balance, read in a turn of its own.
fn look<R: Wait>(rt: &R, row: &AccountRow) -> Cents
    requires { length row.now.tables ≡ 1 }
{
    let (account, turn) = row.take(rt, ONLY);
    let balance = account.balance();
    row.give(account, turn);
    balance
}

// The same, and the account is out for a while.
fn look_slowly<R: Wait + Clock>(rt: &R, row: &AccountRow) -> Cents
    requires { length row.now.tables ≡ 1 }
{
    let (account, turn) = row.take(rt, ONLY);
    thread::sleep(rt, Duration::from_millis(20));
    let balance = account.balance();
    row.give(account, turn);
    balance
}

// Whether no balance was below the one before.
fn only_rises<R: Wait>(rt: &R, row: &AccountRow, times: u32) -> bool
    requires { length row.now.tables ≡ 1 }
{
    let mut last = Cents(0);
    for _ in 0..times {
        let balance = look(rt, row);
        if balance < last {
            return false;
        }
        last = balance;
    }
    true
}

#[test]
fn two_threads_take_turns(rt: HostRuntime) {
    let (row, book) = row_of_one(rt.alloc()).expect(&rt, "memory was refused");
    let (row, rt) = (&row, &rt);
    let (_book, rises) = thread::join(
        rt,
        move || -> BookSide
            requires { row.now.tables ≡ book.table ∷ [] }
        { count_up(rt, row, book, 10_000) },
        move || -> bool
            requires { length row.now.tables ≡ 1 }
        { only_rises(rt, row, 10_000) },
    );
    assert!(rt; rises && look(rt, row) == Cents(10_000));
}

#[test]
fn a_thread_that_waits_is_woken(rt: HostRuntime) {
    let (row, _book) = row_of_one(rt.alloc()).expect(&rt, "memory was refused");
    let (row, rt) = (&row, &rt);
    let (first, second) = thread::join(
        rt,
        move || -> Cents
            requires { length row.now.tables ≡ 1 }
        { look_slowly(rt, row) },
        move || -> Cents
            requires { length row.now.tables ≡ 1 }
        {
            thread::sleep(rt, Duration::from_millis(5));
            look(rt, row)
        },
    );
    assert!(rt; first == second);
}
