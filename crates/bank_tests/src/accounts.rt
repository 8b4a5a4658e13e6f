//! Accounts are held, found and given other balances.

ghost use Rattle.std.specs.Prelude.{IfOk};
ghost use Rattle.bank_accounts.specs.Sides.{AreNotNegative, AreOf, tables_in};

use crate::same::same;
use bank_accounts::{Account, Balance, Balances, BookSides, Held};
use ofx_types::{AcctId, Cents, OutOfMemory};
use std::alloc::Global;
use std::process::Abort;

/// Two accounts with their openings, which are held, and the book's sides of them.
fn two(alloc: Global) -> Result<(Held, BookSides), OutOfMemory>
    ensures { IfOk result (λ two. AreOf (tables_in two.1) two.0) }
{
    let (first, first_side) = Account::new(alloc, AcctId(0), Cents(10_000))?;
    let (second, second_side) = Account::new(alloc, AcctId(1), Cents(5))?;
    let accounts = vec![in alloc; first, second]?;
    let sides = vec![in alloc; first_side, second_side]?;
    Ok((Held::from_vec(accounts), BookSides::from_vec(sides)))
}

#[test]
fn holds_accounts(rt: HostRuntime) {
    let (mut held, _sides) = two(rt.alloc()).expect(&rt, "room");
    same(&rt, held.accounts().len(), 2);
    same(&rt, held.balance(AcctId(1)), Some(Cents(5)));
    same(&rt, held.balance(AcctId(2)), None);
    same(
        &rt,
        held.pop().map(|account| account.number()),
        Some(AcctId(1)),
    );
    same(
        &rt,
        held.pop().map(|account| account.number()),
        Some(AcctId(0)),
    );
    assert!(rt; held.pop().is_none());
}

/// An account that came to 6 cents and then to 7.
fn to_seven(alloc: Global, account: AcctId) -> Result<Balances, OutOfMemory>
    ensures { IfOk result (λ balances. AreNotNegative balances.given) }
{
    let mut balances = Balances::new(alloc);
    balances.reserve(2)?;
    balances.give(Balance {
        account,
        amount: Cents(6),
    });
    balances.give(Balance {
        account,
        amount: Cents(7),
    });
    Ok(balances)
}

/// The balances of both accounts once they came to these.
fn after(alloc: Global, given: &Balances) -> Result<(Option<Cents>, Option<Cents>), OutOfMemory>
    requires { AreNotNegative given.now.given }
{
    let (mut held, mut sides) = two(alloc)?;
    sides.meet(&mut held);
    sides.set_balances(&mut held, given);
    Ok((held.balance(AcctId(0)), held.balance(AcctId(1))))
}

#[test]
fn gives_balances(rt: HostRuntime) {
    let alloc = rt.alloc();
    let openings = (Some(Cents(10_000)), Some(Cents(5)));
    let none = Balances::new(alloc);
    same(&rt, after(alloc, &none).expect(&rt, "room"), openings);
    let balances = to_seven(alloc, AcctId(1)).expect(&rt, "room");
    same(&rt, balances.get(AcctId(1)), Some(Cents(7)));
    same(&rt, balances.get(AcctId(0)), None);
    let moved = (Some(Cents(10_000)), Some(Cents(7)));
    same(&rt, after(alloc, &balances).expect(&rt, "room"), moved);
}
