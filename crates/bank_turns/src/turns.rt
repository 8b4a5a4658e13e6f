//! Accounts that are taken together, in the order of their numbers.

ghost use Rattle.std.specs.Prelude.{◌≡◌, map, IfOk};
ghost use Rattle.bank_accounts.specs.Sides.{AreOf};
ghost use Rattle.bank_turns.specs.Taking.{MayBeTaken, turns_of};

use bank_accounts::{AccountRow, Held, Turn};
use ofx_types::{AcctId, OutOfMemory};
use std::alloc::Global;
use std::marker::Model;
use std::sync::Wait;

/// The turns of accounts that are out together, in their order. It has no `Drop`: only `give_all` ends it.
///
/// ```rust
/// use bank_accounts::{Account, AccountRow};
/// use bank_turns::{give_all, take_all};
/// use ofx_types::{AcctId, Cents};
///
/// let alloc = rt.alloc();
/// let (first, _side) = Account::new(alloc, AcctId(0), Cents(10_000)).expect(&rt, "room");
/// let (second, _side) = Account::new(alloc, AcctId(1), Cents(5_000)).expect(&rt, "room");
/// let accounts = vec![in alloc; first, second].expect(&rt, "room");
/// let row = AccountRow::new(alloc, accounts).expect(&rt, "room");
/// let Ok((held, turns)) = take_all(&row, &rt, alloc, &[AcctId(1)]) else {
///     panic!(rt; "room");
/// };
/// assert!(rt; held.balance(AcctId(1)) == Some(Cents(5_000)) && held.balance(AcctId(0)) == None);
/// give_all(&row, held, turns);
/// ```
pub struct Turns {
    turns: Vec<Turn>,
}

impl Model for Turns {
    ghost use Rattle.std.specs.Prelude.{List};
    ghost use Rattle.bank_accounts.specs.Row.{TurnView};

    ghost Value = { List TurnView };

    ghost view = { λ t. t.turns.items };
}

/// Takes the accounts of these numbers one after another, with their turns, each as soon as it is home. All memory is taken before
/// the first account.
///
/// The numbers rise, and the row has an account of each.
pub fn take_all<R: Wait>(
    row: &AccountRow,
    rt: &R,
    alloc: Global,
    numbers: &[AcctId],
) -> Result<(Held, Turns), OutOfMemory>
    requires { MayBeTaken row.now.tables numbers.now }
    ensures numbers { IfOk result (λ taken. map (λ account. account.number) taken.0 ≡ numbers.now) }
    ensures own { IfOk result (λ taken. AreOf row.now.tables taken.0) }
    ensures turns { IfOk result (λ taken. taken.1 ≡ turns_of row.now.row taken.0) }
{
    let mut accounts = Vec::with_capacity(alloc, numbers.len())?;
    let mut turns = Vec::with_capacity(alloc, numbers.len())?;
    for number in numbers {
        let (account, turn) = row.take(rt, *number);
        accounts.push_reserved(account);
        turns.push_reserved(turn);
    }
    Ok((Held::from_vec(accounts), Turns { turns }))
}

/// Gives accounts back that were taken together, and ends their turns. Takes no memory and doesn't wait.
///
/// The turns are of this row, and the accounts are the row's accounts of the turns' numbers.
pub fn give_all(row: &AccountRow, held: Held, turns: Turns)
    requires own { AreOf row.now.tables held }
    requires turns { turns ≡ turns_of row.now.row held }
{
    let mut held = held;
    let Turns { mut turns } = turns;
    while let Some(account) = held.pop() {
        let turn = turns.take_last();
        row.give(account, turn);
    }
    turns.destroy_empty();
}
