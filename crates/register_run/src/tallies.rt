//! The accounts of a register, with the number and the sum of their lines.

ghost use Rattle.std.specs.Prelude.{◌≡◌, ◌<◌, ◌≤◌, ◌+◌, ◌*◌, ◌++◌, length, unsigned_abs, IfOk, OnOk};
ghost use Rattle.std.specs.List.{AllByRecursion, flat_map};
ghost use Rattle.ofx_types.specs.AccountForm.{same_account};
ghost use Rattle.file_register.specs.Lines.{IsSoundLine};
ghost use Rattle.file_register.specs.Registers.{IsRegister};
ghost use Rattle.register_run.specs.Lines.{account_line};
ghost use Rattle.register_run.specs.Accounts as rules;
ghost use Rattle.register_run.specs.Accounts.{with_line, tallies_from, accounts_text};

use crate::lines::put_tally;
use file_register::Line;
use ofx_types::{AcctName, Cents, Duplicate, OutOfMemory};
use std::alloc::Global;

/// How many lines an account has, and their sum.
#[derive(Drop)]
pub struct Tally {
    /// The account.
    pub account: AcctName,
    /// How many lines are its own.
    pub count: u64,
    /// The sum of their amounts.
    pub sum: Cents,
}

/// Whether two names are one account's.
fn is_same_account(account: &AcctName, other: &AcctName) -> bool
    ensures { result ≡ same_account account.now other.now }
{
    account == other
}

/// The tally of a line alone.
fn tally_of(line: &Line) -> Result<Tally, OutOfMemory>
    ensures { IfOk result (λ tally. tally ≡ rules.tally_of line.now) }
{
    Ok(Tally {
        account: line.account.copy()?,
        count: 1,
        sum: line.amount,
    })
}

/// A tally with one more line, of at most 500,000.
fn add(tally: Tally, line: &Line) -> Tally
    requires count { tally.count < 500000 }
    requires sum { unsigned_abs tally.sum.0 ≤ tally.count * 9999999999999 }
    requires amount { unsigned_abs line.now.amount.0 ≤ 9999999999999 }
    ensures sum { result ≡ with_line tally line.now }
    ensures small { unsigned_abs result.sum.0 ≤ result.count * 9999999999999 }
{
    Tally {
        account: tally.account,
        count: tally.count + 1,
        sum: Cents(tally.sum.0 + line.amount.0),
    }
}

/// Appends the lines of an account, of which a first line was counted, and of those after it.
fn put_tallies(first: Tally, lines: &[Line], out: &mut Vec<u8>) -> Result<(), OutOfMemory>
    requires sound { AllByRecursion IsSoundLine lines.now }
    requires few { length lines.now < 500000 }
    requires one { first.count ≡ 1 }
    requires small { unsigned_abs first.sum.0 ≤ 9999999999999 }
    ensures { OnOk result (out.new.items ≡ out.old.items ++ flat_map account_line (tallies_from first lines.now)) }
{
    let mut tally = first;
    for line in lines {
        if is_same_account(&line.account, &tally.account) {
            tally = add(tally, line);
        } else {
            put_tally(&tally, out)?;
            tally = tally_of(line)?;
        }
    }
    put_tally(&tally, out)
}

/// The lines of all accounts of a register.
#[tactic(auto, unfolding(crate::specs::Accounts::accounts_text))]
pub(crate) fn accounts_text(alloc: Global, lines: &[Line]) -> Result<Vec<u8>, OutOfMemory>
    requires { IsRegister lines.now }
    ensures { IfOk result (λ text. text.items ≡ accounts_text lines.now) }
{
    let mut out = Vec::new(alloc);
    if let [line, rest @ ..] = lines {
        put_tallies(tally_of(line)?, rest, &mut out)?;
    }
    Ok(out)
}
