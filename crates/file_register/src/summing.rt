//! Sums of amounts.

ghost use Rattle.std.specs.Prelude.{◌≡◌, ◌<◌, ◌≤◌, ◌+◌, ◌*◌, ◌+ℤ◌, length, unsigned_abs};
ghost use Rattle.std.specs.List.{AllByRecursion};
ghost use Rattle.ofx_types.specs.AccountForm.{same_account};
ghost use Rattle.file_register.specs.Lines.{IsSoundLine};
ghost use Rattle.file_register.specs.Registers as rules;
ghost use Rattle.file_register.specs.Registers.{sum_with};

use crate::line::Line;
use ofx_types::AcctName;

/// Whether two names are one account's.
pub(crate) fn is_same_account(account: &AcctName, other: &AcctName) -> bool
    ensures { result ≡ same_account account.now other.now }
{
    account == other
}

/// The sum with one more line, of at most 500,000.
fn add(account: &AcctName, total: i64, line: &Line) -> i64
    requires small { unsigned_abs total < 500000 * 9999999999999 }
    requires amount { unsigned_abs line.now.amount.0 ≤ 9999999999999 }
    ensures sum { result ≡ sum_with account.now total line.now }
    ensures small { unsigned_abs result ≤ unsigned_abs total + 9999999999999 }
{
    if is_same_account(&line.account, account) {
        total + line.amount.0
    } else {
        total
    }
}

/// The sum of an account's amounts, in cents.
pub(crate) fn sum_of(account: &AcctName, lines: &[Line]) -> i64
    requires sound { AllByRecursion IsSoundLine lines.now }
    requires few { length lines.now ≤ 500000 }
    ensures { result ≡ rules.sum_of account.now lines.now }
{
    let mut total = 0;
    for line in lines {
        total = add(account, total, line);
    }
    total
}
