//! What a statement tells of the row of a posted transfer.

ghost use Rattle.std.specs.Prelude.{◌≡◌, ◌≤◌, ◌&&◌, true, if◌then◌else◌, pos, ◌-ℤ◌, int_le, unsigned_abs};
ghost use Rattle.ofx_types.specs.AccountForm.{same_account};
ghost use Rattle.bank_model.specs.Ledger as ledger;
ghost use Rattle.bank_model.specs.Ledger.{is_before_end};
ghost use Rattle.bank_transfers.specs.TransfersView.{IsWithinAmounts};

use ofx_types::{AcctName, Cents, Moment, TransferRow};

/// Whether the transfer goes out of the account or into it.
pub(crate) fn is_about(row: &TransferRow, name: &AcctName) -> bool
    ensures { result ≡ (if same_account row.now.from name.now then true else same_account row.now.to name.now) }
{
    is_same(&row.from, name) || is_same(&row.to, name)
}

fn is_same(account: &AcctName, name: &AcctName) -> bool
    ensures { result ≡ same_account account.now name.now }
{
    account == name
}

/// Whether the moment is in the period.
pub(crate) fn is_within(at: Moment, period: (Moment, Option<Moment>)) -> bool
    ensures { result ≡ (int_le period.0.0 at.0 && is_before_end period.1 at.0) }
{
    period.0.0 <= at.0 && is_before(at, period.1)
}

/// Whether the moment is before the end of a period, where it ends.
pub(crate) fn is_before(at: Moment, end: Option<Moment>) -> bool
    ensures { result ≡ is_before_end end at.0 }
{
    match end {
        Some(end) => at.0 < end.0,
        None => true,
    }
}

/// What the transfer brings to the account, less what it takes from it.
pub(crate) fn part(row: &TransferRow, name: &AcctName) -> Cents
    requires { IsWithinAmounts row.now }
    ensures { result ≡ record { 0 = ledger.part name.now row.now } }
{
    let into = amount_where(is_same(&row.to, name), row);
    let out = amount_where(is_same(&row.from, name), row);
    difference(into, out)
}

/// The amount of the transfer where it counts, and otherwise 0.
fn amount_where(holds: bool, row: &TransferRow) -> Cents
    requires { IsWithinAmounts row.now }
    ensures amount { result.0 ≡ (if holds then row.now.amount.0 else pos 0) }
    ensures within { unsigned_abs result.0 ≤ 9999999999999 }
{
    if holds { row.amount } else { Cents(0) }
}

/// The one amount less the other, both within the limit.
fn difference(amount: Cents, less: Cents) -> Cents
    requires amount { unsigned_abs amount.0 ≤ 9999999999999 }
    requires less { unsigned_abs less.0 ≤ 9999999999999 }
    ensures { result ≡ record { 0 = amount.0 -ℤ less.0 } }
{
    Cents(amount.0 - less.0)
}
