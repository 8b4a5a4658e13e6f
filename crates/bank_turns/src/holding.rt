//! Whether accounts are held.

ghost use Rattle.std.specs.Prelude.{◌↔◌, IsTrue, All};
ghost use Rattle.bank_accounts.specs.HeldAccounts.{IsHeld};

use bank_accounts::Held;
use ofx_types::AcctId;

/// Whether the accounts of all these numbers are held. Takes no memory.
pub fn has_all(held: &Held, numbers: &[AcctId]) -> bool
    ensures { IsTrue result ↔ All (IsHeld held.now) numbers.now }
{
    for number in numbers {
        if !has(held, *number) {
            return false;
        }
    }
    true
}

fn has(held: &Held, number: AcctId) -> bool
    ensures { IsTrue result ↔ IsHeld held.now number }
{
    held.balance(number).is_some()
}
