//! What a seat does at the table of the row: it takes an account's slot, and gives it back.

ghost use Rattle.std.specs.Prelude.{◌≡◌, ◌<◌, [], ◌∷◌, length, None, IfSome};
ghost use Rattle.bank_accounts.specs.Row.{IsRow};
ghost use Rattle.bank_accounts.specs.Sides.{IsOf, tables_of};

use crate::account::Account;
use crate::row_rule::{Give, RowSeat, SharedRow, Take};

/// Takes the account of that number, with the seat that has its slot. None where the account is out.
pub fn try_take(table: &SharedRow, number: usize) -> Option<(Account, RowSeat)>
    requires row { IsRow table.now.table_id (tables_of table.now.key.value.items) }
    requires known { number < length (tables_of table.now.key.value.items) }
    ensures account { IfSome result (λ taken. (taken.0.number.0 ≡ number) × IsOf (tables_of table.now.key.value.items) taken.0) }
    ensures seat { IfSome result (λ taken. (taken.1.table_id ≡ table.now.table_id) × (taken.1.me.1 ≡ (number, None) ∷ [])) }
{
    let (found, mut seat) = table.swap_new_seat::<Take>(number, 1);
    if found == 0 {
        let account = table.exchange(&mut seat, number, None).unwrap();
        return Some((account, seat));
    }
    None
}

/// Puts an account into the slot that the seat has, and gives the slot back.
pub fn put_back(table: &SharedRow, number: usize, account: Account, mut seat: RowSeat)
    requires row { IsRow table.now.table_id (tables_of table.now.key.value.items) }
    requires seat { (seat.table_id ≡ table.now.table_id) × (seat.me.1 ≡ (number, None) ∷ []) }
    requires account { (account.number.0 ≡ number) × IsOf (tables_of table.now.key.value.items) account }
{
    let None = table.exchange(&mut seat, number, Some(account)) else {
        unreachable!()
    };
    table.store::<Give>(&mut seat, number, 0);
}
