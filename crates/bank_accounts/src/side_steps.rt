//! What the seats of an account's two sides do together at its table.

ghost use Rattle.std.specs.Prelude.{◌≡◌, [], ◌<◌, ◌^◌};
ghost use Rattle.bank_accounts.specs.AccountTable.{AreSides, HasBookSide, HasAccountSide, amount_in, both_sides, book_side, account_side};

use crate::side_rule::{Change, Compare, Hand, Meet, Part, SharedTable, Side};

// The book's seat gets the account's side.
fn bring_together(table: &SharedTable, book: &mut Side, account: &mut Side)
    requires { AreSides table.now.table_id book.old account.old }
    ensures { (book.new.table_id ≡ book.old.table_id) × (book.new.me ≡ (both_sides (amount_in book.old.me.0.book) (amount_in account.old.me.0.account), [])) }
{
    let theirs = table.split_seat::<Hand>(account);
    table.join_seat::<Meet>(book, theirs);
}

/// Shows that both sides have one amount.
pub fn compare(table: &SharedTable, book: &mut Side, account: &mut Side)
    requires { AreSides table.now.table_id book.old account.old }
    ensures one_amount { amount_in book.old.me.0.book ≡ amount_in account.old.me.0.account }
    ensures book { (book.new.table_id ≡ book.old.table_id) × (book.new.me ≡ book.old.me) }
    ensures account { (account.new.table_id ≡ account.old.table_id) × (account.new.me ≡ account.old.me) }
{
    bring_together(table, book, account);
    table.load::<Compare>(book, 0);
    *account = table.split_seat::<Part>(book);
}

/// Gives both sides another amount.
pub fn change(table: &SharedTable, book: &mut Side, account: &mut Side, amount: u64)
    requires { AreSides table.now.table_id book.old account.old }
    ensures book { (book.new.table_id ≡ book.old.table_id) × (book.new.me ≡ (book_side amount, [])) }
    ensures account { (account.new.table_id ≡ account.old.table_id) × (account.new.me ≡ (account_side amount, [])) }
{
    bring_together(table, book, account);
    table.store::<Change>(book, 0, amount);
    *account = table.split_seat::<Part>(book);
}
