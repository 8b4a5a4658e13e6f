//! Accounts that are lent for an event.

ghost use Rattle.std.specs.Prelude.{◌≡◌, [], OnOk, OnErr};
ghost use Rattle.bank_model.specs.Rules.{named};
ghost use Rattle.bank_accounts.specs.Pool.{AreCheckedOut};
ghost use Rattle.bank_accounts.specs.HeldAccounts.{AreHeld, AreNamed};

use bank_accounts::{AccountPool, Held};
use bank_core::Book;
use bank_model::{Event, Printer};
use ofx_types::OutOfMemory;
use std::alloc::Global;

/// Checks out the accounts that an event names, and no others. Where memory is refused, all are in the pool again.
pub fn check_out<P: Printer>(
    alloc: Global,
    book: &Book<P>,
    pool: &mut AccountPool,
    held: &mut Held,
    event: &Event,
) -> Result<(), OutOfMemory>
    requires pool { AreCheckedOut book.now.tables pool.old held.old }
    requires none_held { held.old ≡ [] }
    ensures pool { AreCheckedOut book.now.tables pool.new held.new }
    ensures named { OnOk result (AreHeld held.new (named book.now.setup book.now.state event.now)) }
    ensures only { OnOk result (AreNamed held.new (named book.now.setup book.now.state event.now)) }
    ensures none_lent { OnErr result (held.new ≡ []) }
{
    let numbers = book.named(alloc, event)?;
    pool.check_out(held, &numbers)
}
