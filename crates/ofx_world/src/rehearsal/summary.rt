//! What came of a rehearsal.

ghost use Rattle.std.specs.Prelude.{◌≡◌, ◌+◌, [], length, IfOk};
ghost use Rattle.bank_transfers.specs.Together.{balances};
ghost use Rattle.ofx_world.specs.Rehearsal as rules;
ghost use Rattle.ofx_world.specs.Rehearsal.{came_of};

use crate::customer::Customer;
use crate::world::World;
use bank_accounts::Account;
use bank_core::Book;
use bank_model::Printer;
use client_store::Store;
use ofx_types::{Cents, OutOfMemory};
use std::alloc::Global;

/// What came of a rehearsal.
#[derive(Clone, Copy, Debug, PartialEq, Eq)]
pub struct Summary {
    /// The files that the clients made.
    pub files: u64,
    /// The events that happened at the bank.
    pub events: u64,
    /// The entries of its history.
    pub entries: u64,
    /// The balances of all accounts together.
    pub sum: Cents,
    /// The stores of all clients that are marked lost.
    pub lost: u64,
}

/// What came of the steps of a world.
pub(crate) fn summary_of(alloc: Global, world: World) -> Result<Summary, OutOfMemory>
    ensures { IfOk result (λ summary. summary ≡ came_of world) }
{
    let files = files_made(world.customers());
    let lost = stores_lost(world.customers());
    let events = world.event_count();
    let (entries, sum) = entries_and_sum(alloc, world)?;
    Ok(Summary {
        files: files?,
        events,
        entries,
        sum,
        lost: lost?,
    })
}

/// The number of entries of the bank's history, and the balances of all its accounts together.
fn entries_and_sum(alloc: Global, world: World) -> Result<(u64, Cents), OutOfMemory>
    ensures entries { IfOk result (λ reported. reported.0 ≡ length world.server.state.entries) }
    ensures sum { IfOk result (λ reported. reported.1.0 ≡ balances world.server.setup world.server.state.entries) }
{
    match world.into_parts(alloc) {
        Ok((book, accounts)) => reported_of(&book, &accounts),
        Err(full) => Err(full),
    }
}

/// The number of entries of a book's history, and the balances of all accounts, which are lent, together.
fn reported_of<P: Printer>(
    book: &Book<P>,
    accounts: &[Account],
) -> Result<(u64, Cents), OutOfMemory>
    ensures entries { IfOk result (λ reported. reported.0 ≡ length book.now.state.entries) }
    ensures sum { IfOk result (λ reported. reported.1.0 ≡ rules.sum_among accounts.now) }
{
    let sum = sum_of(accounts)?;
    Ok((entries_of(book), sum))
}

/// The number of entries.
fn entries_of<P: Printer>(book: &Book<P>) -> u64
    ensures { result ≡ length book.now.state.entries }
{
    match book.next_number() {
        Some(number) => number - 1,
        None => book.setup().entries,
    }
}

/// A number with another added to it. What comes to more than 64 bits isn't held by any memory.
fn added(number: u64, more: u64) -> Result<u64, OutOfMemory>
    ensures { IfOk result (λ sum. sum ≡ number + more) }
{
    match number.checked_add(more) {
        Some(sum) => Ok(sum),
        None => Err(OutOfMemory),
    }
}

/// The files that the clients made. The first has the number 1.
#[tactic(auto, using(crate::proofs::Sums::files_more))]
fn files_made(customers: &[Customer]) -> Result<u64, OutOfMemory>
    ensures { IfOk result (λ count. count ≡ rules.files_made customers.now) }
{
    let mut count = 0;
    for customer in customers {
        count = added(count, customer.client().next().saturating_sub(1))?;
    }
    Ok(count)
}

#[tactic(auto, using(crate::proofs::Sums::stores_more))]
fn stores_lost(customers: &[Customer]) -> Result<u64, OutOfMemory>
    ensures { IfOk result (λ count. count ≡ rules.stores_lost customers.now) }
{
    let mut count = 0;
    for customer in customers {
        count = added(count, lost_among(customer.client().stores())?)?;
    }
    Ok(count)
}

#[tactic(auto, using(crate::proofs::Sums::lost_one, crate::proofs::Sums::lost_none))]
fn lost_among(stores: &[Store]) -> Result<u64, OutOfMemory>
    ensures { IfOk result (λ count. count ≡ rules.lost_among stores.now) }
{
    let mut count = 0;
    for store in stores {
        if store.lost() {
            count = added(count, 1)?;
        }
    }
    Ok(count)
}

/// All balances together.
#[tactic(auto, using(crate::proofs::Sums::sum_more))]
fn sum_of(accounts: &[Account]) -> Result<Cents, OutOfMemory>
    ensures { IfOk result (λ sum. sum.0 ≡ rules.sum_among accounts.now) }
{
    let mut sum = 0i64;
    for account in accounts {
        sum = match sum.checked_add(account.balance().0) {
            Some(more) => more,
            None => return Err(OutOfMemory),
        };
    }
    Ok(Cents(sum))
}
