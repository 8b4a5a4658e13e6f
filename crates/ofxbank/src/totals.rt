//! What is counted of a bank that opened from its records.

ghost use Rattle.std.specs.Prelude.{◌≡◌, false};

use crate::setup_file::SetupFile;
use bank_accounts::Account;
use bank_core::Book;
use bank_opening::{Stop, opening_stop, report_of_end};
use bank_replay::reopen;
use ofx_file::OfxPrinter;
use ofx_ports::{FetchFault, Keeper};
use ofx_types::{Cents, Moment, OutOfMemory, Told};
use ofx_values::{print_amount, print_moment};
use std::alloc::Global;
use std::hash::RandomState;

/// The first and the last second of the years 1900 to 9999.
const FIRST: i64 = -2_208_988_800;

const LAST: i64 = 253_402_300_799;

/// The numbers of a bank.
#[derive(Clone, Copy, Debug)]
pub struct Totals {
    /// Its records.
    pub records: u64,
    /// Its entries.
    pub entries: u64,
    /// The greatest moment of a record.
    pub last: i64,
    /// All its balances together.
    pub sum: i64,
}

/// The numbers of the bank that opens from the records of this keeper. Where it doesn't, the end of a run over them.
pub fn totals_of<K: Keeper>(
    alloc: Global,
    keys: RandomState,
    keeper: &mut K,
    file: &SetupFile,
) -> Result<Totals, Told>
    requires { K.unsettled keeper.old ≡ false }
{
    match last_moment(alloc, keeper) {
        Ok(last) => opened(alloc, keys, keeper, file, last),
        Err(stop) => Err(report_of_end(Err(stop))),
    }
}

/// The numbers of the bank that opens, with the greatest moment of its records.
fn opened<K: Keeper>(
    alloc: Global,
    keys: RandomState,
    keeper: &mut K,
    file: &SetupFile,
    last: i64,
) -> Result<Totals, Told>
    requires { K.unsettled keeper.old ≡ false }
{
    let records = keeper.len();
    match file.setup(alloc) {
        Ok(setup) => match reopen(alloc, keys, keeper, setup, OfxPrinter) {
            Ok((book, accounts)) => Ok(Totals {
                records,
                entries: entries_of(&book),
                last,
                sum: sum_of(&accounts),
            }),
            Err(fault) => Err(report_of_end(Err(opening_stop(fault)))),
        },
        Err(stop) => Err(report_of_end(Err(stop))),
    }
}

/// How many entries a bank has.
fn entries_of(book: &Book<OfxPrinter>) -> u64 {
    match book.next_number() {
        Some(number) => number.saturating_sub(1),
        None => book.setup().entries,
    }
}

/// All balances together.
fn sum_of(accounts: &[Account]) -> i64 {
    let mut sum = 0i64;
    for account in accounts {
        sum = sum.saturating_add(account.balance().0);
    }
    sum
}

/// The greatest moment of a record, in seconds since 1970. The first of all where there is no record.
pub fn last_moment<K: Keeper>(alloc: Global, keeper: &mut K) -> Result<i64, Stop>
    requires { K.unsettled keeper.old ≡ false }
    ensures settled { K.unsettled keeper.new ≡ false }
{
    let mut rec = Vec::new(alloc);
    let mut last = FIRST;
    for before in 0..keeper.len() {
        match keeper.fetch(before + 1, &mut rec) {
            Ok(()) => last = last.max(moment_of(rec.as_slice())),
            Err(FetchFault::Failed) => return Err(Stop::KeeperFailed),
            Err(FetchFault::OutOfMemory) => return Err(Stop::NoMemory),
        }
    }
    Ok(last)
}

/// The moment of a record. The first of all where it has none.
fn moment_of(rec: &[u8]) -> i64 {
    match rec {
        [_, _, a, b, c, d, e, f, g, h, ..] => {
            i64::from_be_bytes([*a, *b, *c, *d, *e, *f, *g, *h])
        }
        _ => FIRST,
    }
}

/// The day of a moment in seconds since 1970, as `YYYYMMDD`.
pub fn day_text(alloc: Global, seconds: i64) -> Result<String, OutOfMemory> {
    let moment = seconds.clamp(FIRST, LAST);
    let mut text = Vec::new(alloc);
    print_moment(Moment(moment), &mut text)?;
    text.truncate(8);
    as_text(text)
}

/// Cents as an amount.
pub fn amount_text(alloc: Global, cents: i64) -> Result<String, OutOfMemory> {
    let mut text = Vec::new(alloc);
    print_amount(Cents(cents), &mut text)?;
    as_text(text)
}

fn as_text(bytes: Vec<u8>) -> Result<String, OutOfMemory> {
    match String::from_utf8(bytes) {
        Ok(text) => Ok(text),
        Err(_) => Err(OutOfMemory),
    }
}
