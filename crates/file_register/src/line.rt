//! A line of a register, and how it compares with others.

ghost use Rattle.std.specs.Prelude.{◌≡◌};
ghost use Rattle.std.specs.Ordering.{nat_cmp};
ghost use Rattle.std.specs.Cmp.Lexicographic.{slice_cmp};
ghost use Rattle.file_register.specs.Order.{account_cmp, line_cmp};

use ofx_types::{AcctName, Cents, Duplicate, Moment, OutOfMemory};
use std::cmp::Ordering;

/// A transaction of an account, as a statement lists it (OFX 1.6, "Statement Transaction").
#[derive(Debug, Drop, PartialEq, Eq)]
pub struct Line {
    /// The account.
    pub account: AcctName,
    /// The bank's number of the transaction (FITID), which names it within its account.
    pub fitid: u64,
    /// When it was posted (DTPOSTED).
    pub posted: Moment,
    /// The amount (TRNAMT), negative where money leaves the account.
    pub amount: Cents,
}

impl Duplicate for Line {
    fn copy(&self) -> Result<Line, OutOfMemory> {
        Ok(Line {
            account: self.account.copy()?,
            fitid: self.fitid,
            posted: self.posted,
            amount: self.amount,
        })
    }
}

impl Line {
    /// How the line compares with another in a register's order: by account, then by FITID.
    #[tactic(auto, unfolding(crate::specs::Order::line_cmp))]
    pub(crate) fn compare(&self, other: &Line) -> Ordering
        ensures { result ≡ line_cmp self.now other.now }
    {
        match compare_accounts(&self.account, &other.account) {
            Ordering::Equal => self.fitid.cmp(&other.fitid),
            order => order,
        }
    }
}

/// How accounts compare: by bank, then by number, then by kind.
#[tactic(auto, unfolding(crate::specs::Order::account_cmp))]
pub(crate) fn compare_accounts(one: &AcctName, other: &AcctName) -> Ordering
    ensures { result ≡ account_cmp one.now other.now }
{
    match compare_bytes(one.bank.as_bytes(), other.bank.as_bytes()) {
        Ordering::Equal => match compare_bytes(one.number.as_bytes(), other.number.as_bytes()) {
            Ordering::Equal => one.kind.number().cmp(&other.kind.number()),
            order => order,
        },
        order => order,
    }
}

/// How bytes compare: by the first that differs, and then by length.
fn compare_bytes(one: &[u8], other: &[u8]) -> Ordering
    ensures { result ≡ slice_cmp nat_cmp one.now other.now }
{
    match one.partial_cmp(&other) {
        Some(order) => order,
        None => unreachable!(),
    }
}
