//! The posted transfers of a bank in the order of posting, and which of them are an account's.

ghost use Rattle.std.specs.Prelude.{◌≡◌, ℕ, ◌+◌, ◌-◌, ◌<◌, ◌≤◌, ◌∷◌, ◌++◌, ◌==◌, ◌&&◌, [], true, Some, length, reverse, if◌then◌else◌, IfOk, OnOk};
ghost use Rattle.std.specs.List.{All, find};
ghost use Rattle.std.specs.HashMap.{spare};
ghost use Rattle.std.specs.Option.{option_copied, option_map};
ghost use Rattle.std.specs.Map.{lookup};
ghost use Rattle.bank_model.specs.Ledger as ledger;
ghost use Rattle.bank_model.specs.Ledger.{Posting, lines_of, is_within_period, line_for};
ghost use Rattle.bank_transfers.specs.Chain as chain;
ghost use Rattle.bank_transfers.specs.Chain.{touches, last_by, index_or_none, posting_of, postings_of, PassesAt, IsLinked, AreLinked};
ghost use Rattle.bank_transfers.specs.Lines.{lines_for};
ghost use Rattle.bank_transfers.specs.PostingsView.{IsPosted};
ghost use Rattle.bank_transfers.specs.TransfersView.{IsWithinAmounts};

use crate::key::key_of;
use crate::posted::{is_about, is_within, part};
use crate::skip_link::SkipLink;
use ofx_types::{AcctName, Lines, Moment, OutOfMemory, Sequence, StatementLine, TransferRow};
use std::alloc::Global;
use std::collections::HashMap;
use std::marker::Model;

/// A posted transfer: the number of the entry that posted it (FITID), its row, and how it leads back to earlier postings that are
/// about accounts of the keys of its source and of its destination.
#[derive(Drop)]
pub(crate) struct Linked {
    number: u64,
    row: TransferRow,
    from_link: SkipLink,
    to_link: SkipLink,
}

impl Linked {
    /// Whether it went out of the account or into it, at a moment of the period. A period has its first moment and not
    /// its last; without a last it goes on.
    fn is_listed(&self, name: &AcctName, period: (Moment, Option<Moment>)) -> bool
        ensures { result
            ≡ (ledger.is_about name.now (posting_of self.now)
            && is_within_period period.0 period.1 (posting_of self.now)) }
    {
        is_about(&self.row, name) && is_within(self.row.stamp, period)
    }

    /// What a statement of the account tells of it.
    fn line(&self, name: &AcctName) -> StatementLine
        requires { IsWithinAmounts self.now.row }
        ensures { result ≡ line_for name.now (posting_of self.now) }
    {
        StatementLine {
            number: self.number,
            posted: self.row.stamp,
            amount: part(&self.row, name),
        }
    }

    /// How it leads back to earlier postings of a key that is its source's or its destination's.
    fn link(&self, key: u64) -> SkipLink
        ensures { result ≡ (if chain.key_of self.now.row.from == key then self.now.from_link else self.now.to_link) }
    {
        if key_of(&self.row.from) == key {
            self.from_link
        } else {
            self.to_link
        }
    }
}

/// The posted transfers, with the position, from 1, of the last one of each key of an account, and of each transfer.
pub(crate) struct Postings {
    held: Vec<Linked>,
    accounts: HashMap<u64, usize>,
    ids: HashMap<u64, usize>,
    // for how many more there is room
    left: usize,
}

impl Model for Postings {
    ghost use Rattle.std.specs.Prelude.{◌+◌, ◌*◌, ◌≤◌, vec_len, vec_capacity};
    ghost use Rattle.std.specs.List.{All};
    ghost use Rattle.std.specs.HashMap.{spare};
    ghost use Rattle.bank_transfers.specs.Chain.{postings_of, touches, is_of, AreLinked, HasLasts};
    ghost use Rattle.bank_transfers.specs.PostingsView.{PostingsView, IsPosted};

    ghost Value = { PostingsView };

    ghost view = { λ p. record {
      postings = postings_of p.held.items;
      room = p.left;
    } };

    ghost invariant = { λ p. All IsPosted (postings_of p.held.items) × AreLinked p.held.items
        × HasLasts touches p.accounts.entries (postings_of p.held.items) × HasLasts is_of p.ids.entries (postings_of p.held.items)
        × (vec_len p.held + p.left ≤ vec_capacity p.held) × (2 * p.left ≤ spare p.accounts) × (p.left ≤ spare p.ids) };
}

impl Drop for Postings {
    fn drop(self) {
        let Postings {
            held: _,
            accounts: _,
            ids: _,
            left: _,
        } = self;
    }
}

impl Postings {
    /// No transfer is posted. Takes no memory.
    pub(crate) fn new(alloc: Global) -> Postings
        ensures { result.postings ≡ [] }
    {
        Postings {
            held: Vec::new(alloc),
            accounts: HashMap::new(alloc),
            ids: HashMap::new(alloc),
            left: 0,
        }
    }

    /// Makes room for so many more postings.
    pub(crate) fn reserve(&mut self, postings: u32) -> Result<(), OutOfMemory>
        ensures postings { self.new.postings ≡ self.old.postings }
        ensures room { OnOk result (postings ≤ self.new.room) }
        ensures room_stays { self.old.room ≤ self.new.room }
    {
        self.held.reserve(postings as usize)?;
        self.accounts.reserve(2 * postings as usize)?;
        self.ids.reserve(postings as usize)?;
        if self.left < postings as usize {
            self.left = postings as usize;
        }
        Ok(())
    }

    /// Puts a posting after all others. There is room for it, and it takes no memory.
    pub(crate) fn post(&mut self, number: u64, row: TransferRow)
        requires room { 0 < self.old.room }
        requires amount { IsWithinAmounts row }
        requires posted { ledger.is_posted row.code ≡ true }
        ensures postings { self.new.postings ≡ self.old.postings ++ record { number = number; row = row } ∷ [] }
        ensures room { self.new.room + 1 ≡ self.old.room }
    {
        let count = self.held.len();
        let index = count + 1;
        let from = key_of(&row.from);
        let to = key_of(&row.to);
        let id = row.id;
        let from_link = link_to(&self.held, last_at(&self.accounts, from), from, row.stamp);
        let to_link = link_to(&self.held, last_at(&self.accounts, to), to, row.stamp);
        let linked = Linked {
            number,
            row,
            from_link,
            to_link,
        };
        self.held.push_reserved(linked);
        set_index(&mut self.accounts, from, index);
        set_index(&mut self.accounts, to, index);
        set_index(&mut self.ids, id, index);
        self.left -= 1;
    }

    /// The row of the last posting of the transfer with this id, lent.
    pub(crate) fn row(&self, id: u64) -> Option<&TransferRow>
        ensures { option_copied result
            ≡ option_map (λ posted. posted.row) (find (λ posted. posted.row.id == id) (reverse self.now.postings)) }
    {
        let index = last_at(&self.ids, id);
        if index == 0 {
            return None;
        }
        let linked = &self.held[index - 1];
        Some(&linked.row)
    }

    /// What a statement of the account tells of a period.
    ///
    /// It goes back from the account's last posting: to the one before it, or over many at once where none of them is in the
    /// period.
    pub(crate) fn lines(
        &self,
        alloc: Global,
        name: &AcctName,
        period: (Moment, Option<Moment>),
    ) -> Result<Lines, OutOfMemory>
        ensures { IfOk result (λ lines. lines ≡ lines_of name.now period.0 period.1 self.now.postings) }
    {
        let key = key_of(name);
        let mut lines = Vec::new(alloc);
        let mut index = last_at(&self.accounts, key);
        while index > 0 {
            let linked = &self.held[index - 1];
            push_listed(&mut lines, linked, name, period)?;
            index = linked.link(key).next(period);
        }
        lines.reverse();
        Ok(Sequence::from_vec(lines))
    }
}

/// How the posting at a position, from 1, leads back to earlier ones of a key that is its source's or its destination's.
fn link_at(held: &[Linked], index: usize, key: u64) -> SkipLink
    requires linked { AreLinked held.now }
    requires some { 0 < index }
    requires bound { index ≤ length held.now }
    requires passes { PassesAt (touches key) index (postings_of held.now) }
    ensures { IsLinked key result (index - 1) (postings_of held.now) }
{
    held[index - 1].link(key)
}

/// How a new posting with this stamp leads back to those of a key before it, of which the last is at `before`, or 0.
///
/// Where that one's skip, and the skip from where it lands, are over equally many postings, the new one skips over both and itself.
/// So skips are over 1, 3, 7, 15 and so on postings of the key, and a few of them lead to any position.
fn link_to(held: &[Linked], before: usize, key: u64, stamp: Moment) -> SkipLink
    requires linked { AreLinked held.now }
    requires before { before ≡ last_by (touches key) (postings_of held.now) }
    ensures { (posting : Posting) → posting.row.stamp ≡ stamp
        → IsLinked key result (length held.now) (postings_of held.now ++ posting ∷ []) }
{
    if before == 0 {
        return SkipLink::to(before, stamp);
    }
    let last = link_at(held, before, key);
    if last.skip == 0 {
        return SkipLink::to(before, stamp);
    }
    let earlier = link_at(held, last.skip, key);
    if last.rank != earlier.rank {
        return SkipLink::to(before, stamp);
    }
    SkipLink::over(before, stamp, last, earlier)
}

/// The position under a key, or 0 where there is none.
fn last_at(indices: &HashMap<u64, usize>, key: u64) -> usize
    ensures { result ≡ index_or_none (lookup (λ k. key == k) indices.now.entries) }
{
    match indices.get(&key) {
        Some(index) => *index,
        None => 0,
    }
}

/// Sets the position under a key. There is room for it, and it takes no memory.
fn set_index(indices: &mut HashMap<u64, usize>, key: u64, index: usize)
    requires { 0 < spare indices.old }
    ensures indices { (other : ℕ) → lookup (λ k. other == k) indices.new.entries
        ≡ (if key == other then Some index else lookup (λ k. other == k) indices.old.entries) }
    ensures room { spare indices.old ≤ spare indices.new + 1 }
{
    let set: Result<_, _> = indices.insert(key, index);
    let _before = set.unwrap();
}

/// Puts the line of a posting after the lines, where a statement of the account tells of it.
fn push_listed(
    lines: &mut Vec<StatementLine>,
    linked: &Linked,
    name: &AcctName,
    period: (Moment, Option<Moment>),
) -> Result<(), OutOfMemory>
    requires { IsWithinAmounts linked.now.row }
    ensures { OnOk result (lines.new.items
        ≡ lines.old.items ++ lines_for name.now period.0 period.1 (posting_of linked.now)) }
{
    if linked.is_listed(name, period) {
        lines.push(linked.line(name))?;
    }
    Ok(())
}
