//! What an event adds to the state of a bank, before the ledger takes it in.

ghost use Rattle.std.specs.Prelude.{◌≡◌, ◌∷◌, ◌++◌, ◌||◌, [], Some, IfOk, OnOk, OnErr, ◌<◌, length, reverse, vec_len, vec_capacity};
ghost use Rattle.std.specs.List.{find};
ghost use Rattle.std.specs.Option.{option_copied, option_or};
ghost use Rattle.bank_model.specs.Ledger.{row_in, row_of, posting_of, moved, lines_of};
ghost use Rattle.bank_model.specs.Ledger as rules;
ghost use Rattle.bank_model.specs.Models.{model_of, is_model_dropped};
ghost use Rattle.bank_model.specs.Once.{is_used};
ghost use Rattle.bank_accounts.specs.BalancesView.{amount_given};
ghost use Rattle.bank_transfers.specs.TransfersView.{IsWithinAmounts};
ghost use Rattle.bank_ledger.specs.declared.row_change.RowChange.TheVariants.{Row};
ghost use Rattle.bank_ledger.specs.Changes.{IsKnown, has_row, has_model, row_given_by, row_drafted, model_drafted, is_cancelled_in};
ghost use Rattle.bank_ledger.specs.Postings.{HoldOneMore, HoldTheSame};
ghost use Rattle.bank_ledger.specs.DraftView.{with_added};

use crate::ledger::Ledger;
use crate::row_change::RowChange;
use bank_accounts::{Balance, Balances};
use bank_model::Entry;
use bank_transfers::Transfers;
use ofx_types::{
    AcctId, AcctName, Cents, Day, Duplicate, Lines, ModelRow, Moment, OutOfMemory, TransferRow,
    TrnUid, UserId, XferCode,
};
use once_records::Uids;
use std::alloc::Global;
use std::marker::Model;

/// What an event adds to the state of a bank. Due work uses up no uid, so its user is never looked at.
pub struct Additions {
    user: UserId,
    at: Moment,
    day: Day,
    entries: Vec<Entry>,
    row_changes: Vec<RowChange>,
    uids: Uids,
    balances: Balances,
    postings: Transfers,
}

impl Model for Additions {
    ghost use Rattle.bank_ledger.specs.DraftView.{AddedView};
    ghost use Rattle.bank_ledger.specs.Postings.{HoldsPostings};

    ghost Value = { AddedView };

    ghost view = { λ a. record {
      user = a.user;
      at = a.at;
      day = a.day;
      entries = a.entries.items;
      row_changes = a.row_changes.items;
      uids = a.uids;
      balances = a.balances.given;
    } };

    ghost invariant = { λ a. HoldsPostings a.postings a.entries.items };
}

impl Drop for Additions {
    fn drop(self) {
        let Additions {
            user: _,
            at: _,
            day: _,
            entries: _,
            row_changes: _,
            uids: _,
            balances: _,
            postings: _,
        } = self;
    }
}

impl Additions {
    /// Nothing is added yet. Takes no memory.
    pub(crate) fn new(alloc: Global, user: UserId, at: Moment, day: Day) -> Additions
        ensures { result ≡ record {
          user = user;
          at = at;
          day = day;
          entries = [];
          row_changes = [];
          uids = [];
          balances = [];
        } }
    {
        Additions {
            user,
            at,
            day,
            entries: Vec::new(alloc),
            row_changes: Vec::new(alloc),
            uids: Uids::new(alloc),
            balances: Balances::new(alloc),
            postings: Transfers::new(alloc),
        }
    }

    /// The user whose file it is, who uses up the uids.
    pub fn user(&self) -> UserId
        ensures { result ≡ self.now.user }
    {
        self.user
    }

    /// The moment of the event.
    pub fn at(&self) -> Moment
        ensures { result ≡ self.now.at }
    {
        self.at
    }

    /// The business day.
    pub fn day(&self) -> Day
        ensures { result ≡ self.now.day }
    {
        self.day
    }

    /// The entries that are added, lent.
    pub fn entries(&self) -> &[Entry]
        ensures { result.now ≡ self.now.entries }
    {
        self.entries.as_slice()
    }

    /// The balances that accounts come to, lent.
    pub fn balances(&self) -> &Balances
        ensures { result.now.given ≡ self.now.balances }
    {
        &self.balances
    }

    /// How many uids are used up.
    pub fn uid_count(&self) -> usize
        ensures { result ≡ length self.now.uids }
    {
        self.uids.len()
    }

    /// The entries, what each gives, and the uids.
    pub(crate) fn into_parts(self) -> (Vec<Entry>, Vec<RowChange>, Vec<TrnUid>)
        ensures entries { result.0.items ≡ self.entries }
        ensures row_changes { result.1.items ≡ self.row_changes }
        ensures uids { result.2.items ≡ self.uids }
    {
        let Additions {
            user: _,
            at: _,
            day: _,
            entries,
            row_changes,
            uids,
            balances: _,
            postings: _,
        } = self;
        (entries, row_changes, uids.into_vec())
    }

    /// Whether the user has used up the uid, before this event or in it.
    #[tactic(auto, using(crate::proofs::PostingLemmas::used_drafted))]
    pub(crate) fn is_used(&self, ledger: &Ledger, trnuid: &TrnUid) -> bool
        ensures { result ≡ is_used self.now.user trnuid.now (with_added ledger.now.state self.now).used }
    {
        ledger.is_used(self.user, trnuid) || self.uids.has(trnuid)
    }

    /// The row of the transfer with this id, lent.
    pub(crate) fn row<'a>(&'a self, ledger: &'a Ledger, id: u64) -> Option<&'a TransferRow>
        requires rows { row_of id (with_added ledger.now.state self.now).entries
            ≡ option_or (row_drafted id self.now.row_changes) (row_of id ledger.now.state.entries) }
        ensures { option_copied result ≡ row_of id (with_added ledger.now.state self.now).entries }
    {
        match last_row(&self.row_changes, id) {
            Some(row) => Some(row),
            None => ledger.row(id),
        }
    }

    /// The row of the recurring transfer with this id, lent.
    pub(crate) fn model<'a>(&'a self, ledger: &'a Ledger, id: u64) -> Option<&'a ModelRow>
        requires models { model_of id (with_added ledger.now.state self.now).entries
            ≡ option_or (model_drafted id self.now.row_changes) (model_of id ledger.now.state.entries) }
        ensures { option_copied result ≡ model_of id (with_added ledger.now.state self.now).entries }
    {
        match last_model(&self.row_changes, id) {
            Some(row) => Some(row),
            None => ledger.model(id),
        }
    }

    /// Whether the recurring transfer with this id is cancelled.
    pub(crate) fn is_cancelled(&self, ledger: &Ledger, id: u64) -> bool
        requires cancelled { is_model_dropped id (with_added ledger.now.state self.now).entries
            ≡ (is_model_dropped id ledger.now.state.entries || is_cancelled_in id self.now.row_changes) }
        ensures { result ≡ is_model_dropped id (with_added ledger.now.state self.now).entries }
    {
        ledger.is_cancelled(id) || cancels_any(&self.row_changes, id)
    }

    /// The new balance of an account, in cents; None if it has none.
    pub(crate) fn balance(&self, account: AcctId) -> Option<Cents>
        ensures { result ≡ amount_given self.now.balances account }
    {
        self.balances.get(account)
    }

    /// What a statement of the account tells of a period.
    pub(crate) fn lines(
        &self,
        alloc: Global,
        ledger: &Ledger,
        name: &AcctName,
        period: (Moment, Option<Moment>),
    ) -> Result<Lines, OutOfMemory>
        ensures { IfOk result (λ lines.
            lines ≡ lines_of name.now period.0 period.1 (moved (with_added ledger.now.state self.now).entries)) }
    {
        let before = ledger.lines(alloc, name, period)?;
        let more = self.postings.posted(alloc, name, period)?;
        let lines = joined(before, &more)?;
        Ok(lines)
    }

    /// Adds an entry that posts no transfer, with what it gives. Where memory is refused, nothing is added.
    pub(crate) fn add(&mut self, entry: Entry, row_change: RowChange) -> Result<(), OutOfMemory>
        requires known { IsKnown row_change }
        requires posts { posting_of entry.number (row_in entry.change)
            ≡ posting_of entry.number (row_given_by row_change) }
        ensures ok { OnOk result (self.new ≡ record {
          user = self.old.user;
          at = self.old.at;
          day = self.old.day;
          entries = self.old.entries ++ entry ∷ [];
          row_changes = self.old.row_changes ++ row_change ∷ [];
          uids = self.old.uids;
          balances = self.old.balances;
        }) }
        ensures err { OnErr result (self.new ≡ self.old) }
    {
        add_entry(
            &mut self.entries,
            &mut self.row_changes,
            &mut self.postings,
            entry,
            row_change,
        )?;
        Ok(())
    }

    /// Adds an entry that posts a transfer, with the balances that its two accounts come to. Where memory is refused,
    /// nothing is added.
    pub(crate) fn add_posted(
        &mut self,
        entry: Entry,
        row: TransferRow,
        from: Balance,
        to: Balance,
    ) -> Result<(), OutOfMemory>
        requires known { IsWithinAmounts row }
        requires posts { posting_of entry.number (row_in entry.change) ≡ posting_of entry.number (Some row) }
        ensures ok { OnOk result (self.new ≡ record {
          user = self.old.user;
          at = self.old.at;
          day = self.old.day;
          entries = self.old.entries ++ entry ∷ [];
          row_changes = self.old.row_changes ++ Row row ∷ [];
          uids = self.old.uids;
          balances = (self.old.balances ++ from ∷ []) ++ to ∷ [];
        }) }
        ensures err { OnErr result (self.new ≡ self.old) }
    {
        self.balances.reserve(2)?;
        add_entry(
            &mut self.entries,
            &mut self.row_changes,
            &mut self.postings,
            entry,
            RowChange::Row(row),
        )?;
        self.balances.give(from);
        self.balances.give(to);
        Ok(())
    }

    /// Uses up a uid. Where memory is refused, nothing is added.
    pub(crate) fn use_up(&mut self, trnuid: TrnUid) -> Result<(), OutOfMemory>
        ensures ok { OnOk result (self.new ≡ record {
          user = self.old.user;
          at = self.old.at;
          day = self.old.day;
          entries = self.old.entries;
          row_changes = self.old.row_changes;
          uids = self.old.uids ++ trnuid ∷ [];
          balances = self.old.balances;
        }) }
        ensures err { OnErr result (self.new ≡ self.old) }
    {
        self.uids.use_up(trnuid)?;
        Ok(())
    }
}

/// The last row of the transfer with this id.
fn last_row(row_changes: &[RowChange], id: u64) -> Option<&TransferRow>
    ensures { option_copied result ≡ row_drafted id row_changes.now }
{
    match last_with_row(row_changes, id) {
        Some(row_change) => row_change.row(),
        None => None,
    }
}

fn last_with_row(row_changes: &[RowChange], id: u64) -> Option<&RowChange>
    ensures { option_copied result ≡ find (has_row id) (reverse row_changes.now) }
{
    row_changes
        .iter()
        .rev()
        .find(|row_change| row_change.has_row(id))
}

/// The last row of the recurring transfer with this id.
fn last_model(row_changes: &[RowChange], id: u64) -> Option<&ModelRow>
    ensures { option_copied result ≡ model_drafted id row_changes.now }
{
    match last_with_model(row_changes, id) {
        Some(row_change) => row_change.model(),
        None => None,
    }
}

fn last_with_model(row_changes: &[RowChange], id: u64) -> Option<&RowChange>
    ensures { option_copied result ≡ find (has_model id) (reverse row_changes.now) }
{
    row_changes
        .iter()
        .rev()
        .find(|row_change| row_change.has_model(id))
}

fn cancels_any(row_changes: &[RowChange], id: u64) -> bool
    ensures { result ≡ is_cancelled_in id row_changes.now }
{
    row_changes.iter().any(|row_change| row_change.cancels(id))
}

/// Whether a row with the code is posted.
pub(crate) fn is_posted(code: XferCode) -> bool
    ensures { result ≡ rules.is_posted code }
{
    code == XferCode::Posted
}

/// Adds an entry with what it gives, after the postings where it posts a transfer. Where memory is refused, nothing is
/// added.
fn add_entry(
    entries: &mut Vec<Entry>,
    row_changes: &mut Vec<RowChange>,
    postings: &mut Transfers,
    entry: Entry,
    row_change: RowChange,
) -> Result<(), OutOfMemory>
    requires known { IsKnown row_change }
    ensures entries { OnOk result (entries.new.items ≡ entries.old.items ++ entry ∷ []) }
    ensures row_changes { OnOk result (row_changes.new.items ≡ row_changes.old.items ++ row_change ∷ []) }
    ensures postings { OnOk result (HoldOneMore postings.old postings.new entry.number (row_given_by row_change)) }
    ensures entries_kept { OnErr result (entries.new.items ≡ entries.old.items) }
    ensures row_changes_kept { OnErr result (row_changes.new.items ≡ row_changes.old.items) }
    ensures postings_kept { OnErr result (HoldTheSame postings.old postings.new) }
{
    post_with_room(entries, row_changes, postings, entry.number, &row_change)?;
    entries.push_reserved(entry);
    row_changes.push_reserved(row_change);
    Ok(())
}

/// All of adding an entry for which memory may be refused: room for it and for what it gives, and, where this is a transfer
/// that is posted, a copy of its row put after the postings.
fn post_with_room(
    entries: &mut Vec<Entry>,
    row_changes: &mut Vec<RowChange>,
    postings: &mut Transfers,
    number: u64,
    row_change: &RowChange,
) -> Result<(), OutOfMemory>
    requires known { IsKnown row_change.now }
    ensures entries { entries.new.items ≡ entries.old.items }
    ensures row_changes { row_changes.new.items ≡ row_changes.old.items }
    ensures entry { OnOk result (vec_len entries.new < vec_capacity entries.new) }
    ensures row_change { OnOk result (vec_len row_changes.new < vec_capacity row_changes.new) }
    ensures ok { OnOk result (HoldOneMore postings.old postings.new number (row_given_by row_change.now)) }
    ensures err { OnErr result (HoldTheSame postings.old postings.new) }
{
    entries.reserve(1)?;
    row_changes.reserve(1)?;
    post(postings, number, row_change)
}

/// Puts a copy of the row that the entry with this number gives to a transfer, where it is posted.
fn post(postings: &mut Transfers, number: u64, row_change: &RowChange) -> Result<(), OutOfMemory>
    requires known { IsKnown row_change.now }
    ensures ok { OnOk result (HoldOneMore postings.old postings.new number (row_given_by row_change.now)) }
    ensures err { OnErr result (HoldTheSame postings.old postings.new) }
{
    match row_change {
        RowChange::Row(row) => post_row(postings, number, row),
        RowChange::Made(row) => post_row(postings, number, row),
        RowChange::Model(_) => Ok(()),
        RowChange::NoModel(_) => Ok(()),
        RowChange::Mail => Ok(()),
    }
}

fn post_row(postings: &mut Transfers, number: u64, row: &TransferRow) -> Result<(), OutOfMemory>
    requires amount { IsWithinAmounts row.now }
    ensures ok { OnOk result (HoldOneMore postings.old postings.new number (Some row.now)) }
    ensures err { OnErr result (HoldTheSame postings.old postings.new) }
{
    if !is_posted(row.code) {
        return Ok(());
    }
    postings.reserve(1)?;
    let copy = row.copy()?;
    postings.put(number, copy);
    Ok(())
}

/// The lines with more of them after.
fn joined(lines: Lines, more: &Lines) -> Result<Lines, OutOfMemory>
    ensures { IfOk result (λ all. all ≡ lines ++ more.now) }
{
    let mut all = lines;
    for line in more.items() {
        all.push(*line)?;
    }
    Ok(all)
}
