//! The rows of a bank's transfers and the posted transfers.

ghost use Rattle.std.specs.Prelude.{◌≡◌, ◌+◌, ◌<◌, ◌≤◌, ◌==◌, ◌∷◌, ◌++◌, [], ℕ, List, Some, if◌then◌else◌, map, IfOk, OnOk};
ghost use Rattle.std.specs.List.{All};
ghost use Rattle.std.specs.Option.{option_copied, option_map};
ghost use Rattle.bank_model.specs.declared.entry.Entry.{Entry};
ghost use Rattle.bank_model.specs.Ledger as ledger;
ghost use Rattle.bank_model.specs.Ledger.{row_of, moved, lines_of};
ghost use Rattle.bank_model.specs.Models as models;
ghost use Rattle.bank_model.specs.Models.{waiting_of};
ghost use Rattle.bank_model.specs.Due.{first_task, to_post};
ghost use Rattle.ofx_types.specs.declared.transfer.TransferRow.{TransferRow};
ghost use Rattle.bank_transfers.specs.Held.{IsClosed, AreClosed};
ghost use Rattle.bank_transfers.specs.PostingsView.{IsPosted};
ghost use Rattle.bank_transfers.specs.TransfersView.{row_at, row_settled, row_held, Represents, GivesRow, IsWithinAmounts};

use crate::postings::Postings;
use crate::rows::Rows;
use crate::waiting::Waiting;
use ofx_types::{AcctName, Day, Lines, Moment, OutOfMemory, TransferRow, XferCode};
use std::alloc::Global;
use std::marker::Model;

/// The transfers of a bank: the rows of those that wait, those of transfers that are closed or cancelled, and the posted ones in
/// the order of posting.
///
/// A posted row lies with its posting and every other row in one of the tables, so that putting a row never copies one.
pub struct Transfers {
    waiting: Waiting,
    closed: Rows,
    postings: Postings,
}

impl Model for Transfers {
    ghost use Rattle.std.specs.Prelude.{min};
    ghost use Rattle.std.specs.List.{All};
    ghost use Rattle.bank_transfers.specs.Held.{AreClosed};
    ghost use Rattle.bank_transfers.specs.PostingsView.{IsPosted};
    ghost use Rattle.bank_transfers.specs.TransfersView.{TransfersView};

    ghost Value = { TransfersView };

    ghost view = { λ t. record {
      waiting = t.waiting.rows;
      closed = t.closed.rows;
      postings = t.postings.postings;
      room = min t.waiting.room (min t.closed.room t.postings.room);
    } };

    ghost invariant = { λ t. All IsPosted t.postings.postings × AreClosed t.closed.rows };
}

impl Drop for Transfers {
    fn drop(self) {
        let Transfers {
            waiting: _,
            closed: _,
            postings: _,
        } = self;
    }
}

impl Transfers {
    /// The transfers before any entry. Takes no memory.
    pub fn new(alloc: Global) -> Transfers
        ensures { Represents result [] }
    {
        Transfers {
            waiting: Waiting::new(alloc),
            closed: Rows::new(alloc),
            postings: Postings::new(alloc),
        }
    }

    /// The row of the transfer with this id (SRVRTID), lent. Takes no memory.
    pub fn get(&self, id: u64) -> Option<&TransferRow>
        ensures { (entries : List Entry) → Represents self.now entries → option_copied result ≡ row_of id entries }
    {
        match self.waiting.get(id) {
            Some(row) => Some(row),
            None => processed_row(&self.closed, &self.postings, id),
        }
    }

    /// Makes room for so many more entries.
    ///
    /// Where memory is refused, all rows and postings are as before, and so is the room that there was.
    pub fn reserve(&mut self, entries: u32) -> Result<(), OutOfMemory>
        ensures rows { (id : ℕ) → row_held self.new id ≡ row_held self.old id }
        ensures waiting { (id : ℕ) → row_at self.new.waiting id ≡ row_at self.old.waiting id }
        ensures postings { self.new.postings ≡ self.old.postings }
        ensures holds { (entries : List Entry) → Represents self.old entries → Represents self.new entries }
        ensures room { OnOk result (entries ≤ self.new.room) }
        ensures room_stays { self.old.room ≤ self.new.room }
    {
        self.waiting.reserve(entries)?;
        self.closed.reserve(entries)?;
        self.postings.reserve(entries)
    }

    /// Takes in the row that the entry with this number gives. There is room for it, and it takes no memory.
    pub fn put(&mut self, number: u64, row: TransferRow)
        requires room { 0 < self.old.room }
        requires amount { IsWithinAmounts row }
        ensures holds { (entries : List Entry) (entry : Entry) → Represents self.old entries
            → entry.number ≡ number → GivesRow entries entry.change row
            → Represents self.new (entries ++ entry ∷ []) }
        ensures room { self.old.room ≤ self.new.room + 1 }
    {
        if is_waiting(row.code) {
            self.waiting.put(row);
        } else {
            self.waiting.remove_row(row.id);
            process(&mut self.closed, &mut self.postings, number, row);
        }
    }

    /// The transfer that the bank has to post next on a business day: of those that wait and are due on or before it, the
    /// one with the earliest due day, and of one day the one with the least id (SRVRTID). Takes no memory.
    pub fn due_on(&self, day: Day) -> Option<u64>
        ensures { (entries : List Entry) → Represents self.now entries
            → result ≡ option_map (λ task. task.id) (first_task (to_post day entries)) }
    {
        self.waiting.first_due(day)
    }

    /// The ids (SRVRTID) of the transfers that the recurring transfer with this id (RECSRVRTID) made and that wait, in the
    /// order in which they were made.
    pub fn waiting(&self, alloc: Global, model: u64) -> Result<Vec<u64>, OutOfMemory>
        ensures { IfOk result (λ ids. (entries : List Entry) → Represents self.now entries
            → ids.items ≡ map (λ (row : TransferRow). row.id) (waiting_of model entries)) }
    {
        self.waiting.of_model(alloc, model)
    }

    /// What a statement of the account tells of a period, from its first moment until before its last; without a last
    /// moment it goes on.
    pub fn posted(
        &self,
        alloc: Global,
        name: &AcctName,
        period: (Moment, Option<Moment>),
    ) -> Result<Lines, OutOfMemory>
        ensures { IfOk result (λ lines. (entries : List Entry) → Represents self.now entries
            → lines ≡ lines_of name.now period.0 period.1 (moved entries)) }
    {
        self.postings.lines(alloc, name, period)
    }
}

/// The row of a transfer that doesn't wait.
fn processed_row<'a>(closed: &'a Rows, postings: &'a Postings, id: u64) -> Option<&'a TransferRow>
    ensures { option_copied result ≡ row_settled closed.now.rows postings.now.postings id }
{
    match closed.get(id) {
        Some(row) => Some(row),
        None => postings.row(id),
    }
}

/// Puts the row of a transfer that doesn't wait: with its posting where it is posted, and otherwise among the closed ones.
fn process(closed: &mut Rows, postings: &mut Postings, number: u64, row: TransferRow)
    requires closed { 0 < closed.old.room }
    requires postings { 0 < postings.old.room }
    requires amount { IsWithinAmounts row }
    requires waits { IsClosed row }
    ensures rows { (id : ℕ) → row_settled closed.new.rows postings.new.postings id
        ≡ (if row.id == id then Some row else row_settled closed.old.rows postings.old.postings id) }
    ensures postings { postings.new.postings ≡ postings.old.postings ++ ledger.posting_of number (Some row) }
    ensures posted { All IsPosted postings.old.postings → All IsPosted postings.new.postings }
    ensures closed { AreClosed closed.old.rows → AreClosed closed.new.rows }
    ensures closed_room { closed.old.room ≤ closed.new.room + 1 }
    ensures postings_room { postings.old.room ≤ postings.new.room + 1 }
{
    if is_posted(row.code) {
        closed.remove_row(row.id);
        postings.post(number, row);
    } else {
        closed.put(row);
    }
}

fn is_posted(code: XferCode) -> bool
    ensures { result ≡ ledger.is_posted code }
{
    code == XferCode::Posted
}

fn is_waiting(code: XferCode) -> bool
    ensures { result ≡ models.is_waiting code }
{
    code == XferCode::Waiting
}
