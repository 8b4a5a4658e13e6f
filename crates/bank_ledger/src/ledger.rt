//! What a bank has written down: its history, the rows of its transfers and recurring transfers, used uids, kept replies
//! and the business day.

mod making;

ghost use Rattle.std.specs.Prelude.{◌≡◌, ◌+◌, ◌-◌, ◌<◌, ◌≤◌, ◌∷◌, ◌++◌, [], false, nat_lt, None, ℕ, length, map, filter, take, slice_index_or, IfOk, OnOk};
ghost use Rattle.std.specs.Option.{option_copied, option_map, IfSome};
ghost use Rattle.bank_model.specs.declared.entry.Entry.{Entry};
ghost use Rattle.bank_model.specs.Objects as objects;
ghost use Rattle.bank_model.specs.Objects.{history_of, last_number};
ghost use Rattle.bank_model.specs.Sync.{is_above};
ghost use Rattle.bank_history.specs.Made.{made_of};
ghost use Rattle.bank_model.specs.Rules as rules;
ghost use Rattle.once_records.specs.RecordsView.{UsedOnce};
ghost use Rattle.bank_ledger.specs.DraftView.{pair_of, with_added, IsAdded};
ghost use Rattle.bank_model.specs.Ledger.{row_of, moved, lines_of};
ghost use Rattle.bank_model.specs.Once.{is_used, reply_kept};
ghost use Rattle.bank_model.specs.Rules.{opening_state};
ghost use Rattle.bank_model.specs.Models.{model_of, is_model_dropped, next_occurrence, waiting_of};
ghost use Rattle.bank_model.specs.Due.{first_task, to_make, to_post};
ghost use Rattle.bank_invariants.specs.Pending.{ids_of};
ghost use Rattle.bank_ledger.specs.declared.row_change.RowChange.{RowChange};
ghost use Rattle.bank_ledger.specs.Changes.{GivesRows, IsKnown};

use crate::additions::Additions;
use crate::row_change::RowChange;
use bank_history::{History, Made};
use bank_model::Entry;
use bank_recur::Models;
use bank_transfers::Transfers;
use ofx_types::{
    AcctName, Day, FileUid, Lines, ModelRow, Moment, ObjectId, OutOfMemory, TransferRow, TrnUid,
    UserId,
};
use once_records::Records;
use std::alloc::Global;
use std::hash::RandomState;
use std::marker::Model;

/// 1 January 1900.
const FIRST_DAY: Day = Day(-25_567);

/// The state of a bank. What is added to it has its room reserved before.
pub struct Ledger {
    history: History,
    transfers: Transfers,
    models: Models,
    records: Records,
    day: Day,
}

impl Model for Ledger {
    ghost use Rattle.bank_transfers.specs.TransfersView.{Represents};
    ghost use Rattle.bank_recur.specs.ModelsView as recurring;
    ghost use Rattle.bank_ledger.specs.LedgerView.{LedgerView};

    ghost Value = { LedgerView };

    ghost view = { λ l. record {
      window = l.history.width;
      state = record {
        entries = l.history.entries;
        used = l.records.used;
        kept = l.records.kept;
        day = l.day;
      };
      room = record {
        entries = l.history.room;
        transfers = l.transfers.room;
        models = l.models.room;
        pairs = l.records.pairs;
        files = l.records.files;
      };
    } };

    ghost invariant = { λ l. Represents l.transfers l.history.entries × recurring.Represents l.models l.history.entries };
}

impl Drop for Ledger {
    fn drop(self) {
        let Ledger {
            history: _,
            transfers: _,
            models: _,
            records: _,
            day: _,
        } = self;
    }
}

impl Ledger {
    /// The state in which a bank opens. Takes no memory. Clients' names are found by hashes with these keys, and the history of
    /// each object goes back so many entries, from 1 to 10,000.
    pub fn new(alloc: Global, keys: RandomState, window: u32) -> Ledger
        requires window { (0 < window) × (window < 10001) }
        ensures window { result.window ≡ window }
        ensures state { result.state ≡ opening_state }
    {
        Ledger {
            history: History::new(alloc, window),
            transfers: Transfers::new(alloc),
            models: Models::new(alloc),
            records: Records::new(alloc, keys),
            day: FIRST_DAY,
        }
    }

    /// How many entries there are.
    pub fn count(&self) -> u64
        ensures { result ≡ length self.now.state.entries }
    {
        self.history.count()
    }

    /// The number of the last entry of an object, 0 where there is none.
    pub fn newest(&self, object: ObjectId) -> u64
        ensures { result ≡ objects.newest object self.now.state.entries }
    {
        self.history.newest(object)
    }

    /// Whether a token is below the number of the entry before the last so many of an object, which is 0 where there are
    /// no more than these. They are no more than its history goes back.
    pub fn is_past(&self, object: ObjectId, token: u64, kept: usize) -> bool
        requires kept { kept ≤ self.now.window }
        ensures { result ≡ nat_lt token (last_number (take (length (history_of object self.now.state.entries) - kept)
            (history_of object self.now.state.entries))) }
    {
        self.history.is_past(object, token, kept)
    }

    /// The entries of an object with numbers above a token, lent. The token isn't below the floor of its history.
    pub fn since(
        &self,
        alloc: Global,
        object: ObjectId,
        token: u64,
    ) -> Result<Vec<&Entry>, OutOfMemory>
        requires floor { objects.floor self.now.window object self.now.state.entries ≤ token }
        ensures { IfOk result (λ since. map (λ entry. entry.now) since.items
            ≡ filter (is_above token) (history_of object self.now.state.entries)) }
    {
        self.history.since(alloc, object, token)
    }

    /// What an object's history made, in order. Mails are copied.
    pub fn made(&self, alloc: Global, object: ObjectId) -> Result<Vec<Made>, OutOfMemory>
        ensures { IfOk result (λ made. made.items ≡ made_of object self.now.state.entries) }
    {
        self.history.made(alloc, object)
    }

    /// The business day.
    pub fn day(&self) -> Day
        ensures { result ≡ self.now.state.day }
    {
        self.day
    }

    /// Whether the user has used up the uid.
    pub fn is_used(&self, user: UserId, trnuid: &TrnUid) -> bool
        ensures { result ≡ is_used user trnuid.now self.now.state.used }
    {
        self.records.used(user, trnuid)
    }

    /// The reply that is kept for the user's file, lent.
    pub fn kept(&self, user: UserId, file: &FileUid) -> Option<&[u8]>
        ensures { option_copied result ≡ reply_kept user file.now self.now.state.kept }
    {
        self.records.kept(user, file)
    }

    /// The row of the transfer with this id, lent.
    pub fn row(&self, id: u64) -> Option<&TransferRow>
        ensures { option_copied result ≡ row_of id self.now.state.entries }
    {
        self.transfers.get(id)
    }

    /// The row of the recurring transfer with this id, lent.
    pub fn model(&self, id: u64) -> Option<&ModelRow>
        ensures { option_copied result ≡ model_of id self.now.state.entries }
    {
        self.models.get(id)
    }

    /// Whether the recurring transfer with this id is cancelled.
    pub fn is_cancelled(&self, id: u64) -> bool
        ensures { result ≡ is_model_dropped id self.now.state.entries }
    {
        self.models.cancelled(id)
    }

    /// The ids of the transfers of a recurring transfer that wait.
    pub fn waiting(&self, alloc: Global, model: u64) -> Result<Vec<u64>, OutOfMemory>
        ensures { IfOk result (λ ids. ids.items ≡ ids_of (waiting_of model self.now.state.entries)) }
    {
        self.transfers.waiting(alloc, model)
    }

    /// The transfer that is to be posted first on a business day.
    pub fn next_post(&self, day: Day) -> Option<u64>
        ensures { result ≡ option_map (λ task. task.id) (first_task (to_post day self.now.state.entries)) }
    {
        self.transfers.due_on(day)
    }

    /// Of the recurring transfers that are to make their next transfer by a last day, the one to make it first, with that
    /// transfer's occurrence number, from 0.
    pub fn next_spawn(&self, last: Day) -> Option<(u64, u32)>
        ensures { result ≡ option_map (λ task. (task.id, next_occurrence task.id self.now.state.entries))
            (first_task (to_make last self.now.state.entries)) }
    {
        self.models.next_spawn(last)
    }

    /// What a statement of the account tells of a period.
    pub fn lines(
        &self,
        alloc: Global,
        name: &AcctName,
        period: (Moment, Option<Moment>),
    ) -> Result<Lines, OutOfMemory>
        ensures { IfOk result (λ lines. lines ≡ lines_of name.now period.0 period.1 (moved self.now.state.entries)) }
    {
        self.transfers.posted(alloc, name, period)
    }

    /// Makes room for so many entries and uids more, and for one more reply. No room that was made before is lost.
    pub fn reserve(&mut self, entries: u32, uids: u32) -> Result<(), OutOfMemory>
        ensures window { self.new.window ≡ self.old.window }
        ensures state { self.new.state ≡ self.old.state }
        ensures entries { OnOk result (entries ≤ self.new.room.entries) }
        ensures transfers { OnOk result (entries ≤ self.new.room.transfers) }
        ensures models { OnOk result (entries ≤ self.new.room.models) }
        ensures pairs { OnOk result (uids ≤ self.new.room.pairs) }
        ensures files { OnOk result (0 < self.new.room.files) }
        ensures entries_stay { self.old.room.entries ≤ self.new.room.entries }
        ensures transfers_stay { self.old.room.transfers ≤ self.new.room.transfers }
        ensures models_stay { self.old.room.models ≤ self.new.room.models }
        ensures pairs_stay { self.old.room.pairs ≤ self.new.room.pairs }
        ensures files_stay { self.old.room.files ≤ self.new.room.files }
    {
        self.history.reserve(entries)?;
        self.transfers.reserve(entries)?;
        self.models.reserve(entries)?;
        self.records.reserve(uids, 1)
    }

    /// Writes down an entry with what it gives. Takes no memory.
    fn add(&mut self, entry: Entry, row_change: RowChange)
        requires entries { 0 < self.old.room.entries }
        requires transfers { 0 < self.old.room.transfers }
        requires models { 0 < self.old.room.models }
        requires number { entry.number ≡ length self.old.state.entries + 1 }
        requires known { IsKnown row_change }
        requires gives { GivesRows self.old.state.entries entry.change row_change }
        ensures window { self.new.window ≡ self.old.window }
        ensures state { self.new.state ≡ record self.old.state { entries = self.old.state.entries ++ entry ∷ [] } }
        ensures entries { self.old.room.entries ≤ self.new.room.entries + 1 }
        ensures transfers { self.old.room.transfers ≤ self.new.room.transfers + 1 }
        ensures models { self.old.room.models ≤ self.new.room.models + 1 }
        ensures pairs { self.new.room.pairs ≡ self.old.room.pairs }
        ensures files { self.new.room.files ≡ self.old.room.files }
    {
        match row_change {
            RowChange::Row(row) => {
                self.transfers.put(entry.number, row);
                self.history.add(entry);
            }
            RowChange::Made(row) => {
                let model = row.model;
                self.transfers.put(entry.number, row);
                self.models.spawned(model);
                self.history.add(entry);
            }
            RowChange::Model(row) => {
                self.models.put(row);
                self.history.add(entry);
            }
            RowChange::NoModel(id) => {
                self.models.cancel(id);
                self.history.add(entry);
            }
            RowChange::Mail => self.history.add(entry),
        }
    }

    /// Uses up a uid that the user hasn't used. Takes no memory.
    fn use_up(&mut self, user: UserId, trnuid: TrnUid)
        requires room { 0 < self.old.room.pairs }
        requires unused { is_used user trnuid self.old.state.used ≡ false }
        ensures window { self.new.window ≡ self.old.window }
        ensures state { self.new.state ≡ record self.old.state { used = self.old.state.used ++ record { user = user; trnuid = trnuid } ∷ [] } }
        ensures pairs { self.old.room.pairs ≤ self.new.room.pairs + 1 }
        ensures files { self.new.room.files ≡ self.old.room.files }
    {
        self.records.use_up(user, trnuid);
    }

    /// Writes down entries with what they give. Takes no memory.
    fn add_all(&mut self, entries: Vec<Entry>, row_changes: Vec<RowChange>)
        requires entries { length entries.items ≤ self.old.room.entries }
        requires transfers { length entries.items ≤ self.old.room.transfers }
        requires models { length entries.items ≤ self.old.room.models }
        requires count { length row_changes.items ≡ length entries.items }
        requires numbered { (k : ℕ) (entry : Entry) → k < length entries.items
            → (slice_index_or entries.items k entry).number
            ≡ length (self.old.state.entries ++ take k entries.items) + 1 }
        requires known { (k : ℕ) (row_change : RowChange) → k < length entries.items
            → IsKnown (slice_index_or row_changes.items k row_change) }
        requires given { (k : ℕ) (entry : Entry) (row_change : RowChange) → k < length entries.items
            → GivesRows (self.old.state.entries ++ take k entries.items) (slice_index_or entries.items k entry).change
            (slice_index_or row_changes.items k row_change) }
        ensures window { self.new.window ≡ self.old.window }
        ensures state { self.new.state ≡ record self.old.state { entries = self.old.state.entries ++ entries.items } }
        ensures pairs { self.new.room.pairs ≡ self.old.room.pairs }
        ensures files { self.new.room.files ≡ self.old.room.files }
    {
        let mut rest = entries.into_iter();
        for row_change in row_changes {
            match rest.next() {
                Some(entry) => self.add(entry, row_change),
                None => unreachable!(),
            }
        }
    }

    /// Uses up the uids of a user, of which none is used up. Takes no memory.
    fn use_up_all(&mut self, user: UserId, uids: Vec<TrnUid>)
        requires room { length uids.items ≤ self.old.room.pairs }
        requires unused { UsedOnce (self.old.state.used ++ map (pair_of user) uids.items) }
        ensures window { self.new.window ≡ self.old.window }
        ensures state { self.new.state ≡ record self.old.state { used = self.old.state.used ++ map (pair_of user) uids.items } }
        ensures files { self.new.room.files ≡ self.old.room.files }
    {
        for uid in uids {
            self.use_up(user, uid);
        }
    }

    /// Takes in what an event adds. Takes no memory.
    pub fn take(&mut self, added: Additions)
        requires entries { length added.entries ≤ self.old.room.entries }
        requires transfers { length added.entries ≤ self.old.room.transfers }
        requires models { length added.entries ≤ self.old.room.models }
        requires pairs { length added.uids ≤ self.old.room.pairs }
        requires added { IsAdded self.old.state added }
        requires unused { UsedOnce (with_added self.old.state added).used }
        ensures window { self.new.window ≡ self.old.window }
        ensures state { self.new.state ≡ with_added self.old.state added }
        ensures files { self.new.room.files ≡ self.old.room.files }
    {
        let user = added.user();
        let day = added.day();
        let (entries, row_changes, uids) = added.into_parts();
        self.add_all(entries, row_changes);
        self.use_up_all(user, uids);
        self.set_day(day);
    }

    /// Lets go the reply to the user's file of that name, where there is one. Takes no memory.
    pub fn release(&mut self, user: UserId, older: &Option<FileUid>)
        ensures window { self.new.window ≡ self.old.window }
        ensures state { self.new.state ≡ record self.old.state { kept = rules.release user older.now self.old.state.kept } }
        ensures files { self.old.room.files ≤ self.new.room.files }
    {
        match older {
            Some(file) => {
                let _was_there = self.records.release(user, file);
            }
            None => {}
        }
    }

    /// Keeps the reply to the user's file of that name, where it has one. It has no reply yet. Takes no memory.
    pub fn keep(&mut self, user: UserId, newer: Option<FileUid>, reply: Vec<u8>)
        requires room { 0 < self.old.room.files }
        requires absent { IfSome newer (λ file. reply_kept user file self.old.state.kept ≡ None) }
        ensures window { self.new.window ≡ self.old.window }
        ensures state { self.new.state ≡ record self.old.state { kept = rules.keep user newer reply.items self.old.state.kept } }
    {
        match newer {
            Some(file) => self.records.keep(user, file, reply),
            None => {}
        }
    }

    /// Sets the business day.
    fn set_day(&mut self, day: Day)
        ensures window { self.new.window ≡ self.old.window }
        ensures state { self.new.state ≡ record self.old.state { day = day } }
        ensures room { self.new.room ≡ self.old.room }
    {
        self.day = day;
    }
}
