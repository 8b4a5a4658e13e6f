//! The rows of one object, as they are held.

ghost use Rattle.std.specs.Prelude.{◌≡◌, ◌+◌, ◌<◌, ◌≤◌, ◌∷◌, ◌++◌, [], true, length, fold, map, Some, IfOk, OnOk, OnErr, MatchOption, option_copied, option_map, if◌then◌else◌};
ghost use Rattle.std.specs.List.{find};
ghost use Rattle.ofx_types.specs.declared.transfer.Family.TheVariants.{Intra, RecIntra, BankMail, Mail};
ghost use Rattle.bank_model.specs.Stores as model;
ghost use Rattle.client_store.specs.RowForm as form;
ghost use Rattle.client_store.specs.RowForm.{seen, all_seen, IsRising};

use crate::row::Row;
use crate::row_index::{
    are_rising, copied_rows, model_among, put_row, remove_row_by_id, row_among, with_model,
};
use ofx_types::{Change, Family, MailRow, OutOfMemory};
use std::alloc::Global;
use std::marker::Model;

/// The rows of an object of a family, in rising id. Each is found by its id by binary search.
pub(crate) struct Rows {
    family: Family,
    items: Vec<Row>,
}

impl Model for Rows {
    ghost use Rattle.std.specs.Prelude.{◌-◌, vec_len, vec_capacity};
    ghost use Rattle.client_store.specs.RowForm.{all_seen, IsRising};
    ghost use Rattle.client_store.specs.RowsView.{HeldRows};

    ghost Value = { HeldRows };

    ghost view = { λ held. record {
      family = held.family;
      rows = all_seen held.items.items;
      room = vec_capacity held.items - vec_len held.items;
    } };

    ghost invariant = { λ held. IsRising held.family 0 (all_seen held.items.items) };
}

impl Drop for Rows {
    fn drop(self) {
        let Rows {
            family: _,
            items: _,
        } = self;
    }
}

impl Rows {
    /// No rows of an object of the family, with room for so many.
    fn new(alloc: Global, family: Family, room: usize) -> Result<Rows, OutOfMemory>
        ensures family { IfOk result (λ held. held.family ≡ family) }
        ensures rows { IfOk result (λ held. held.rows ≡ []) }
        ensures room { IfOk result (λ held. room ≤ held.room) }
    {
        let items = Vec::with_capacity(alloc, room)?;
        Ok(Rows { family, items })
    }

    /// No rows of an object of the family, with no room. Takes no memory.
    pub(crate) fn none(alloc: Global, family: Family) -> Rows
        ensures family { result.family ≡ family }
        ensures rows { result.rows ≡ [] }
    {
        Rows {
            family,
            items: Vec::new(alloc),
        }
    }

    /// These rows, where they are of the family and their ids rise. Takes no memory.
    pub(crate) fn from_vec(family: Family, items: Vec<Row>) -> Option<Rows>
        ensures { MatchOption result (IsRising family 0 (all_seen items.items) → ⊥)
            (λ held. (held.family ≡ family) × ((held.rows ≡ all_seen items.items) × IsRising family 0 held.rows)) }
    {
        if are_rising(family, &items) {
            Some(Rows { family, items })
        } else {
            None
        }
    }

    /// All rows are of the family, in rising id where they have one.
    pub(crate) fn known(&self)
        ensures { IsRising self.now.family 0 self.now.rows }
    {
        let _ = &self.items;
    }

    /// The allocator that gave the rows their memory.
    pub(crate) fn allocator(&self) -> Global {
        *self.items.allocator()
    }

    /// The rows, lent.
    pub(crate) fn items(&self) -> &[Row]
        ensures { all_seen result.now ≡ self.now.rows }
    {
        self.items.as_slice()
    }

    /// The row of an id, lent.
    pub(crate) fn row(&self, id: u64) -> Option<&Row>
        ensures { option_map seen (option_copied result) ≡ find (model.has_id id) self.now.rows }
    {
        row_among(&self.items, self.family, id)
    }

    /// The same rows once more.
    pub(crate) fn copied(&self) -> Result<Rows, OutOfMemory>
        ensures family { IfOk result (λ held. held.family ≡ self.now.family) }
        ensures rows { IfOk result (λ held. held.rows ≡ self.now.rows) }
    {
        let items = copied_rows(self.allocator(), &self.items)?;
        Ok(Rows {
            family: self.family,
            items,
        })
    }

    /// Makes room for so many more. Where memory is refused the rows are as before.
    fn reserve(&mut self, rows: usize) -> Result<(), OutOfMemory>
        ensures family { self.new.family ≡ self.old.family }
        ensures rows { self.new.rows ≡ self.old.rows }
        ensures room { OnOk result (rows ≤ self.new.room) }
    {
        self.items.reserve(rows)?;
        Ok(())
    }

    /// Makes room for so many more, and leaves the rows or, where all is to come anew, none. Where memory is refused the rows
    /// are as before.
    pub(crate) fn begin(&mut self, all: bool, rows: usize) -> Result<(), OutOfMemory>
        ensures family { self.new.family ≡ self.old.family }
        ensures rows { OnOk result (self.new.rows ≡ (if all then [] else self.old.rows)) }
        ensures room { OnOk result (rows ≤ self.new.room) }
        ensures err { OnErr result (self.new.rows ≡ self.old.rows) }
    {
        if all {
            *self = Rows::new(self.allocator(), self.family, rows)?;
            Ok(())
        } else {
            self.reserve(rows)
        }
    }

    /// Puts a row in place of the one that has its id, or inserts it in order. There is room for it.
    fn put(&mut self, id: u64, row: Row)
        requires room { 0 < self.old.room }
        requires kind { form.is_of self.old.family (seen row) ≡ true }
        requires id { model.id_of (seen row) ≡ Some id }
        ensures family { self.new.family ≡ self.old.family }
        ensures rows { self.new.rows ≡ model.put id (seen row) self.old.rows }
        ensures room { self.old.room ≤ self.new.room + 1 }
    {
        put_row(&mut self.items, self.family, id, row);
    }

    /// Takes out the row of an id, where there is one.
    fn remove_row(&mut self, id: u64)
        ensures family { self.new.family ≡ self.old.family }
        ensures rows { self.new.rows ≡ model.remove_row id self.old.rows }
        ensures room { self.old.room ≤ self.new.room }
    {
        remove_row_by_id(&mut self.items, self.family, id);
    }

    /// Puts a mail after all others. There is room for it.
    fn put_last(&mut self, row: MailRow)
        requires room { 0 < self.old.room }
        requires kind { form.is_of self.old.family (model.mail_row row) ≡ true }
        ensures family { self.new.family ≡ self.old.family }
        ensures rows { self.new.rows ≡ self.old.rows ++ model.mail_row row ∷ [] }
        ensures room { self.old.room ≤ self.new.room + 1 }
    {
        self.items.push_reserved(Row::Mail(row));
    }

    /// The recurring transfer that made the transfer of an id, 0 where there is none.
    fn model_of(&self, id: u64) -> u64
        ensures { result ≡ model.model_among id self.now.rows }
    {
        model_among(&self.items, self.family, id)
    }

    /// Does a change to the rows, where it is of their family. There is room for one row more, and it takes no memory.
    pub(crate) fn change(&mut self, change: Change)
        requires room { 0 < self.old.room }
        ensures family { self.new.family ≡ self.old.family }
        ensures rows { self.new.rows ≡ model.changed self.old.family self.old.rows change }
        ensures room { self.old.room ≤ self.new.room + 1 }
    {
        match self.family {
            Family::Intra => self.change_transfer(change),
            Family::RecIntra => self.change_model(change),
            Family::BankMail => self.add_bank_mail(change),
            Family::Mail => self.add_mail(change),
        }
    }

    /// Does a change to transfers. A changed one keeps the recurring transfer that made it, which its reply doesn't tell.
    #[tactic(auto, unfolding(bank_model::specs::Stores::changed))]
    fn change_transfer(&mut self, change: Change)
        requires family { self.old.family ≡ Intra }
        requires room { 0 < self.old.room }
        ensures family { self.new.family ≡ self.old.family }
        ensures rows { self.new.rows ≡ model.changed Intra self.old.rows change }
        ensures room { self.old.room ≤ self.new.room + 1 }
    {
        match change {
            Change::NewTransfer(row) => self.put(row.id, Row::Transfer(row)),
            Change::SetTransfer(row) => {
                let model = self.model_of(row.id);
                self.put(row.id, Row::Transfer(with_model(row, model)));
            }
            Change::DropTransfer(id) => self.remove_row(id),
            _ => {}
        }
    }

    /// Does a change to recurring transfers.
    #[tactic(auto, unfolding(bank_model::specs::Stores::changed))]
    fn change_model(&mut self, change: Change)
        requires family { self.old.family ≡ RecIntra }
        requires room { 0 < self.old.room }
        ensures family { self.new.family ≡ self.old.family }
        ensures rows { self.new.rows ≡ model.changed RecIntra self.old.rows change }
        ensures room { self.old.room ≤ self.new.room + 1 }
    {
        match change {
            Change::NewModel(row) => self.put(row.id, Row::Model(row)),
            Change::SetModel(row, _) => self.put(row.id, Row::Model(row)),
            Change::DropModel(id, _) => self.remove_row(id),
            _ => {}
        }
    }

    /// Takes in a mail about an account.
    #[tactic(auto, unfolding(bank_model::specs::Stores::changed))]
    fn add_bank_mail(&mut self, change: Change)
        requires family { self.old.family ≡ BankMail }
        requires room { 0 < self.old.room }
        ensures family { self.new.family ≡ self.old.family }
        ensures rows { self.new.rows ≡ model.changed BankMail self.old.rows change }
        ensures room { self.old.room ≤ self.new.room + 1 }
    {
        match change {
            Change::NewMail(row) => {
                if row.about.is_some() {
                    self.put_last(row);
                }
            }
            _ => {}
        }
    }

    /// Takes in a mail about nothing in particular.
    #[tactic(auto, unfolding(bank_model::specs::Stores::changed))]
    fn add_mail(&mut self, change: Change)
        requires family { self.old.family ≡ Mail }
        requires room { 0 < self.old.room }
        ensures family { self.new.family ≡ self.old.family }
        ensures rows { self.new.rows ≡ model.changed Mail self.old.rows change }
        ensures room { self.old.room ≤ self.new.room + 1 }
    {
        match change {
            Change::NewMail(row) => {
                if row.about.is_none() {
                    self.put_last(row);
                }
            }
            _ => {}
        }
    }

    /// Does changes in order. There is room for a row of each, and it takes no memory.
    pub(crate) fn change_all(&mut self, changes: Vec<Change>)
        requires room { length changes.items ≤ self.old.room }
        ensures family { self.new.family ≡ self.old.family }
        ensures rows { self.new.rows ≡ fold (model.changed self.old.family) self.old.rows changes.items }
    {
        for change in changes {
            self.change(change);
        }
    }
}
