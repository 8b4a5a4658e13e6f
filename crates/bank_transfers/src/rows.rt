//! Rows of transfers, found by their ids' hashes.

ghost use Rattle.std.specs.Prelude.{◌≡◌, ◌+◌, ◌<◌, ◌≤◌, ℕ, None, Some, if◌then◌else◌, ◌==◌, OnOk};
ghost use Rattle.std.specs.Option.{option_copied};
ghost use Rattle.bank_transfers.specs.TransfersView.{row_at};

use ofx_types::{OutOfMemory, TransferRow};
use std::alloc::Global;
use std::collections::HashMap;
use std::marker::Model;

/// The row of each of some transfers, under its id.
pub(crate) struct Rows {
    held: HashMap<u64, TransferRow>,
}

impl Model for Rows {
    ghost use Rattle.std.specs.HashMap.{spare};
    ghost use Rattle.bank_transfers.specs.Held.{RowsView};

    ghost Value = { RowsView };

    ghost view = { λ r. record { rows = r.held.entries; room = spare r.held } };
}

impl Drop for Rows {
    fn drop(self) {
        let Rows { held: _ } = self;
    }
}

impl Rows {
    /// No rows. Takes no memory.
    pub(crate) fn new(alloc: Global) -> Rows
        ensures { (id : ℕ) → row_at result.rows id ≡ None }
    {
        Rows {
            held: HashMap::new(alloc),
        }
    }

    /// The row of the transfer with this id, lent.
    pub(crate) fn get(&self, id: u64) -> Option<&TransferRow>
        ensures { option_copied result ≡ row_at self.now.rows id }
    {
        self.held.get(&id)
    }

    /// Makes room for so many more rows.
    pub(crate) fn reserve(&mut self, rows: u32) -> Result<(), OutOfMemory>
        ensures found { (id : ℕ) → row_at self.new.rows id ≡ row_at self.old.rows id }
        ensures room { OnOk result (rows ≤ self.new.room) }
        ensures room_stays { self.old.room ≤ self.new.room }
    {
        self.held.reserve(rows as usize)?;
        Ok(())
    }

    /// Puts a row, in place of one with its id. There is room for it, and it takes no memory.
    pub(crate) fn put(&mut self, row: TransferRow)
        requires room { 0 < self.old.room }
        ensures found { (id : ℕ) → row_at self.new.rows id ≡ (if row.id == id then Some row else row_at self.old.rows id) }
        ensures room { self.old.room ≤ self.new.room + 1 }
    {
        let id = row.id;
        let put: Result<_, _> = self.held.insert(id, row);
        let _before = put.unwrap();
    }

    /// Takes the row of the transfer with this id out, where it is there.
    pub(crate) fn remove_row(&mut self, id: u64)
        ensures found { (other : ℕ) → row_at self.new.rows other ≡ (if id == other then None else row_at self.old.rows other) }
        ensures room { self.old.room ≤ self.new.room }
    {
        let _gone = self.held.remove(&id);
    }
}
