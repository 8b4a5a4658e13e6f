//! The rows of a bank's recurring transfers, with how many transfers each has made, found by their ids' hashes, and their
//! next transfers in order.

ghost use Rattle.std.specs.Prelude.{◌≡◌, ◌+◌, ◌<◌, ◌≤◌, ◌∷◌, ◌++◌, [], List, ◌==◌, Some, is_some, true, OnOk};
ghost use Rattle.std.specs.Option.{option_copied, option_map};
ghost use Rattle.std.specs.List.{find, position};
ghost use Rattle.ofx_types.specs.Calendar.{IsDay};
ghost use Rattle.bank_model.specs.declared.entry.Entry.{Entry};
ghost use Rattle.bank_model.specs.Models.{model_of, is_model_dropped, next_occurrence};
ghost use Rattle.bank_model.specs.Due.{first_task, to_make, date_to_make};
ghost use Rattle.bank_recur.specs.ModelsView.{series_found, row_found, occurrence_found, Represents, GivesModel, Cancels, IsMadeBy};
ghost use Rattle.bank_recur.specs.Spawning.{date_found};

use crate::series::HeldSeries;
use crate::upcoming::Upcoming;
use ofx_types::{Day, ModelRow, OutOfMemory};
use std::alloc::Global;
use std::collections::HashMap;
use std::marker::Model;

/// The recurring transfers of a bank, in the order in which they were made, the index of each under its id, and the next
/// transfers of those that make one, in the order in which they are made. There is room for one of each.
pub struct Models {
    series: Vec<HeldSeries>,
    indices: HashMap<u64, usize>,
    upcoming: Upcoming,
}

impl Model for Models {
    ghost use Rattle.std.specs.Prelude.{◌≡◌, ◌-◌, min, length, vec_len, vec_capacity};
    ghost use Rattle.std.specs.HashMap.{spare};
    ghost use Rattle.bank_recur.specs.ModelsView.{ModelsView, ids_of, IsOnce, HasIndices};
    ghost use Rattle.bank_recur.specs.Ahead.{IsAhead};

    ghost Value = { ModelsView };

    ghost view = { λ m. record {
      series = m.series.items;
      room = min (min (vec_capacity m.series - vec_len m.series) (spare m.indices)) (m.upcoming.room - length m.series.items);
    } };

    ghost invariant = { λ m. IsOnce m.series.items
        × HasIndices m.indices.entries (ids_of m.series.items)
        × IsAhead m.series.items m.upcoming };
}

impl Drop for Models {
    fn drop(self) {
        let Models {
            series: _,
            indices: _,
            upcoming: _,
        } = self;
    }
}

impl Models {
    /// The recurring transfers before any entry. Takes no memory.
    pub fn new(alloc: Global) -> Models
        ensures { Represents result [] }
    {
        Models {
            series: Vec::new(alloc),
            indices: HashMap::new(alloc),
            upcoming: Upcoming::new(alloc),
        }
    }

    /// The row of the recurring transfer with this id (RECSRVRTID), lent, also where it is cancelled. Takes no memory.
    pub fn get(&self, id: u64) -> Option<&ModelRow>
        ensures held { option_copied result ≡ row_found id self.now.series }
        ensures represented { (entries : List Entry) → Represents self.now entries
            → option_copied result ≡ model_of id entries }
    {
        match self.own(id) {
            Some(one) => Some(one.row()),
            None => None,
        }
    }

    /// Whether the recurring transfer with this id is cancelled. Takes no memory.
    pub fn cancelled(&self, id: u64) -> bool
        ensures { (entries : List Entry) → Represents self.now entries → result ≡ is_model_dropped id entries }
    {
        match self.own(id) {
            Some(one) => one.is_cancelled(),
            None => false,
        }
    }

    /// The occurrence, from 0, at which the recurring transfer with this id makes its next transfer. The recurring transfer is
    /// there. Takes no memory.
    pub fn next_k(&self, id: u64) -> u32
        requires { is_some (row_found id self.now.series) ≡ true }
        ensures held { result ≡ occurrence_found id self.now.series }
        ensures represented { (entries : List Entry) → Represents self.now entries → result ≡ next_occurrence id entries }
    {
        match self.own(id) {
            Some(one) => one.occurrence(),
            None => 0,
        }
    }

    /// Makes room for so many more recurring transfers.
    ///
    /// Where memory is refused, all is as before, and so is the room that there was.
    pub fn reserve(&mut self, models: u32) -> Result<(), OutOfMemory>
        ensures series { self.new.series ≡ self.old.series }
        ensures holds { (entries : List Entry) → Represents self.old entries → Represents self.new entries }
        ensures room { OnOk result (models ≤ self.new.room) }
        ensures room_stays { self.old.room ≤ self.new.room }
    {
        self.series.reserve(models as usize)?;
        self.indices.reserve(models as usize)?;
        let ahead = self.series.len() - self.upcoming.len();
        self.upcoming.reserve(ahead + models as usize)?;
        Ok(())
    }

    /// Adds a new recurring transfer after all others, or gives the one with its id this row from now on, at its index. It
    /// begins anew, at occurrence 0. There is room for it, and it takes no memory.
    pub fn put(&mut self, row: ModelRow)
        requires room { 0 < self.old.room }
        requires first { IsDay row.first.0 }
        ensures holds { (entries : List Entry) (entry : Entry) → Represents self.old entries
            → GivesModel entries entry.change row
            → Represents self.new (entries ++ entry ∷ []) }
        ensures row { row_found row.id self.new.series ≡ Some row }
        ensures occurrence { occurrence_found row.id self.new.series ≡ 0 }
        ensures room { self.old.room ≤ self.new.room + 1 }
    {
        let id = row.id;
        match self.index_of(id) {
            Some(at) => {
                let one = &mut self.series[at];
                let before = one.date_ahead();
                one.begin_anew(row);
                let after = one.date_ahead();
                self.upcoming.exchange(id, before, after);
            }
            None => {
                let index = self.series.len();
                let one = HeldSeries::new(row);
                let day = one.date_ahead();
                self.series.push_reserved(one);
                let added: Result<_, _> = self.indices.insert(id, index);
                let _new = added.unwrap();
                self.upcoming.enter(id, day);
            }
        }
    }

    /// The recurring transfer with this id is cancelled. Takes no memory.
    pub fn cancel(&mut self, id: u64)
        ensures holds { (entries : List Entry) (entry : Entry) → Represents self.old entries
            → Cancels entries entry.change id
            → Represents self.new (entries ++ entry ∷ []) }
        ensures room { self.new.room ≡ self.old.room }
    {
        if let Some(at) = self.index_of(id) {
            let one = &mut self.series[at];
            let before = one.date_ahead();
            one.cancel();
            let after = one.date_ahead();
            self.upcoming.exchange(id, before, after);
        }
    }

    /// The recurring transfer with this id, which is there, has made its next transfer. Takes no memory.
    pub fn spawned(&mut self, id: u64)
        requires there { is_some (row_found id self.old.series) ≡ true }
        requires below { occurrence_found id self.old.series < 4294967295 }
        ensures holds { (entries : List Entry) (entry : Entry) → Represents self.old entries
            → IsMadeBy entries entry.change id
            → Represents self.new (entries ++ entry ∷ []) }
        ensures room { self.new.room ≡ self.old.room }
    {
        if let Some(at) = self.index_of(id) {
            let one = &mut self.series[at];
            let before = one.date_ahead();
            one.step();
            let after = one.date_ahead();
            self.upcoming.exchange(id, before, after);
        }
    }

    /// The date of the next transfer of the recurring transfer with this id, where it makes one by a last day. Takes no
    /// memory.
    pub fn date_to_make(&self, id: u64, last: Day) -> Option<Day>
        ensures { (entries : List Entry) → Represents self.now entries → result ≡ date_to_make last id entries }
    {
        next_date(self.own(id), last)
    }

    /// The recurring transfer that makes its next transfer first of those that make one by a last day, with the
    /// transfer's occurrence number in its series: that with the earliest date, and on one date the least id. Takes no memory.
    pub fn next_spawn(&self, last: Day) -> Option<(u64, u32)>
        ensures { (entries : List Entry) → Represents self.now entries → result
            ≡ option_map (λ task. (task.id, next_occurrence task.id entries)) (first_task (to_make last entries)) }
    {
        match self.upcoming.first() {
            Some(first) if first.day.0 <= last.0 => Some((first.id, self.next_k(first.id))),
            _ => None,
        }
    }

    /// The index of the recurring transfer with this id.
    fn index_of(&self, id: u64) -> Option<usize>
        ensures { result ≡ position (λ one. one.row.id == id) self.now.series }
    {
        match self.indices.get(&id) {
            Some(index) => Some(*index),
            None => None,
        }
    }

    /// The recurring transfer with this id.
    fn own(&self, id: u64) -> Option<&HeldSeries>
        ensures { option_copied result ≡ series_found id self.now.series }
    {
        match self.index_of(id) {
            Some(at) => Some(&self.series[at]),
            None => None,
        }
    }
}

/// The date of the next transfer of a recurring transfer, where there is one and it makes one by a last day.
fn next_date(one: Option<&HeldSeries>, last: Day) -> Option<Day>
    ensures { result ≡ date_found last (option_copied one.entry) }
{
    match one {
        Some(one) => one.date_by(last),
        None => None,
    }
}
