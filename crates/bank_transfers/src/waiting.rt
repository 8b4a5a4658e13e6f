//! The transfers that wait: found by their ids' hashes, and listed by their due days and by the recurring transfers that made
//! them.

ghost use Rattle.std.specs.Prelude.{◌≡◌, ◌+◌, ◌<◌, ◌≤◌, ℕ, List, None, Some, if◌then◌else◌, ◌==◌, map, filter, int_le, nat_le, nat_lt, not, IfOk, OnOk};
ghost use Rattle.std.specs.Option.{option_copied, option_map};
ghost use Rattle.ofx_types.specs.declared.transfer.TransferRow.{TransferRow};
ghost use Rattle.bank_model.specs.Due.{first_task, task_of};
ghost use Rattle.bank_transfers.specs.Waiting as waiting;
ghost use Rattle.bank_transfers.specs.TransfersView.{row_at};
ghost use Rattle.bank_transfers.specs.Waiting.{AreRows, AreFalling};

use crate::order::{put_key, remove_key};
use ofx_types::{Day, OutOfMemory, TransferRow};
use std::alloc::Global;
use std::cmp::Reverse;
use std::collections::HashMap;
use std::marker::Model;

/// A transfer that is to be posted: the day on which it is due, and its id (SRVRTID). What is to be done later comes first.
#[derive(Clone, Copy, PartialEq, Eq, PartialOrd, Ord)]
pub(crate) struct DueTask {
    pub(crate) day: Reverse<Day>,
    pub(crate) id: Reverse<u64>,
}

/// A transfer with the id of the recurring transfer that made it (RECSRVRTID, 0 is none), and its own (SRVRTID). The greater id
/// of a recurring transfer comes first, so those that none made come last.
#[derive(Clone, Copy, PartialEq, Eq, PartialOrd, Ord)]
pub(crate) struct Made {
    pub(crate) model: Reverse<u64>,
    pub(crate) id: u64,
}

/// The rows of the transfers that wait. The one that is due first is the last of the tasks, where it is taken without moving the
/// others. Those that a recurring transfer made are listed one after another, and a new one that none made comes last.
pub(crate) struct Waiting {
    held: HashMap<u64, TransferRow>,
    tasks: Vec<DueTask>,
    made: Vec<Made>,
    // for how many more there is room
    left: usize,
}

impl Model for Waiting {
    ghost use Rattle.std.specs.Prelude.{◌+◌, ◌≤◌, vec_len, vec_capacity};
    ghost use Rattle.std.specs.HashMap.{spare};
    ghost use Rattle.bank_transfers.specs.Waiting.{WaitingView, AreListed};

    ghost Value = { WaitingView };

    ghost view = { λ w. record { rows = w.held.entries; room = w.left } };

    ghost invariant = { λ w. AreListed w.held.entries w.tasks.items w.made.items
        × (w.left ≤ spare w.held) × (vec_len w.tasks + w.left ≤ vec_capacity w.tasks) × (vec_len w.made + w.left ≤ vec_capacity w.made) };
}

impl Drop for Waiting {
    fn drop(self) {
        let Waiting {
            held: _,
            tasks: _,
            made: _,
            left: _,
        } = self;
    }
}

impl Waiting {
    /// No transfer waits. Takes no memory.
    pub(crate) fn new(alloc: Global) -> Waiting
        ensures { (id : ℕ) → row_at result.rows id ≡ None }
    {
        Waiting {
            held: HashMap::new(alloc),
            tasks: Vec::new(alloc),
            made: Vec::new(alloc),
            left: 0,
        }
    }

    /// The row of the transfer with this id, lent.
    pub(crate) fn get(&self, id: u64) -> Option<&TransferRow>
        ensures { option_copied result ≡ row_at self.now.rows id }
    {
        self.held.get(&id)
    }

    /// Makes room for so many more rows.
    pub(crate) fn reserve(&mut self, rows: u32) -> Result<(), OutOfMemory>
        ensures found { (id : ℕ) → row_at self.new.rows id ≡ row_at self.old.rows id }
        ensures room { OnOk result (rows ≤ self.new.room) }
        ensures room_stays { self.old.room ≤ self.new.room }
    {
        self.held.reserve(rows as usize)?;
        self.tasks.reserve(rows as usize)?;
        self.made.reserve(rows as usize)?;
        if self.left < rows as usize {
            self.left = rows as usize;
        }
        Ok(())
    }

    /// Puts the row of a transfer that waits, in place of one with its id. There is room for it, and it takes no memory.
    pub(crate) fn put(&mut self, row: TransferRow)
        requires room { 0 < self.old.room }
        ensures found { (id : ℕ) → row_at self.new.rows id ≡ (if row.id == id then Some row else row_at self.old.rows id) }
        ensures room { self.old.room ≤ self.new.room + 1 }
    {
        let id = row.id;
        self.remove_row(id);
        self.left -= 1;
        put_key(&mut self.tasks, task_key(&row));
        put_key(&mut self.made, made_key(&row));
        let put: Result<_, _> = self.held.insert(id, row);
        let _none = put.unwrap();
    }

    /// Takes the row of the transfer with this id out, where it is there.
    pub(crate) fn remove_row(&mut self, id: u64)
        ensures found { (other : ℕ) → row_at self.new.rows other ≡ (if id == other then None else row_at self.old.rows other) }
        ensures room { self.old.room ≤ self.new.room }
    {
        let Some(row) = self.held.remove(&id) else {
            return;
        };
        remove_key(&mut self.tasks, &task_key(&row));
        remove_key(&mut self.made, &made_key(&row));
    }

    /// The transfer that is to be posted next on a day: of those that are due on or before it, the one with the earliest due
    /// day, and of one day the one with the least id.
    pub(crate) fn first_due(&self, day: Day) -> Option<u64>
        ensures { (rows : List TransferRow) → AreRows self.now rows
            → result ≡ option_map (λ task. task.id) (first_task (map task_of (filter (λ (row : TransferRow). int_le row.due.0 day.0) rows))) }
    {
        match self.tasks.last() {
            Some(task) => due_by(*task, day),
            None => None,
        }
    }

    /// The ids of the transfers that the recurring transfer with this id made, in the order in which they were made.
    pub(crate) fn of_model(&self, alloc: Global, model: u64) -> Result<Vec<u64>, OutOfMemory>
        ensures { IfOk result (λ ids. (rows : List TransferRow) → AreRows self.now rows
            → ids.items ≡ map (λ (row : TransferRow). row.id) (filter (λ (row : TransferRow). row.model == model) rows)) }
    {
        let mut ids = Vec::new(alloc);
        for made in up_to(from(&self.made, model), model) {
            ids.push(made.id)?;
        }
        Ok(ids)
    }
}

fn task_key(row: &TransferRow) -> DueTask
    ensures { result ≡ waiting.task_key row.now }
{
    DueTask {
        day: Reverse(row.due),
        id: Reverse(row.id),
    }
}

fn made_key(row: &TransferRow) -> Made
    ensures { result ≡ waiting.made_key row.now }
{
    Made {
        model: Reverse(row.model),
        id: row.id,
    }
}

/// The id of the task's transfer, where it is due on or before the day.
fn due_by(task: DueTask, day: Day) -> Option<u64>
    ensures { result ≡ (if int_le task.day.0.0 day.0 then Some task.id.0 else None) }
{
    if task.day.0.0 <= day.0 {
        Some(task.id.0)
    } else {
        None
    }
}

/// Those of a recurring transfer and of those with lesser ids.
fn from(made: &[Made], model: u64) -> &[Made]
    requires { AreFalling made.now }
    ensures { result.now ≡ filter (λ (m : Made). not (nat_lt model m.model.0)) made.now }
{
    let first = made.partition_point(|m| m.model.0 > model);
    &made[first..]
}

/// Those of a recurring transfer and of those with greater ids.
fn up_to(made: &[Made], model: u64) -> &[Made]
    requires { AreFalling made.now }
    ensures { result.now ≡ filter (λ (m : Made). nat_le model m.model.0) made.now }
{
    let last = made.partition_point(|m| m.model.0 >= model);
    &made[..last]
}
