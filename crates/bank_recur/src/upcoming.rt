//! The next transfers of recurring transfers, kept in the order in which they are made.

ghost use Rattle.std.specs.Prelude.{◌≡◌, ◌+◌, ◌≤◌, ℕ, [], length, ◌==◌, if◌then◌else◌, None, OnOk};
ghost use Rattle.bank_recur.specs.Upcoming.{day_in, days_of, IsInOrder, IsIndex, IsFirst};

use crate::spawn::{Spawn, is_before};
use ofx_types::{Day, OutOfMemory};
use std::alloc::Global;
use std::marker::Model;

/// The next transfer of each recurring transfer that makes one; the one that is made first is at the start.
pub(crate) struct Upcoming {
    spawns: Vec<Spawn>,
}

impl Model for Upcoming {
    ghost use Rattle.std.specs.Prelude.{vec_capacity};
    ghost use Rattle.bank_recur.specs.Upcoming.{UpcomingView, IsInOrder};

    ghost Value = { UpcomingView };

    ghost view = { λ upcoming. record { spawns = upcoming.spawns.items; room = vec_capacity upcoming.spawns } };

    ghost invariant = { λ upcoming. IsInOrder upcoming.spawns.items };
}

impl Drop for Upcoming {
    fn drop(self) {
        let Upcoming { spawns: _ } = self;
    }
}

impl Upcoming {
    /// None yet. Takes no memory.
    pub(crate) fn new(alloc: Global) -> Upcoming
        ensures { result.spawns ≡ [] }
    {
        Upcoming {
            spawns: Vec::new(alloc),
        }
    }

    /// How many there are.
    pub(crate) fn len(&self) -> usize
        ensures { result ≡ length self.now.spawns }
    {
        self.spawns.len()
    }

    /// Makes room for so many more.
    pub(crate) fn reserve(&mut self, more: usize) -> Result<(), OutOfMemory>
        ensures spawns { self.new.spawns ≡ self.old.spawns }
        ensures room { OnOk result (length self.old.spawns + more ≤ self.new.room) }
        ensures room_stays { self.old.room ≤ self.new.room }
    {
        self.spawns.reserve(more)?;
        Ok(())
    }

    /// The one that is made first.
    pub(crate) fn first(&self) -> Option<Spawn>
        ensures { IsFirst result self.now.spawns }
    {
        match self.spawns.first() {
            Some(first) => Some(*first),
            None => None,
        }
    }

    /// The recurring transfer with this id makes its next transfer on another day than before, or none.
    pub(crate) fn exchange(&mut self, id: u64, before: Option<Day>, after: Option<Day>)
        requires before { day_in id self.old.spawns ≡ before }
        requires room { length self.old.spawns + days_of after ≤ self.old.room + days_of before }
        ensures days { (other : ℕ) → day_in other self.new.spawns
            ≡ (if id == other then after else day_in other self.old.spawns) }
        ensures length { length self.new.spawns + days_of before ≡ length self.old.spawns + days_of after }
        ensures room { self.new.room ≡ self.old.room }
    {
        self.leave(id, before);
        self.enter(id, after);
    }

    /// Puts in the next transfer of the recurring transfer with this id, which has none there, where it makes one.
    pub(crate) fn enter(&mut self, id: u64, day: Option<Day>)
        requires apart { day_in id self.old.spawns ≡ None }
        requires room { length self.old.spawns + days_of day ≤ self.old.room }
        ensures days { (other : ℕ) → day_in other self.new.spawns
            ≡ (if id == other then day else day_in other self.old.spawns) }
        ensures length { length self.new.spawns ≡ length self.old.spawns + days_of day }
        ensures room { self.new.room ≡ self.old.room }
    {
        if let Some(day) = day {
            let next = Spawn { day, id };
            let at = index_of(&self.spawns, next);
            let entered: Result<_, _> = self.spawns.insert(at, next);
            let _room = entered.unwrap();
        }
    }

    /// Takes out the next transfer of the recurring transfer with this id, where it has one.
    fn leave(&mut self, id: u64, day: Option<Day>)
        requires { day_in id self.old.spawns ≡ day }
        ensures days { (other : ℕ) → day_in other self.new.spawns
            ≡ (if id == other then None else day_in other self.old.spawns) }
        ensures length { length self.new.spawns + days_of day ≡ length self.old.spawns }
        ensures room { self.new.room ≡ self.old.room }
    {
        if let Some(day) = day {
            let at = index_of(&self.spawns, Spawn { day, id });
            let _gone = self.spawns.remove(at);
        }
    }
}

/// How many of transfers in order come before this one, found by binary search: its index among them.
fn index_of(spawns: &[Spawn], next: Spawn) -> usize
    requires { IsInOrder spawns.now }
    ensures { IsIndex next spawns.now result }
{
    spawns.partition_point(|spawn| is_before(spawn, &next))
}
