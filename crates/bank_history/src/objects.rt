//! What is held of each object, found by its number.

ghost use Rattle.std.specs.Prelude.{◌≡◌, ◌<◌, ◌∷◌, ◌++◌, [], List, None, OnOk};
ghost use Rattle.std.specs.Option.{option_copied};
ghost use Rattle.bank_model.specs.declared.entry.Entry.{Entry};
ghost use Rattle.bank_history.specs.ObjectHistory.{HoldHistories, held_at, room_in, newest_in};

use crate::object_history::ObjectHistory;
use crate::origins::origin_of;
use bank_model::Entry;
use ofx_types::{ObjectId, OutOfMemory};
use std::alloc::Global;
use std::collections::HashMap;
use std::marker::Model;

/// What is held of the objects that have entries.
pub(crate) struct Objects {
    alloc: Global,
    width: u32,
    held: HashMap<u32, ObjectHistory>,
}

impl Model for Objects {
    ghost use Rattle.std.specs.Prelude.{◌<◌};
    ghost use Rattle.bank_history.specs.ObjectHistory.{ObjectsView};

    ghost Value = { ObjectsView };

    ghost view = { λ o. record { width = o.width; held = o.held.entries } };

    ghost invariant = { λ o. (0 < o.width) × (o.width < 10001) };
}

impl Drop for Objects {
    fn drop(self) {
        let Objects {
            alloc: _,
            width: _,
            held: _,
        } = self;
    }
}

impl Objects {
    /// Nothing is held of any object. Windows are for so many entries. Takes no memory.
    pub(crate) fn new(alloc: Global, width: u32) -> Objects
        requires width { (0 < width) × (width < 10001) }
        ensures width { result.width ≡ width }
        ensures holds { HoldHistories [] result }
    {
        Objects {
            alloc,
            width,
            held: HashMap::new(alloc),
        }
    }

    /// What is held of an object, lent.
    pub(crate) fn get(&self, object: ObjectId) -> Option<&ObjectHistory>
        ensures { option_copied result ≡ held_at object self.now.held }
    {
        self.held.get(&object.0)
    }

    /// Makes room for an entry of an object.
    pub(crate) fn reserve(&mut self, object: ObjectId) -> Result<(), OutOfMemory>
        ensures width { self.new.width ≡ self.old.width }
        ensures holds { (entries : List Entry) → HoldHistories entries self.old → HoldHistories entries self.new }
        ensures newest { newest_in (held_at object self.new.held) ≡ newest_in (held_at object self.old.held) }
        ensures room { OnOk result (0 < room_in (held_at object self.new.held)) }
    {
        match self.held.get_mut(&object.0) {
            Some(kept) => kept.reserve(),
            None => self.begin(object),
        }
    }

    /// Begins to hold something of an object of which nothing is held, with room for an entry.
    fn begin(&mut self, object: ObjectId) -> Result<(), OutOfMemory>
        requires absent { held_at object self.old.held ≡ None }
        ensures width { self.new.width ≡ self.old.width }
        ensures holds { (entries : List Entry) → HoldHistories entries self.old → HoldHistories entries self.new }
        ensures newest { newest_in (held_at object self.new.held) ≡ 0 }
        ensures room { OnOk result (0 < room_in (held_at object self.new.held)) }
    {
        let mut kept = ObjectHistory::new(self.alloc, self.width)?;
        kept.reserve()?;
        self.held.insert(object.0, kept)?;
        Ok(())
    }

    /// Takes in an entry, whose number is above the newest one of its object. There is room for it, and it takes no memory.
    pub(crate) fn add(&mut self, entry: Entry)
        requires room { 0 < room_in (held_at entry.object self.old.held) }
        requires rising { newest_in (held_at entry.object self.old.held) < entry.number }
        ensures width { self.new.width ≡ self.old.width }
        ensures holds { (entries : List Entry) → HoldHistories entries self.old → HoldHistories (entries ++ entry ∷ []) self.new }
    {
        let origin = origin_of(&entry.change);
        match self.held.get_mut(&entry.object.0) {
            Some(kept) => kept.add(entry, origin),
            None => unreachable!(),
        }
    }
}
