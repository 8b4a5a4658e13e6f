//! What is held of one object: its last entries, and what its history made.

ghost use Rattle.std.specs.Prelude.{◌≡◌, ◌<◌, ◌≤◌, ◌∷◌, ◌++◌, [], ℕ, List, option_to_list, IfOk, OnOk};
ghost use Rattle.bank_model.specs.declared.entry.Entry.{Entry};
ghost use Rattle.token_window.specs.WindowView.{newest_held};
ghost use Rattle.bank_history.specs.Made.{origin_in};
ghost use Rattle.bank_history.specs.ObjectHistory.{HoldsHistory};

use crate::origins::Origin;
use bank_model::Entry;
use ofx_types::OutOfMemory;
use std::alloc::Global;
use std::marker::Model;
use token_window::Window;

/// What is held of an object.
pub(crate) struct ObjectHistory {
    window: Window,
    origins: Vec<Origin>,
}

impl Model for ObjectHistory {
    ghost use Rattle.std.specs.Prelude.{◌-◌, min, vec_len, vec_capacity};
    ghost use Rattle.bank_history.specs.ObjectHistory.{ObjectHistoryView};

    ghost Value = { ObjectHistoryView };

    ghost view = { λ k. record {
      window = k.window;
      origins = k.origins.items;
      room = min k.window.room (vec_capacity k.origins - vec_len k.origins);
    } };
}

impl Drop for ObjectHistory {
    fn drop(self) {
        let ObjectHistory {
            window: _,
            origins: _,
        } = self;
    }
}

impl ObjectHistory {
    /// What is held of an object without entries, with a window for so many.
    pub(crate) fn new(alloc: Global, width: u32) -> Result<ObjectHistory, OutOfMemory>
        requires width { (0 < width) × (width < 10001) }
        ensures { IfOk result (λ kept. HoldsHistory [] width kept) }
    {
        Ok(ObjectHistory {
            window: Window::new(alloc, width)?,
            origins: Vec::new(alloc),
        })
    }

    /// Its last entries, lent.
    pub(crate) fn window(&self) -> &Window
        ensures { result.now ≡ self.now.window }
    {
        &self.window
    }

    /// The origins of what its history made, lent.
    pub(crate) fn origins(&self) -> &[Origin]
        ensures { result.now ≡ self.now.origins }
    {
        self.origins.as_slice()
    }

    /// Makes room for one more entry.
    pub(crate) fn reserve(&mut self) -> Result<(), OutOfMemory>
        ensures holds { (history : List Entry) (width : ℕ) → HoldsHistory history width self.old → HoldsHistory history width self.new }
        ensures newest { newest_held self.new.window ≡ newest_held self.old.window }
        ensures room { OnOk result (0 < self.new.room) }
    {
        self.window.reserve(1)?;
        self.origins.reserve(1)?;
        Ok(())
    }

    /// Takes in an entry, whose number is above the newest one, and the origin that it is. There is room for it, and it takes
    /// no memory.
    pub(crate) fn add(&mut self, entry: Entry, origin: Option<Origin>)
        requires room { 0 < self.old.room }
        requires rising { newest_held self.old.window < entry.number }
        requires origin { option_to_list origin ≡ origin_in entry.change }
        ensures { (history : List Entry) (width : ℕ) → HoldsHistory history width self.old → HoldsHistory (history ++ entry ∷ []) width self.new }
    {
        let _left = self.window.add(entry);
        match origin {
            Some(origin) => self.origins.push_reserved(origin),
            None => {}
        }
    }
}
