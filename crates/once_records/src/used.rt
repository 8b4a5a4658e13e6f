//! The uids that are used up, found by their names' hashes, and seen in the order in which they were used up.

ghost use Rattle.std.specs.Prelude.{◌≡◌, ◌+◌, ◌<◌, ◌≤◌, ◌∷◌, ◌++◌, [], false, OnOk};
ghost use Rattle.bank_model.specs.Once.{is_used};
ghost use Rattle.once_records.specs.RecordsView.{UsedOnce};

use crate::name::Name;
use ofx_types::{OutOfMemory, TrnUid, UserId};
use std::alloc::Global;
use std::collections::HashMap;
use std::hash::RandomState;
use std::marker::Model;

/// The uids that are used up, each with a number of its own, above those of all that were used up before it.
pub(crate) struct Used {
    held: HashMap<Name, u64, RandomState>,
    next: u64,
}

impl Model for Used {
    ghost use Rattle.std.specs.Prelude.{◌-◌, ◌^◌, min};
    ghost use Rattle.std.specs.HashMap.{spare};
    ghost use Rattle.once_records.specs.Names.{UsedView, in_order_used, AreNumberedOnce};

    ghost Value = { UsedView };

    ghost view = { λ u. record {
      used = in_order_used u.held.entries;
      room = min (spare u.held) (2 ^ 64 - 1 - u.next);
    } };

    ghost invariant = { λ u. AreNumberedOnce u.next u.held.entries };
}

impl Drop for Used {
    fn drop(self) {
        let Used { held: _, next: _ } = self;
    }
}

impl Used {
    /// Nothing is used up, and there is no room. Takes no memory.
    pub(crate) fn new(alloc: Global, keys: RandomState) -> Used
        ensures { result.used ≡ [] }
    {
        Used {
            held: HashMap::with_hasher(alloc, keys),
            next: 0,
        }
    }

    /// That no user has used up a uid twice. Does nothing.
    pub(crate) fn known(&self)
        ensures { UsedOnce self.now.used }
    {
        let _held = &self.held;
    }

    /// Whether the user has used up the uid. Takes no memory.
    pub(crate) fn has(&self, user: UserId, trnuid: &TrnUid) -> bool
        ensures { result ≡ is_used user trnuid.now self.now.used }
    {
        let name = Name::new(user, trnuid.as_bytes());
        self.held.contains_key(&name)
    }

    /// Makes room for so many more uids, whose numbers are left too.
    pub(crate) fn reserve(&mut self, pairs: u32) -> Result<(), OutOfMemory>
        ensures used { self.new.used ≡ self.old.used }
        ensures room { OnOk result (pairs ≤ self.new.room) }
        ensures room_stays { self.old.room ≤ self.new.room }
    {
        if self.next > u64::MAX - pairs as u64 {
            return Err(OutOfMemory);
        }
        self.held.reserve(pairs as usize)?;
        Ok(())
    }

    /// Uses up a uid that the user hasn't used. There is room for it, and it takes no memory.
    pub(crate) fn use_up(&mut self, user: UserId, trnuid: TrnUid)
        requires room { 0 < self.old.room }
        requires unused { is_used user trnuid self.old.used ≡ false }
        ensures used { self.new.used ≡ self.old.used ++ record { user = user; trnuid = trnuid } ∷ [] }
        ensures room { self.old.room ≤ self.new.room + 1 }
    {
        let name = Name::new(user, trnuid.as_bytes());
        let used: Result<_, _> = self.held.insert(name, self.next);
        let _none = used.unwrap();
        self.next += 1;
    }
}
