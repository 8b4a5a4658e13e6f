//! The replies that are kept, found by their names' hashes, and seen in the order in which they were kept.

ghost use Rattle.std.specs.Prelude.{◌≡◌, ◌+◌, ◌<◌, ◌≤◌, ◌∷◌, ◌++◌, [], None, is_some, OnOk};
ghost use Rattle.std.specs.Option.{option_copied};
ghost use Rattle.bank_model.specs.Once.{reply_kept, released};
ghost use Rattle.once_records.specs.RecordsView.{KeptOnce};

use crate::name::Name;
use ofx_types::{FileUid, OutOfMemory, Sequence, UserId};
use std::alloc::Global;
use std::collections::HashMap;
use std::hash::RandomState;
use std::marker::Model;

/// The bytes of a reply, with the number of it among all that were ever kept.
#[derive(Drop)]
pub(crate) struct Numbered {
    number: u64,
    reply: Sequence<u8>,
}

/// The replies that are kept, each with a number of its own, above those of all that were kept before it.
pub(crate) struct Replies {
    held: HashMap<Name, Numbered, RandomState>,
    next: u64,
}

impl Model for Replies {
    ghost use Rattle.std.specs.Prelude.{◌-◌, ◌^◌, min};
    ghost use Rattle.std.specs.HashMap.{spare};
    ghost use Rattle.once_records.specs.RecordsView.{KeptOnce};
    ghost use Rattle.once_records.specs.Names.{RepliesView, in_order_kept, AreNumbered};

    ghost Value = { RepliesView };

    ghost view = { λ r. record {
      kept = in_order_kept r.held.entries;
      room = min (spare r.held) (2 ^ 64 - 1 - r.next);
    } };

    ghost invariant = { λ r. AreNumbered r.next r.held.entries };
}

impl Drop for Replies {
    fn drop(self) {
        let Replies { held: _, next: _ } = self;
    }
}

impl Replies {
    /// No reply is kept, and there is no room. Takes no memory.
    pub(crate) fn new(alloc: Global, keys: RandomState) -> Replies
        ensures { result.kept ≡ [] }
    {
        Replies {
            held: HashMap::with_hasher(alloc, keys),
            next: 0,
        }
    }

    /// That each file's reply is here once. Does nothing.
    pub(crate) fn known(&self)
        ensures { KeptOnce self.now.kept }
    {
        let _held = &self.held;
    }

    /// The reply that is kept for the user's file, lent. Takes no memory.
    pub(crate) fn get(&self, user: UserId, file: &FileUid) -> Option<&[u8]>
        ensures { option_copied result ≡ reply_kept user file.now self.now.kept }
    {
        let name = Name::new(user, file.as_bytes());
        match self.held.get(&name) {
            Some(one) => Some(one.reply.items()),
            None => None,
        }
    }

    /// Makes room for so many more replies, whose numbers are left too.
    pub(crate) fn reserve(&mut self, replies: u32) -> Result<(), OutOfMemory>
        ensures kept { self.new.kept ≡ self.old.kept }
        ensures room { OnOk result (replies ≤ self.new.room) }
        ensures room_stays { self.old.room ≤ self.new.room }
    {
        if self.next > u64::MAX - replies as u64 {
            return Err(OutOfMemory);
        }
        self.held.reserve(replies as usize)?;
        Ok(())
    }

    /// Keeps the reply to a user's file that has none. There is room for it, and it takes no memory.
    pub(crate) fn keep(&mut self, user: UserId, file: FileUid, reply: Vec<u8>)
        requires room { 0 < self.old.room }
        requires absent { reply_kept user file self.old.kept ≡ None }
        ensures kept { self.new.kept
            ≡ self.old.kept ++ record { user = user; file = file; reply = reply.items } ∷ [] }
        ensures room { self.old.room ≤ self.new.room + 1 }
    {
        let name = Name::new(user, file.as_bytes());
        let one = Numbered {
            number: self.next,
            reply: Sequence::from_vec(reply),
        };
        let kept: Result<_, _> = self.held.insert(name, one);
        let _none = kept.unwrap();
        self.next += 1;
    }

    /// Lets go the reply to the user's file, and answers whether there was one. The room stays, and may grow.
    pub(crate) fn release(&mut self, user: UserId, file: &FileUid) -> bool
        ensures kept { self.new.kept ≡ released user file.now self.old.kept }
        ensures there { result ≡ is_some (reply_kept user file.now self.old.kept) }
        ensures room { self.old.room ≤ self.new.room }
    {
        let name = Name::new(user, file.as_bytes());
        self.held.remove(&name).is_some()
    }
}
