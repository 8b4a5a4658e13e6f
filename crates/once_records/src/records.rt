//! The uids that are used up and the replies that are kept, found by their hash.

ghost use Rattle.std.specs.Prelude.{◌≡◌, ◌+◌, ◌<◌, ◌≤◌, ◌∷◌, ◌++◌, [], false, None, is_some, OnOk};
ghost use Rattle.std.specs.Option.{option_copied};
ghost use Rattle.bank_model.specs.Once.{is_used, reply_kept, released};
ghost use Rattle.once_records.specs.RecordsView.{UsedOnce, KeptOnce};

use crate::replies::Replies;
use crate::used::Used;
use ofx_types::{FileUid, OutOfMemory, TrnUid, UserId};
use std::alloc::Global;
use std::hash::RandomState;
use std::marker::Model;

/// The uids that users have used up, and the replies that are kept for users' files. Each is here once.
///
/// Clients choose the names, so their hashes have keys that no client knows.
///
/// ```rust
/// use ofx_types::{TrnUid, UserId};
/// use once_records::Records;
/// use std::hash::RandomState;
///
/// let keys = RandomState::new(&rt).expect(&rt, "keys");
/// let mut records = Records::new(rt.alloc(), keys);
/// // Room for one uid. Then it is used up without taking memory.
/// records.reserve(1, 0).expect(&rt, "room");
/// let uid = TrnUid::new(b"t1").expect(&rt, "a uid");
/// assert!(rt; !records.used(UserId(0), &uid));
/// records.use_up(UserId(0), uid);
/// let uid = TrnUid::new(b"t1").expect(&rt, "a uid");
/// assert!(rt; records.used(UserId(0), &uid) && !records.used(UserId(1), &uid));
/// ```
pub struct Records {
    used: Used,
    kept: Replies,
}

impl Model for Records {
    ghost use Rattle.once_records.specs.RecordsView.{RecordsView};

    ghost Value = { RecordsView };

    ghost view = { λ r. record {
      used = r.used.used;
      kept = r.kept.kept;
      pairs = r.used.room;
      files = r.kept.room;
    } };
}

impl Drop for Records {
    fn drop(self) {
        let Records { used: _, kept: _ } = self;
    }
}

impl Records {
    /// Nothing is used up and nothing is kept, and there is no room. Takes no memory.
    pub fn new(alloc: Global, keys: RandomState) -> Records
        ensures used { result.used ≡ [] }
        ensures kept { result.kept ≡ [] }
    {
        Records {
            used: Used::new(alloc, keys),
            kept: Replies::new(alloc, keys),
        }
    }

    /// That each pair and each file is here once. Does nothing.
    pub fn known(&self)
        ensures used { UsedOnce self.now.used }
        ensures kept { KeptOnce self.now.kept }
    {
        self.used.known();
        self.kept.known();
    }

    /// Whether the user has used up the uid. Takes no memory.
    pub fn used(&self, user: UserId, trnuid: &TrnUid) -> bool
        ensures { result ≡ is_used user trnuid.now self.now.used }
    {
        self.used.has(user, trnuid)
    }

    /// The reply that is kept for the user's file, lent. Takes no memory.
    pub fn kept(&self, user: UserId, file: &FileUid) -> Option<&[u8]>
        ensures { option_copied result ≡ reply_kept user file.now self.now.kept }
    {
        self.kept.get(user, file)
    }

    /// Makes room for so many more uids and so many more replies.
    ///
    /// Where memory is refused, all that is used up and kept is as before, and so is the room that there was.
    pub fn reserve(&mut self, pairs: u32, files: u32) -> Result<(), OutOfMemory>
        ensures used { self.new.used ≡ self.old.used }
        ensures kept { self.new.kept ≡ self.old.kept }
        ensures pairs { OnOk result (pairs ≤ self.new.pairs) }
        ensures files { OnOk result (files ≤ self.new.files) }
        ensures pairs_stay { self.old.pairs ≤ self.new.pairs }
        ensures files_stay { self.old.files ≤ self.new.files }
    {
        self.used.reserve(pairs)?;
        self.kept.reserve(files)
    }

    /// Uses up a uid that the user hasn't used. There is room for it, and it takes no memory.
    pub fn use_up(&mut self, user: UserId, trnuid: TrnUid)
        requires room { 0 < self.old.pairs }
        requires unused { is_used user trnuid self.old.used ≡ false }
        ensures used { self.new.used ≡ self.old.used ++ record { user = user; trnuid = trnuid } ∷ [] }
        ensures kept { self.new.kept ≡ self.old.kept }
        ensures pairs { self.old.pairs ≤ self.new.pairs + 1 }
        ensures files { self.new.files ≡ self.old.files }
    {
        self.used.use_up(user, trnuid);
    }

    /// Keeps the reply to a user's file that has none. There is room for it, and it takes no memory.
    pub fn keep(&mut self, user: UserId, file: FileUid, reply: Vec<u8>)
        requires room { 0 < self.old.files }
        requires absent { reply_kept user file self.old.kept ≡ None }
        ensures used { self.new.used ≡ self.old.used }
        ensures kept { self.new.kept
            ≡ self.old.kept ++ record { user = user; file = file; reply = reply.items } ∷ [] }
        ensures pairs { self.new.pairs ≡ self.old.pairs }
        ensures files { self.old.files ≤ self.new.files + 1 }
    {
        self.kept.keep(user, file, reply);
    }

    /// Lets go the reply to the user's file, and answers whether there was one. The room stays, and may grow.
    pub fn release(&mut self, user: UserId, file: &FileUid) -> bool
        ensures used { self.new.used ≡ self.old.used }
        ensures kept { self.new.kept ≡ released user file.now self.old.kept }
        ensures there { result ≡ is_some (reply_kept user file.now self.old.kept) }
        ensures pairs { self.new.pairs ≡ self.old.pairs }
        ensures files { self.old.files ≤ self.new.files }
    {
        self.kept.release(user, file)
    }
}
