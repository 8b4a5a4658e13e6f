//! The uids that the deeds of one event use up, looked up by their hash.

ghost use Rattle.std.specs.Prelude.{◌≡◌, ◌∷◌, ◌++◌, [], length, OnOk, OnErr, bytes_eq};
ghost use Rattle.std.specs.List.{list_any};

use ofx_types::{Duplicate, OutOfMemory, TrnUid};
use std::alloc::Global;
use std::collections::HashSet;
use std::marker::Model;

/// Uids in the order in which they were used up.
pub struct Uids {
    order: Vec<TrnUid>,
    known: HashSet<TrnUid>,
}

impl Model for Uids {
    ghost use Rattle.std.specs.Prelude.{ℕ, List};
    ghost use Rattle.once_records.specs.UidsView.{HaveSameUids};

    ghost Value = { List (List ℕ) };

    ghost view = { λ u. u.order.items };

    ghost invariant = { λ u. HaveSameUids u.known.keys u.order.items };
}

impl Drop for Uids {
    fn drop(self) {
        let Uids { order: _, known: _ } = self;
    }
}

impl Uids {
    /// No uid is used up. Takes no memory.
    pub fn new(alloc: Global) -> Uids
        ensures { result ≡ [] }
    {
        Uids {
            order: Vec::new(alloc),
            known: HashSet::new(alloc),
        }
    }

    /// How many uids there are.
    pub fn len(&self) -> usize
        ensures { result ≡ length self.now }
    {
        self.order.len()
    }

    /// Whether the uid is used up. Takes no memory.
    pub fn has(&self, trnuid: &TrnUid) -> bool
        ensures { result ≡ list_any (λ uid. bytes_eq uid trnuid.now) self.now }
    {
        self.known.contains(trnuid)
    }

    /// Uses up a uid. Where memory is refused, the uids are as before.
    pub fn use_up(&mut self, trnuid: TrnUid) -> Result<(), OutOfMemory>
        ensures ok { OnOk result (self.new ≡ self.old ++ trnuid ∷ []) }
        ensures err { OnErr result (self.new ≡ self.old) }
    {
        self.order.reserve(1)?;
        let known = trnuid.copy()?;
        self.known.insert(known)?;
        self.order.push_reserved(trnuid);
        Ok(())
    }

    /// The uids, in their order.
    pub fn into_vec(self) -> Vec<TrnUid>
        ensures { result.items ≡ self }
    {
        let Uids { order, known: _ } = self;
        order
    }
}
