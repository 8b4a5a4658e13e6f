//! What a client keeps of one object.

ghost use Rattle.std.specs.Prelude.{◌≡◌, false, [], Ok, OnOk, OnErr, MatchOption, option_copied, option_map, unwrap_or};
ghost use Rattle.std.specs.List.{find};
ghost use Rattle.ofx_types.specs.SyncForm.{object_family};
ghost use Rattle.bank_model.specs.Stores as model;
ghost use Rattle.bank_model.specs.Stores.{taken};
ghost use Rattle.bank_model.specs.Sync as rules;
ghost use Rattle.client_store.specs.RowForm.{seen, all_seen, IsInOrder, IsRising};
ghost use Rattle.client_store.specs.Taking.{history_applied, changes_applied};

use crate::changes::changes_done;
use crate::row::Row;
use crate::rows::Rows;
use ofx_types::{Duplicate, ObjectName, OutOfMemory, SyncKind, SyncReply, Text};
use ofx_values::read_number;
use std::alloc::Global;
use std::marker::Model;

/// The most digits of a token.
const MAX_DIGITS: usize = 10;

/// What a client keeps of an object: the token up to which it knows the object's history, and the rows that belong to it,
/// transfers and recurring transfers in rising id and mails in the order in which they came. A store that is marked lost
/// knows neither until all is asked for again.
///
/// ```rust
/// use client_store::Store;
/// use ofx_types::{ObjectName, Sequence, SyncKind, SyncReply, Text};
///
/// let alloc = rt.alloc();
/// let mut store = Store::new(alloc, ObjectName::Mail).expect(&rt, "room");
/// assert!(rt; store.token() == 0 && store.rows().is_empty());
/// // All current rows were asked for: no mail came up to token 3.
/// let reply = SyncReply {
///     object: ObjectName::Mail,
///     token: Text::new(alloc, b"3", 64).expect(&rt, "a token"),
///     lost: false,
///     replies: Sequence::new(alloc),
/// };
/// store.take(&SyncKind::Refresh, &reply).expect(&rt, "room");
/// assert!(rt; store.token() == 3 && store.rows().is_empty() && !store.lost());
/// ```
pub struct Store {
    object: ObjectName,
    token: u64,
    lost: bool,
    rows: Rows,
}

impl Model for Store {
    ghost use Rattle.std.specs.Prelude.{◌≡◌};
    ghost use Rattle.ofx_types.specs.SyncForm.{object_family};
    ghost use Rattle.bank_model.specs.Stores as model;

    ghost Value = { model.Store };

    ghost view = { λ s. record {
      name = s.object;
      token = s.token;
      is_lost = s.lost;
      rows = s.rows.rows;
    } };

    ghost invariant = { λ s. s.rows.family ≡ object_family s.object };
}

impl Drop for Store {
    fn drop(self) {
        let Store {
            object: _,
            token: _,
            lost: _,
            rows: _,
        } = self;
    }
}

impl Store {
    /// The store of an object of which nothing is known yet: token 0 and no rows.
    pub fn new(alloc: Global, object: ObjectName) -> Result<Store, OutOfMemory>
        ensures { result ≡ Ok (record { name = object; token = 0; is_lost = false; rows = [] }) }
    {
        let rows = Rows::none(alloc, object.family());
        Ok(Store {
            object,
            token: 0,
            lost: false,
            rows,
        })
    }

    /// The store of an object with these parts, as a saved text has them. None where a row isn't of the object's family, or an id
    /// isn't above the one before it. Takes no memory.
    pub fn from_parts(object: ObjectName, token: u64, lost: bool, rows: Vec<Row>) -> Option<Store>
        ensures { MatchOption result (IsRising (object_family object) 0 (all_seen rows.items) → ⊥)
            (λ store. store ≡ record { name = object; token = token; is_lost = lost; rows = all_seen rows.items }) }
    {
        let rows = Rows::from_vec(object.family(), rows)?;
        Some(Store {
            object,
            token,
            lost,
            rows,
        })
    }

    /// The rows of every store are of its object's family, in rising id.
    pub fn known(&self)
        ensures { IsInOrder self.now }
    {
        self.rows.known();
    }

    /// The object.
    pub fn object(&self) -> &ObjectName
        ensures { result.now ≡ self.now.name }
    {
        &self.object
    }

    /// The number up to which the object's history is known.
    pub fn token(&self) -> u64
        ensures { result ≡ self.now.token }
    {
        self.token
    }

    /// Whether the client has missed something, so that it has to ask for all.
    pub fn lost(&self) -> bool
        ensures { result ≡ self.now.is_lost }
    {
        self.lost
    }

    /// The rows: transfers and recurring transfers in rising id, mails in the order in which they came. Takes no memory.
    pub fn rows(&self) -> &[Row]
        ensures { all_seen result.now ≡ self.now.rows }
    {
        self.rows.items()
    }

    /// The row of the transfer or recurring transfer with this id (SRVRTID, RECSRVRTID), lent. It is found by binary search.
    /// Takes no memory.
    pub fn row(&self, id: u64) -> Option<&Row>
        ensures { option_map seen (option_copied result) ≡ find (model.has_id id) self.now.rows }
    {
        self.rows.row(id)
    }

    /// Takes the reply to a synchronisation of that kind in.
    ///
    /// Whoever asks for the token alone changes nothing. A reply with LOSTSYNC Y marks the store lost and changes nothing else.
    /// Any other brings its changes of status 0, to the rows that are there or, where all was asked for, to none; the token
    /// becomes the reply's and the mark goes. What is new or changed replaces the row with its id, or is inserted in order. A
    /// changed transfer keeps the recurring transfer that made it; what is cancelled is taken out; a mail comes last. A change
    /// that isn't of the object's family does nothing. The token has 1 to 10 digits; any other is taken as 0. This is so of every
    /// reply, also of one that no bank would give: the rows are in rising id after it.
    ///
    /// Where memory is refused the store is as before.
    #[tactic(auto, unfolding(bank_model::specs::Stores::taken))]
    pub fn take(&mut self, kind: &SyncKind, reply: &SyncReply) -> Result<(), OutOfMemory>
        ensures taken { OnOk result (self.new ≡ taken self.old kind.now reply.now) }
        ensures err { OnErr result (self.new ≡ self.old) }
    {
        match kind {
            SyncKind::TokenOnly => Ok(()),
            SyncKind::After(_) => self.apply_history(false, reply),
            SyncKind::Refresh => self.apply_history(true, reply),
        }
    }

    /// Takes in the reply to what came after the store's token, or to all there is. A lost one only marks the store.
    fn apply_history(&mut self, all: bool, reply: &SyncReply) -> Result<(), OutOfMemory>
        ensures taken { OnOk result (self.new ≡ history_applied self.old all reply.now) }
        ensures err { OnErr result (self.new ≡ self.old) }
    {
        if reply.lost {
            self.lost = true;
            return Ok(());
        }
        self.apply_changes(all, reply)
    }

    /// Does the changes of a reply that were done, to the rows that are there or to none, and takes its token.
    ///
    /// The changes are copied and there is room for all of them before the first is done, so that memory is refused only
    /// where nothing has changed yet.
    fn apply_changes(&mut self, all: bool, reply: &SyncReply) -> Result<(), OutOfMemory>
        ensures taken { OnOk result (self.new ≡ changes_applied self.old all reply.now) }
        ensures err { OnErr result (self.new ≡ self.old) }
    {
        let changes = changes_done(self.rows.allocator(), reply.replies.items())?;
        self.rows.begin(all, changes.len())?;
        self.rows.change_all(changes);
        self.token = number_of(&reply.token);
        self.lost = false;
        Ok(())
    }
}

impl Duplicate for Store {
    fn copy(&self) -> Result<Store, OutOfMemory> {
        Ok(Store {
            object: self.object.copy()?,
            token: self.token,
            lost: self.lost,
            rows: self.rows.copied()?,
        })
    }
}

/// The number that a token is. A text that is none is 0.
fn number_of(token: &Text) -> u64
    ensures { result ≡ unwrap_or (rules.token_of token.now) 0 }
{
    read_number(token.as_bytes(), MAX_DIGITS).unwrap_or(0)
}
