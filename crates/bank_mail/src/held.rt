//! The mails of one object, as they are held.

ghost use Rattle.std.specs.Prelude.{◌≡◌, ◌+◌, ◌<◌, ◌≤◌, ◌∷◌, ◌++◌, [], IfOk, OnOk};

use ofx_types::{MailRow, ObjectId, OutOfMemory};
use std::alloc::Global;
use std::marker::Model;

/// The mails of an object in order.
pub(crate) struct HeldMails {
    object: ObjectId,
    rows: Vec<MailRow>,
}

impl Model for HeldMails {
    ghost use Rattle.std.specs.Prelude.{◌-◌, vec_len, vec_capacity};
    ghost use Rattle.bank_mail.specs.MailsView.{ObjectMails};

    ghost Value = { ObjectMails };

    ghost view = { λ held. record {
      object = held.object;
      rows = held.rows.items;
      room = vec_capacity held.rows - vec_len held.rows;
    } };
}

impl Drop for HeldMails {
    fn drop(self) {
        let HeldMails { object: _, rows: _ } = self;
    }
}

impl HeldMails {
    /// No mail of the object yet, with room for so many.
    pub(crate) fn new(alloc: Global, object: ObjectId, room: u32) -> Result<HeldMails, OutOfMemory>
        ensures object { IfOk result (λ held. held.object ≡ object) }
        ensures rows { IfOk result (λ held. held.rows ≡ []) }
        ensures room { IfOk result (λ held. room ≤ held.room) }
    {
        Ok(HeldMails {
            object,
            rows: Vec::with_capacity(alloc, room as usize)?,
        })
    }

    /// The object.
    pub(crate) fn object(&self) -> ObjectId
        ensures { result ≡ self.now.object }
    {
        self.object
    }

    /// Its mails, lent.
    pub(crate) fn rows(&self) -> &[MailRow]
        ensures { result.now ≡ self.now.rows }
    {
        self.rows.as_slice()
    }

    /// Makes room for so many more.
    pub(crate) fn reserve(&mut self, mails: u32) -> Result<(), OutOfMemory>
        ensures object { self.new.object ≡ self.old.object }
        ensures rows { self.new.rows ≡ self.old.rows }
        ensures room { OnOk result (mails ≤ self.new.room) }
        ensures room_stays { self.old.room ≤ self.new.room }
    {
        self.rows.reserve(mails as usize)?;
        Ok(())
    }

    /// Takes in a mail. There is room for it.
    pub(crate) fn put(&mut self, row: MailRow)
        requires room { 0 < self.old.room }
        ensures object { self.new.object ≡ self.old.object }
        ensures rows { self.new.rows ≡ self.old.rows ++ row ∷ [] }
        ensures room { self.old.room ≤ self.new.room + 1 }
    {
        self.rows.push_reserved(row);
    }
}
