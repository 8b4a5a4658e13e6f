//! The mails of each object of a bank, in order.

ghost use Rattle.std.specs.Prelude.{◌≡◌, ◌+◌, ◌<◌, ◌≤◌, ◌∷◌, ◌++◌, [], List, if◌then◌else◌, ◌==◌, OnOk};
ghost use Rattle.std.specs.Option.{option_copied};
ghost use Rattle.std.specs.List.{position};
ghost use Rattle.ofx_types.specs.declared.number.ObjectId.{ObjectId};
ghost use Rattle.ofx_types.specs.declared.transfer.Change.TheVariants.{NewMail};
ghost use Rattle.bank_model.specs.declared.entry.Entry.{Entry};
ghost use Rattle.bank_mail.specs.MailsView.{is_of, mails_found, rows_found, room_found, mails_of, Represents};

use crate::held::HeldMails;
use ofx_types::{MailRow, ObjectId, OutOfMemory};
use std::alloc::Global;
use std::marker::Model;

/// The mails of a bank: those of each object lie together, in the order in which they came.
pub struct Mails {
    alloc: Global,
    mails: Vec<HeldMails>,
}

impl Model for Mails {
    ghost use Rattle.std.specs.Prelude.{List};
    ghost use Rattle.bank_mail.specs.MailsView.{ObjectMails};

    ghost Value = { List ObjectMails };

    ghost view = { λ m. m.mails.items };
}

impl Drop for Mails {
    fn drop(self) {
        let Mails { alloc: _, mails: _ } = self;
    }
}

impl Mails {
    /// No mail. Takes no memory.
    pub fn new(alloc: Global) -> Mails
        ensures empty { result ≡ [] }
        ensures holds { Represents result [] }
    {
        Mails {
            alloc,
            mails: Vec::new(alloc),
        }
    }

    /// The mails of an object in order, lent. Takes no memory.
    pub fn rows(&self, object: ObjectId) -> &[MailRow]
        ensures held { result.now ≡ rows_found object self.now }
        ensures represented { (entries : List Entry) → Represents self.now entries → result.now ≡ mails_of object entries }
    {
        match own(&self.mails, object) {
            Some(one) => one.rows(),
            None => &[],
        }
    }

    /// Makes room for so many more mails of an object.
    ///
    /// Where memory is refused, all mails are as before, and so is the room that there was.
    pub fn reserve(&mut self, object: ObjectId, mails: u32) -> Result<(), OutOfMemory>
        ensures rows { (other : ObjectId) → rows_found other self.new ≡ rows_found other self.old }
        ensures holds { (entries : List Entry) → Represents self.old entries → Represents self.new entries }
        ensures room { OnOk result (mails ≤ room_found object self.new) }
        ensures room_stays { (other : ObjectId) → room_found other self.old ≤ room_found other self.new }
    {
        match index_of(&self.mails, object) {
            Some(at) => self.mails[at].reserve(mails),
            None => {
                let held = HeldMails::new(self.alloc, object, mails)?;
                self.mails.push(held)?;
                Ok(())
            }
        }
    }

    /// Takes in a mail of an object, after its others. There is room for it, and it takes no memory.
    pub fn put(&mut self, object: ObjectId, row: MailRow)
        requires room { 0 < room_found object self.old }
        ensures rows { (other : ObjectId) → rows_found other self.new
            ≡ (if object.0 == other.0 then rows_found object self.old ++ row ∷ [] else rows_found other self.old) }
        ensures holds { (entries : List Entry) (entry : Entry) → Represents self.old entries
            → entry.object ≡ object → entry.change ≡ NewMail row
            → Represents self.new (entries ++ entry ∷ []) }
        ensures room { (other : ObjectId) → room_found other self.old
            ≤ room_found other self.new + (if object.0 == other.0 then 1 else 0) }
    {
        match index_of(&self.mails, object) {
            Some(at) => self.mails[at].put(row),
            None => unreachable!(),
        }
    }
}

/// The mails of an object, where it has any or room for some.
fn own(mails: &[HeldMails], object: ObjectId) -> Option<&HeldMails>
    ensures { option_copied result ≡ mails_found object mails.now }
{
    mails.iter().find(|one| one.object().0 == object.0)
}

/// The index of the mails of an object, where it has any or room for some.
fn index_of(mails: &[HeldMails], object: ObjectId) -> Option<usize>
    ensures { result ≡ position (is_of object) mails.now }
{
    mails.iter().position(|one| one.object().0 == object.0)
}
