//! Entries laid into what is held of their objects.

ghost use Rattle.std.specs.Prelude.{◌≡◌, ◌<◌, ◌≤◌, ◌∷◌, ◌++◌, ◌-◌, [], List, length, map, filter, take, option_to_list, IfOk, IfSome, OnOk};
ghost use Rattle.bank_model.specs.declared.entry.Entry.{Entry};
ghost use Rattle.bank_model.specs.Objects as objects;
ghost use Rattle.bank_model.specs.Objects.{history_of, last_number};
ghost use Rattle.bank_model.specs.Sync.{is_above};
ghost use Rattle.bank_mail.specs.MailsView as present;
ghost use Rattle.bank_mail.specs.MailsView.{mail_in, room_found};
ghost use Rattle.bank_history.specs.Made.{made_of};
ghost use Rattle.bank_history.specs.ObjectHistory.{held_at, room_in, newest_in, floor_in, LaidFor};

use crate::made::Made;
use crate::objects::Objects;
use crate::origins::put_origins;
use bank_mail::Mails;
use bank_model::Entry;
use ofx_types::{MailRow, ObjectId, OutOfMemory};
use std::alloc::Global;
use std::marker::Model;
use token_window::Since;

/// What is held of each object, with its mails.
pub(crate) struct Laid {
    objects: Objects,
    mails: Mails,
}

impl Model for Laid {
    ghost use Rattle.bank_history.specs.ObjectHistory.{LaidView};

    ghost Value = { LaidView };

    ghost view = { λ l. record { objects = l.objects; mails = l.mails } };
}

impl Drop for Laid {
    fn drop(self) {
        let Laid {
            objects: _,
            mails: _,
        } = self;
    }
}

impl Laid {
    /// Nothing is held of any object. Windows are for so many entries. Takes no memory.
    pub(crate) fn new(alloc: Global, width: u32) -> Laid
        requires width { (0 < width) × (width < 10001) }
        ensures width { result.objects.width ≡ width }
        ensures holds { LaidFor [] result }
    {
        Laid {
            objects: Objects::new(alloc, width),
            mails: Mails::new(alloc),
        }
    }

    /// The number of the last entry of an object, 0 where there is none.
    pub(crate) fn newest(&self, object: ObjectId) -> u64
        ensures { (entries : List Entry) → LaidFor entries self.now → result ≡ objects.newest object entries }
    {
        match self.objects.get(object) {
            Some(kept) => kept.window().newest(),
            None => 0,
        }
    }

    /// The number of the entry before the last so many of an object, 0 where there are no more than these. These are no more
    /// than windows are wide.
    pub(crate) fn number_before(&self, object: ObjectId, last: usize) -> u64
        requires narrow { IfSome (held_at object self.now.objects.held) (λ kept. last ≤ kept.window.width) }
        ensures { (entries : List Entry) → LaidFor entries self.now
            → result ≡ last_number (take (length (history_of object entries) - last) (history_of object entries)) }
    {
        match self.objects.get(object) {
            Some(kept) => kept.window().number_before(last),
            None => 0,
        }
    }

    /// Puts the entries of an object above a token, lent, after what is there. The token isn't below the floor of what is held.
    pub(crate) fn put_since<'a>(
        &'a self,
        since: &mut Vec<&'a Entry>,
        object: ObjectId,
        token: u64,
    ) -> Result<(), OutOfMemory>
        requires floor { floor_in (held_at object self.now.objects.held) ≤ token }
        ensures { OnOk result ((entries : List Entry) → LaidFor entries self.now
            → map (λ entry. entry.now) since.new.items ≡ map (λ entry. entry.now) since.old.items
            ++ filter (is_above token) (history_of object entries)) }
    {
        match self.objects.get(object) {
            Some(kept) => put_lent(since, kept.window().since(token)),
            None => Ok(()),
        }
    }

    /// Puts what an object's history made after what is there. Mails are copied.
    pub(crate) fn put_made(&self, made: &mut Vec<Made>, object: ObjectId) -> Result<(), OutOfMemory>
        ensures { OnOk result ((entries : List Entry) → LaidFor entries self.now
            → made.new.items ≡ made.old.items ++ made_of object entries) }
    {
        match self.objects.get(object) {
            Some(kept) => put_origins(made, kept.origins(), self.mails.rows(object)),
            None => Ok(()),
        }
    }

    /// Makes room for an entry of an object, and for its mail where it brings one.
    pub(crate) fn reserve(
        &mut self,
        object: ObjectId,
        mail: &Option<MailRow>,
    ) -> Result<(), OutOfMemory>
        ensures width { self.new.objects.width ≡ self.old.objects.width }
        ensures holds { (entries : List Entry) → LaidFor entries self.old → LaidFor entries self.new }
        ensures newest { newest_in (held_at object self.new.objects.held)
            ≡ newest_in (held_at object self.old.objects.held) }
        ensures room { OnOk result (0 < room_in (held_at object self.new.objects.held)) }
        ensures mails { OnOk result (IfSome mail.now (λ row. 0 < room_found object self.new.mails)) }
    {
        reserve_mail(&mut self.mails, object, mail)?;
        self.objects.reserve(object)
    }

    /// Takes in an entry, whose number is above the newest one of its object, and its mail where it brings one. There is room
    /// for it, and it takes no memory.
    pub(crate) fn add(&mut self, entry: Entry, mail: Option<MailRow>)
        requires room { 0 < room_in (held_at entry.object self.old.objects.held) }
        requires rising { newest_in (held_at entry.object self.old.objects.held) < entry.number }
        requires mail { option_to_list mail ≡ mail_in entry.change }
        requires mails { IfSome mail (λ row. 0 < room_found entry.object self.old.mails) }
        ensures width { self.new.objects.width ≡ self.old.objects.width }
        ensures holds { (entries : List Entry) → LaidFor entries self.old → LaidFor (entries ++ entry ∷ []) self.new }
    {
        put_mail(&mut self.mails, entry.object, mail);
        self.objects.add(entry);
    }
}

/// Makes room for the mail of an entry of an object, where it brings one.
fn reserve_mail(
    mails: &mut Mails,
    object: ObjectId,
    mail: &Option<MailRow>,
) -> Result<(), OutOfMemory>
    ensures holds { (entries : List Entry) → present.Represents mails.old entries → present.Represents mails.new entries }
    ensures room { OnOk result (IfSome mail.now (λ row. 0 < room_found object mails.new)) }
{
    match mail {
        Some(_) => mails.reserve(object, 1),
        None => Ok(()),
    }
}

/// Takes in the mail of an entry of an object, where it brings one. There is room for it.
fn put_mail(mails: &mut Mails, object: ObjectId, mail: Option<MailRow>)
    requires room { IfSome mail (λ row. 0 < room_found object mails.old) }
    ensures { (entries : List Entry) (entry : Entry) → present.Represents mails.old entries → entry.object ≡ object
        → option_to_list mail ≡ mail_in entry.change → present.Represents mails.new (entries ++ entry ∷ []) }
{
    match mail {
        Some(row) => mails.put(object, row),
        None => {}
    }
}

/// Puts entries after what is there.
fn put_lent<'a>(since: &mut Vec<&'a Entry>, entries: Since<'a>) -> Result<(), OutOfMemory>
    ensures { OnOk result (map (λ entry. entry.now) since.new.items
        ≡ map (λ entry. entry.now) since.old.items ++ entries.entry) }
{
    for entry in entries {
        since.push(entry)?;
    }
    Ok(())
}
