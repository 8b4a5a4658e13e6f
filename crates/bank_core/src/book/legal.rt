//! Which events may happen to the bank. Nothing here takes memory.

ghost use Rattle.std.specs.Prelude.{◌≡◌, ◌↔◌, ◌<◌, ◌&&◌, IsTrue, true, false, length};
ghost use Rattle.ofx_types.specs.Calendar.{IsMoment, IsDay};
ghost use Rattle.bank_model.specs.Ledger.{row_of};
ghost use Rattle.bank_model.specs.Models as models;
ghost use Rattle.bank_model.specs.Due as rules;
ghost use Rattle.bank_model.specs.Polls as polls;
ghost use Rattle.bank_model.specs.Rules.{IsLegal, raised};
ghost use Rattle.bank_model.specs.Sound.{IsSound, IsTextWithin};

use crate::book::Book;
use crate::book::answer::later;
use crate::book::due::last_day;
use bank_model::{Event, Printer, is_poll};
use bank_sound::{is_sound, is_sound_letter};
use ofx_types::{Day, Moment, RequestFile, Text, TransferRow, UserId, XferCode};

impl<P: Printer> Book<P> {
    /// Whether the event may happen at that moment.
    ///
    /// A file is of a user of the setup, all its values are within their bounds, and it is no poll. A transfer that is posted
    /// waits, and is due on or before the business day. A recurring transfer makes the transfer at just the next occurrence of
    /// its series, for a date at most the setup's LEAD days after the business day. A letter is to a user of the setup, its
    /// subject has 1 to 64 bytes and its body 1 to 10,000. For all but a file a number is left. Takes no memory.
    pub fn legal(&self, event: &Event, at: Moment) -> bool
        requires { IsMoment at.0 }
        ensures { IsTrue result ↔ IsLegal self.now.setup self.now.state at event.now }
    {
        match event {
            Event::File(user, file) => self.may_ask(*user, file),
            Event::Post(id) => self.may_post(*id, at),
            Event::Spawn(id, occurrence) => self.may_spawn(*id, *occurrence, at),
            Event::Letter(user, subject, body) => self.may_write(*user, subject, body),
        }
    }

    /// Whether the file may be asked by that user: it is sound and no poll.
    fn may_ask(&self, user: UserId, file: &RequestFile) -> bool
        ensures { IsTrue result ↔ ((user.0 < length self.now.setup.users) × IsSound file.now
            × (polls.is_poll file.now ≡ false)) }
    {
        self.has_user(user) && is_sound(file) && !is_poll(file)
    }

    /// Whether the bank may write a letter of this subject and this body to that user.
    fn may_write(&self, user: UserId, subject: &Text, body: &Text) -> bool
        ensures { IsTrue result ↔ ((user.0 < length self.now.setup.users) × IsTextWithin 64 subject.now
            × IsTextWithin 10000 body.now × (rules.has_number self.now.setup self.now.state ≡ true)) }
    {
        self.has_user(user) && is_sound_letter(subject, body) && self.has_number()
    }

    /// Whether the setup has that user.
    fn has_user(&self, user: UserId) -> bool
        ensures { IsTrue result ↔ (user.0 < length self.now.setup.users) }
    {
        (user.0 as usize) < self.setup.users.items().len()
    }

    /// Whether the transfer with this id may be posted at that moment.
    fn may_post(&self, id: u64, at: Moment) -> bool
        requires { IsMoment at.0 }
        ensures { result ≡ rules.may_post self.now.setup (raised self.now.state at) (row_of id self.now.state.entries) }
    {
        let day = self.raised_day(at);
        match self.ledger.row(id) {
            Some(row) => is_to_post(day, row) && self.has_number(),
            None => false,
        }
    }

    /// Whether the recurring transfer with this id may make the transfer at that occurrence of its series at that moment.
    fn may_spawn(&self, id: u64, occurrence: u32, at: Moment) -> bool
        requires { IsMoment at.0 }
        ensures { result ≡ rules.may_spawn self.now.setup (raised self.now.state at) id occurrence }
    {
        let last = last_day(&self.setup, self.raised_day(at));
        self.ledger.makes(id, occurrence, last) && self.has_number()
    }

    /// The business day, raised to the day of a moment.
    fn raised_day(&self, at: Moment) -> Day
        requires { IsMoment at.0 }
        ensures value { result ≡ (raised self.now.state at).day }
        ensures known { IsDay result.0 }
    {
        later(self.ledger.day(), at)
    }

    /// Whether a number is left for one entry more.
    fn has_number(&self) -> bool
        ensures { result ≡ rules.has_number self.now.setup self.now.state }
    {
        match self.next_number() {
            Some(_) => true,
            None => false,
        }
    }
}

/// Whether a transfer waits, and is due on or before a business day.
fn is_to_post(day: Day, row: &TransferRow) -> bool
    ensures { result ≡ rules.is_to_post day row.now }
{
    is_waiting(row.code) && row.due.0 <= day.0
}

fn is_waiting(code: XferCode) -> bool
    ensures { result ≡ models.is_waiting code }
{
    matches!(code, XferCode::Waiting)
}
