//! The answer to a user's file, before the book takes the step.

ghost use Rattle.std.specs.Prelude.{◌≡◌, [], None, Some, IfOk, true, is_some};
ghost use Rattle.std.specs.Int.{int_max};
ghost use Rattle.std.specs.Option.{option_copied};
ghost use Rattle.ofx_types.specs.Calendar as calendar;
ghost use Rattle.ofx_types.specs.Calendar.{IsMoment};
ghost use Rattle.bank_model.specs.declared.event.Event.TheVariants as events;
ghost use Rattle.bank_model.specs.Rules as rules;
ghost use Rattle.bank_model.specs.Rules.{IsLegal, kept_for, state_after, answer_to, named};
ghost use Rattle.bank_accounts.specs.HeldAccounts.{AreHeld};
ghost use Rattle.bank_ledger.specs.Balanced.{AreBalanced};

use crate::ask::answer_asks;
use crate::book::Book;
use crate::prepared::{Prepared, ReplyBytes};
use crate::reply_bound::ReplyBound;
use bank_accounts::Held;
use bank_ledger::Draft;
use bank_model::{Event, Printer};
use ofx_types::{
    AskReplies, Day, Duplicate, FileUid, Moment, OutOfMemory, ReplyFile, RequestFile, UserId,
};
use ofx_values::day_of;
use std::alloc::Global;

/// The status of a signon that succeeded.
const SIGNED_ON: u16 = 0;

impl<P: Printer> Book<P> {
    /// Answers the file of a user at a moment: by the kept bytes where its name is kept, and anew otherwise.
    pub(super) fn prepare(
        &self,
        alloc: Global,
        held: &Held,
        event: &Event,
        sent: (UserId, Moment),
        file: &RequestFile,
    ) -> Result<Prepared, OutOfMemory>
        requires event { event.now ≡ events.File sent.0 file.now }
        requires moment { IsMoment sent.1.0 }
        requires legal { IsLegal self.now.setup self.now.state sent.1 event.now }
        requires named { AreHeld held.now (named self.now.setup self.now.state event.now) }
        requires balanced { AreBalanced self.now.setup self.now.state held.now }
        ensures { IfOk result (λ prepared. prepared ≡ record {
          setup = self.now.setup;
          before = self.now.state;
          event = event.now;
          after = state_after self.now.setup self.now.state sent.1 event.now;
          reply = answer_to self.now.setup self.now.state sent.1 event.now;
        }) }
    {
        match self.kept_reply(sent.0, file) {
            Some(reply) => self.prepare_again(alloc, held, event, sent, file, reply),
            None => self.prepare_anew(alloc, held, event, sent, file),
        }
    }

    /// The bytes that are kept for a file, lent.
    fn kept_reply(&self, user: UserId, file: &RequestFile) -> Option<&[u8]>
        ensures { option_copied result ≡ kept_for self.now.state user file.now.newer }
    {
        match &file.newer {
            Some(name) => self.ledger.kept(user, name),
            None => None,
        }
    }

    /// Answers a file whose name is kept: nothing changes but the business day.
    fn prepare_again(
        &self,
        alloc: Global,
        held: &Held,
        event: &Event,
        sent: (UserId, Moment),
        file: &RequestFile,
        reply: &[u8],
    ) -> Result<Prepared, OutOfMemory>
        requires event { event.now ≡ events.File sent.0 file.now }
        requires moment { IsMoment sent.1.0 }
        requires balanced { AreBalanced self.now.setup self.now.state held.now }
        requires kept { kept_for self.now.state sent.0 file.now.newer ≡ Some reply.now }
        ensures { IfOk result (λ prepared. prepared ≡ record {
          setup = self.now.setup;
          before = self.now.state;
          event = event.now;
          after = state_after self.now.setup self.now.state sent.1 event.now;
          reply = answer_to self.now.setup self.now.state sent.1 event.now;
        }) }
    {
        let draft = self.draft(alloc, held, sent);
        let reported = Vec::from_slice(alloc, reply)?;
        let bytes = ReplyBytes {
            kept: Vec::new(alloc),
            reported,
        };
        let added = draft.finish();
        Ok(Prepared::new(&self.setup, &self.ledger, event, added, None, None, bytes))
    }

    /// Answers a file whose name isn't kept: its asks are answered, and the reply is printed. Refused where the reply is longer
    /// than the bank lets a new one be.
    fn prepare_anew(
        &self,
        alloc: Global,
        held: &Held,
        event: &Event,
        sent: (UserId, Moment),
        file: &RequestFile,
    ) -> Result<Prepared, OutOfMemory>
        requires event { event.now ≡ events.File sent.0 file.now }
        requires moment { IsMoment sent.1.0 }
        requires legal { IsLegal self.now.setup self.now.state sent.1 event.now }
        requires named { AreHeld held.now (named self.now.setup self.now.state event.now) }
        requires balanced { AreBalanced self.now.setup self.now.state held.now }
        requires absent { kept_for self.now.state sent.0 file.now.newer ≡ None }
        ensures { IfOk result (λ prepared. prepared ≡ record {
          setup = self.now.setup;
          before = self.now.state;
          event = event.now;
          after = state_after self.now.setup self.now.state sent.1 event.now;
          reply = answer_to self.now.setup self.now.state sent.1 event.now;
        }) }
    {
        let mut draft = self.draft(alloc, held, sent);
        let bound = ReplyBound::of(self.most);
        let replies = answer_asks(&mut draft, alloc, file.asks.items(), bound)?;
        let added = draft.finish();
        let reply = reply_file(sent.1, file, replies)?;
        let reported = self.printer.print(alloc, &reply)?;
        if reported.len() > self.most {
            return Err(OutOfMemory);
        }
        let kept = kept_copy(alloc, &file.newer, &reported)?;
        let older = file.older.copy()?;
        let newer = file.newer.copy()?;
        let bytes = ReplyBytes { kept, reported };
        Ok(Prepared::new(&self.setup, &self.ledger, event, added, older, newer, bytes))
    }

    /// A draft in which nothing is added yet, on the business day raised to the day of the moment.
    pub(super) fn draft<'b>(
        &'b self,
        alloc: Global,
        held: &'b Held,
        sent: (UserId, Moment),
    ) -> Draft<'b>
        requires moment { IsMoment sent.1.0 }
        requires balanced { AreBalanced self.now.setup self.now.state held.now }
        ensures { result ≡ record {
          setup = self.now.setup;
          before = self.now.state;
          held = held.now;
          user = sent.0;
          at = sent.1;
          day = (rules.raised self.now.state sent.1).day;
          entries = [];
          uids = [];
        } }
    {
        let day = later(self.ledger.day(), sent.1);
        Draft::new(alloc, &self.setup, &self.ledger, held, sent.0, sent.1, day)
    }
}

/// The later of a day and the day of a moment.
pub(super) fn later(day: Day, at: Moment) -> Day
    requires { IsMoment at.0 }
    ensures { result.0 ≡ int_max day.0 (calendar.day_of at.0) }
{
    day.max(day_of(at))
}

/// The reply to a file, with the answers to its asks.
#[tactic(auto, unfolding(bank_model::specs::Rules::reply_file))]
pub(super) fn reply_file(
    at: Moment,
    file: &RequestFile,
    replies: AskReplies,
) -> Result<ReplyFile, OutOfMemory>
    ensures { IfOk result (λ reply. reply ≡ rules.reply_file at file.now replies) }
{
    Ok(ReplyFile {
        version: file.version,
        newer: file.newer.copy()?,
        signon: SIGNED_ON,
        moment: at,
        replies,
    })
}

/// A copy of the bytes where they are to be kept, and no bytes otherwise.
fn kept_copy(alloc: Global, newer: &Option<FileUid>, reply: &[u8]) -> Result<Vec<u8>, OutOfMemory>
    ensures { IfOk result (λ copy. is_some newer.now ≡ true → copy.items ≡ reply.now) }
{
    match newer {
        Some(_) => Ok(Vec::from_slice(alloc, reply)?),
        None => Ok(Vec::new(alloc)),
    }
}
