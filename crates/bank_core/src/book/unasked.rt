//! Events that nobody asks for, before the book takes their step: the bank posts what is due, recurring transfers make
//! their next transfer, and the bank writes letters.

ghost use Rattle.std.specs.Prelude.{◌≡◌, IfOk};
ghost use Rattle.ofx_types.specs.Calendar.{IsMoment};
ghost use Rattle.bank_model.specs.declared.event.Event.TheVariants as events;
ghost use Rattle.bank_model.specs.Rules.{IsLegal, state_after, answer_to, named};
ghost use Rattle.bank_accounts.specs.HeldAccounts.{AreHeld};
ghost use Rattle.bank_ledger.specs.Balanced.{AreBalanced};

use crate::book::Book;
use crate::prepared::{Prepared, ReplyBytes};
use bank_accounts::Held;
use bank_deeds::{letter, post, spawn};
use bank_model::{Event, Printer};
use ofx_types::{Moment, OutOfMemory, Text, UserId};
use std::alloc::Global;

/// The user of a draft that is no user's: it uses up no uid.
const NOBODY: UserId = UserId(0);

impl<P: Printer> Book<P> {
    /// Posts a transfer, or closes it.
    pub(super) fn prepare_post(
        &self,
        alloc: Global,
        held: &Held,
        event: &Event,
        id: u64,
        at: Moment,
    ) -> Result<Prepared, OutOfMemory>
        requires event { event.now ≡ events.Post id }
        requires moment { IsMoment at.0 }
        requires legal { IsLegal self.now.setup self.now.state at event.now }
        requires named { AreHeld held.now (named self.now.setup self.now.state event.now) }
        requires balanced { AreBalanced self.now.setup self.now.state held.now }
        ensures { IfOk result (λ prepared. prepared ≡ record {
          setup = self.now.setup;
          before = self.now.state;
          event = event.now;
          after = state_after self.now.setup self.now.state at event.now;
          reply = answer_to self.now.setup self.now.state at event.now;
        }) }
    {
        let mut draft = self.draft(alloc, held, (NOBODY, at));
        post(&mut draft, id)?;
        let added = draft.finish();
        let bytes = ReplyBytes::none(alloc);
        Ok(Prepared::new(&self.setup, &self.ledger, event, added, None, None, bytes))
    }

    /// Makes a transfer of a recurring transfer.
    pub(super) fn prepare_spawn(
        &self,
        alloc: Global,
        held: &Held,
        event: &Event,
        next: (u64, u32),
        at: Moment,
    ) -> Result<Prepared, OutOfMemory>
        requires event { event.now ≡ events.Spawn next.0 next.1 }
        requires moment { IsMoment at.0 }
        requires legal { IsLegal self.now.setup self.now.state at event.now }
        requires balanced { AreBalanced self.now.setup self.now.state held.now }
        ensures { IfOk result (λ prepared. prepared ≡ record {
          setup = self.now.setup;
          before = self.now.state;
          event = event.now;
          after = state_after self.now.setup self.now.state at event.now;
          reply = answer_to self.now.setup self.now.state at event.now;
        }) }
    {
        let mut draft = self.draft(alloc, held, (NOBODY, at));
        spawn(&mut draft, next.0, next.1)?;
        let added = draft.finish();
        let bytes = ReplyBytes::none(alloc);
        Ok(Prepared::new(&self.setup, &self.ledger, event, added, None, None, bytes))
    }

    /// Writes a user a letter from the bank.
    pub(super) fn prepare_letter(
        &self,
        alloc: Global,
        held: &Held,
        event: &Event,
        sent: (UserId, Moment),
        subject: &Text,
        body: &Text,
    ) -> Result<Prepared, OutOfMemory>
        requires event { event.now ≡ events.Letter sent.0 subject.now body.now }
        requires moment { IsMoment sent.1.0 }
        requires legal { IsLegal self.now.setup self.now.state sent.1 event.now }
        requires balanced { AreBalanced self.now.setup self.now.state held.now }
        ensures { IfOk result (λ prepared. prepared ≡ record {
          setup = self.now.setup;
          before = self.now.state;
          event = event.now;
          after = state_after self.now.setup self.now.state sent.1 event.now;
          reply = answer_to self.now.setup self.now.state sent.1 event.now;
        }) }
    {
        let mut draft = self.draft(alloc, held, (NOBODY, sent.1));
        letter(&mut draft, alloc, sent.0, subject, body)?;
        let added = draft.finish();
        let bytes = ReplyBytes::none(alloc);
        Ok(Prepared::new(&self.setup, &self.ledger, event, added, None, None, bytes))
    }
}
