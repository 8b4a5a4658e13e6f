//! Events that happen again from their records, before the book takes their step.

ghost use Rattle.std.specs.Prelude.{◌≡◌, None, IfOk};
ghost use Rattle.ofx_types.specs.Calendar.{IsMoment};
ghost use Rattle.bank_model.specs.declared.event.Event.TheVariants as events;
ghost use Rattle.bank_model.specs.Rules.{IsLegal, state_after, named};
ghost use Rattle.bank_accounts.specs.HeldAccounts.{AreHeld};
ghost use Rattle.bank_accounts.specs.Sides.{AreOf};
ghost use Rattle.bank_ledger.specs.Balanced.{AreBalanced};
ghost use Rattle.bank_core.specs.BookView.{HasRoom, KeepsRoom};

use crate::ask::answer_asks;
use crate::book::Book;
use crate::prepared::{Prepared, ReplyBytes};
use crate::reply_bound::ReplyBound;
use bank_accounts::Held;
use bank_model::{Event, Printer};
use ofx_types::{Duplicate, Moment, OutOfMemory, RequestFile, UserId};
use std::alloc::Global;

impl<P: Printer> Book<P> {
    /// The state that an event leaves which happened at that moment. Its reply is printed only where the state keeps it.
    ///
    /// The accounts that the event names are held, and each account that is held is of this book. The step is taken by
    /// `adopt`. All memory of the event is taken here.
    pub fn replay(
        &mut self,
        alloc: Global,
        held: &mut Held,
        event: &Event,
        at: Moment,
    ) -> Result<Prepared, OutOfMemory>
        requires moment { IsMoment at.0 }
        requires legal { IsLegal self.old.setup self.old.state at event.now }
        requires named { AreHeld held.old (named self.old.setup self.old.state event.now) }
        requires own { AreOf self.old.tables held.old }
        ensures setup { self.new.setup ≡ self.old.setup }
        ensures state { self.new.state ≡ self.old.state }
        ensures tables { self.new.tables ≡ self.old.tables }
        ensures accounts { held.new ≡ held.old }
        ensures of { IfOk result (λ prepared. prepared.setup ≡ self.old.setup) }
        ensures before { IfOk result (λ prepared. prepared.before ≡ self.old.state) }
        ensures event { IfOk result (λ prepared. prepared.event ≡ event.now) }
        ensures after { IfOk result (λ prepared.
            prepared.after ≡ state_after self.old.setup self.old.state at event.now) }
        ensures room { IfOk result (λ prepared. HasRoom self.new.room self.old.state prepared.after) }
        ensures room_stays { KeepsRoom self.old.room self.new.room }
    {
        match event {
            Event::File(user, file) if file.newer.is_none() => {
                self.meet(held);
                self.replay_unnamed(alloc, held, event, (*user, at), file)
            }
            _ => self.answer(alloc, held, event, at),
        }
    }

    /// What a file without a name leaves, with room for it.
    fn replay_unnamed(
        &mut self,
        alloc: Global,
        held: &Held,
        event: &Event,
        sent: (UserId, Moment),
        file: &RequestFile,
    ) -> Result<Prepared, OutOfMemory>
        requires event { event.now ≡ events.File sent.0 file.now }
        requires moment { IsMoment sent.1.0 }
        requires legal { IsLegal self.old.setup self.old.state sent.1 event.now }
        requires named { AreHeld held.now (named self.old.setup self.old.state event.now) }
        requires balanced { AreBalanced self.old.setup self.old.state held.now }
        requires unnamed { file.now.newer ≡ None }
        ensures setup { self.new.setup ≡ self.old.setup }
        ensures state { self.new.state ≡ self.old.state }
        ensures tables { self.new.tables ≡ self.old.tables }
        ensures of { IfOk result (λ prepared. prepared.setup ≡ self.old.setup) }
        ensures before { IfOk result (λ prepared. prepared.before ≡ self.old.state) }
        ensures event { IfOk result (λ prepared. prepared.event ≡ event.now) }
        ensures after { IfOk result (λ prepared.
            prepared.after ≡ state_after self.old.setup self.old.state sent.1 event.now) }
        ensures room { IfOk result (λ prepared. HasRoom self.new.room self.old.state prepared.after) }
        ensures room_stays { KeepsRoom self.old.room self.new.room }
    {
        let prepared = self.prepare_unnamed(alloc, held, event, sent, file)?;
        self.make_room(prepared)
    }

    /// What a file without a name leaves: its asks are answered for what they do, and no reply is printed.
    fn prepare_unnamed(
        &self,
        alloc: Global,
        held: &Held,
        event: &Event,
        sent: (UserId, Moment),
        file: &RequestFile,
    ) -> Result<Prepared, OutOfMemory>
        requires event { event.now ≡ events.File sent.0 file.now }
        requires moment { IsMoment sent.1.0 }
        requires legal { IsLegal self.now.setup self.now.state sent.1 event.now }
        requires named { AreHeld held.now (named self.now.setup self.now.state event.now) }
        requires balanced { AreBalanced self.now.setup self.now.state held.now }
        requires unnamed { file.now.newer ≡ None }
        ensures of { IfOk result (λ prepared. prepared.setup ≡ self.now.setup) }
        ensures before { IfOk result (λ prepared. prepared.before ≡ self.now.state) }
        ensures event { IfOk result (λ prepared. prepared.event ≡ event.now) }
        ensures after { IfOk result (λ prepared.
            prepared.after ≡ state_after self.now.setup self.now.state sent.1 event.now) }
    {
        let mut draft = self.draft(alloc, held, sent);
        let _replies = answer_asks(&mut draft, alloc, file.asks.items(), ReplyBound::none())?;
        let added = draft.finish();
        let older = file.older.copy()?;
        let bytes = ReplyBytes::none(alloc);
        Ok(Prepared::new(&self.setup, &self.ledger, event, added, older, None, bytes))
    }
}
