//! The engine of a bank: its book, and what a failed append has left open.

ghost use Rattle.std.specs.Prelude.{◌≡◌, ◌≢◌, List, [], None, Some, Ok, true, false, is_ok, is_some, IfOk, IfErr, OnOk, OnErr, IsErrOf};
ghost use Rattle.std.specs.Option.{IfSome, option_map, option_copied};
ghost use Rattle.ofx_types.specs.Calendar.{IsMoment};
ghost use Rattle.ofx_ports.specs.Kept.{counted};
ghost use Rattle.bank_model.specs.declared.log.LogItem.{LogItem};
ghost use Rattle.bank_model.specs.LegalLog.{MayHappen};
ghost use Rattle.bank_model.specs.Rules.{IsLegal, named};
ghost use Rattle.bank_model.specs.SetupForm.{IsWithinLimits};
ghost use Rattle.bank_accounts.specs.HeldAccounts.{AreHeld, HaveSameNumbers};
ghost use Rattle.bank_accounts.specs.Sides.{AreOf};
ghost use Rattle.bank_ledger.specs.Balanced.{AreBalanced};
ghost use Rattle.bank_invariants.specs.SoundStates.{IsSoundState};
ghost use Rattle.bank_engine.specs.Calls.{Answers, FailsToCommit, Settles, FailsToSettle, append_of, settling_of};
ghost use Rattle.bank_engine.specs.Solo.{Sends, AppendsOne};
ghost use Rattle.bank_engine.specs.Steps.{IsReady, Expects};
ghost use Rattle.bank_engine.specs.Views.{journal_of};

use crate::applying::{adopt, answer};
use crate::envelope::Envelope;
use crate::pending::{Pending, put_off};
use crate::publisher::Publisher;
use crate::ready::Ready;
use bank_accounts::Held;
use bank_core::Book;
use bank_model::{Event, Printer, SubmitFault};
use bank_replay::record_of;
use ofx_ports::{Keeper, PutFault};
use ofx_types::{Moment, OutOfMemory, Sequence};
use std::alloc::Global;
use std::marker::Model;

/// The book of a bank, and the event whose append failed until it is settled whether its record is stored.
///
/// The keeper of the records, the accounts that an event names and who publishes the log are borrowed by its calls. A clause
/// speaks of the journal that they make together.
pub struct Engine<P: Printer> {
    book: Book<P>,
    pending: Option<Pending>,
}

impl<P: Printer> Model for Engine<P> {
    ghost use Rattle.std.specs.Option.{option_map, IfSome};
    ghost use Rattle.bank_engine.specs.Pending.{pending_of, IsReadyStill};
    ghost use Rattle.bank_engine.specs.Views.{EngineView};

    ghost Value = { EngineView };

    ghost view = { λ e. record {
      setup = e.book.setup;
      state = e.book.state;
      room = e.book.room;
      tables = e.book.tables;
      pending = option_map pending_of e.pending;
    } };

    ghost invariant = { λ e. IfSome e.pending (IsReadyStill e.book) };
}

impl<P: Printer> Engine<P> {
    /// The engine of a bank with this book. Takes no memory.
    pub fn new(book: Book<P>) -> Engine<P>
        ensures { result ≡ record { setup = book.setup; state = book.state; room = book.room; tables = book.tables; pending = None } }
    {
        Engine {
            book,
            pending: None,
        }
    }

    /// The book, lent. Takes no memory.
    pub fn book(&self) -> &Book<P>
        ensures setup { result.now.setup ≡ self.now.setup }
        ensures state { result.now.state ≡ self.now.state }
        ensures tables { result.now.tables ≡ self.now.tables }
        ensures within { IsWithinLimits self.now.setup }
        ensures sound { IsSoundState self.now.setup self.now.state }
    {
        // For the proof alone: its contract says that the setup is within its limits, and the state sound.
        let _setup = self.book.setup();
        &self.book
    }

    /// The event whose append failed, until it is settled whether its record is stored. It may still happen. Takes no memory.
    pub fn pending(&self) -> Option<&Event>
        ensures event { option_copied result ≡ option_map (λ pending. pending.event) self.now.pending }
        ensures may { IfSome self.now.pending (λ pending. MayHappen self.now.setup self.now.state pending.at pending.event) }
    {
        match &self.pending {
            Some(pending) => Some(&pending.event),
            None => None,
        }
    }

    /// Shows that each account that is held has the balance of the state. Takes no memory.
    ///
    /// Each of the accounts is of this bank.
    pub fn meet(&mut self, held: &mut Held)
        requires { AreOf self.old.tables held.old }
        ensures same { self.new ≡ self.old }
        ensures accounts { held.new ≡ held.old }
        ensures balanced { AreBalanced self.old.setup self.old.state held.old }
    {
        self.book.meet(held);
    }

    /// Makes an event ready that may happen at that moment. The accounts that it names are held, and nothing is pending. All memory
    /// of its commit is taken here; the book stays as it is, but for the room in it.
    pub fn prepare(
        &mut self,
        alloc: Global,
        held: &mut Held,
        event: Event,
        at: Moment,
    ) -> Result<Ready, OutOfMemory>
        requires moment { IsMoment at.0 }
        requires legal { IsLegal self.old.setup self.old.state at event }
        requires settled { self.old.pending ≡ None }
        requires named { AreHeld held.old (named self.old.setup self.old.state event) }
        requires own { AreOf self.old.tables held.old }
        ensures setup { self.new.setup ≡ self.old.setup }
        ensures state { self.new.state ≡ self.old.state }
        ensures tables { self.new.tables ≡ self.old.tables }
        ensures pending { self.new.pending ≡ None }
        ensures accounts { held.new ≡ held.old }
        ensures balanced { AreBalanced self.new.setup self.new.state held.new }
        ensures ready { IfOk result (λ ready. IsReady self.new.setup self.new.state self.new.room at event ready.prepared) }
        ensures event { IfOk result (λ ready. ready.event ≡ event) }
        ensures at { IfOk result (λ ready. ready.at ≡ at) }
    {
        let prepared = self.book.answer(alloc, held, &event, at)?;
        let rec = record_of(alloc, &self.book, &event, at)?;
        // For the proof alone: its contract says that entries are added to those before.
        let _added = prepared.entries();
        Ok(Ready {
            event,
            at,
            rec: Sequence::from_vec(rec),
            prepared,
        })
    }

    /// Appends the record of an event that is ready, then takes its step, and gives its reply. The accounts that it names are
    /// held, and nothing is pending. Takes no memory but the keeper's.
    ///
    /// - `Keeper(n)`: the append failed, and the keeper's count of faults rose to n in this call. The event is pending.
    /// - `OutOfMemory`: nothing has happened.
    pub fn commit<K: Keeper, L: Publisher>(
        &mut self,
        keeper: &mut K,
        log: &mut L,
        held: &mut Held,
        ready: Ready,
    ) -> Result<Vec<u8>, SubmitFault>
        requires ready { IsReady self.old.setup self.old.state self.old.room ready.at ready.event ready.prepared }
        requires settled { self.old.pending ≡ None }
        requires unsettled { K.unsettled keeper.old ≡ false }
        requires named { AreHeld held.old (named self.old.setup self.old.state ready.event) }
        requires own { AreOf self.old.tables held.old }
        requires balanced { AreBalanced self.old.setup self.old.state held.old }
        requires expected { Expects (L.expects log.old) self.old.setup self.old.state ready.at ready.event }
        requires free { L.expects log.old [] }
        ensures answers { IfOk result (λ reply. Answers
            (journal_of self.old (record { records = K.records keeper.old; landed = K.landed keeper.old; unsettled = K.unsettled keeper.old; faults = K.faults keeper.old }) (L.log log.old))
            (journal_of self.new (record { records = K.records keeper.new; landed = K.landed keeper.new; unsettled = K.unsettled keeper.new; faults = K.faults keeper.new }) (L.log log.new))
            ready.event ready.at reply.items) }
        ensures fails { IfErr result (FailsToCommit
            (journal_of self.old (record { records = K.records keeper.old; landed = K.landed keeper.old; unsettled = K.unsettled keeper.old; faults = K.faults keeper.old }) (L.log log.old))
            (journal_of self.new (record { records = K.records keeper.new; landed = K.landed keeper.new; unsettled = K.unsettled keeper.new; faults = K.faults keeper.new }) (L.log log.new))
            ready.event ready.at) }
        ensures through { L.through log.new ≡ L.through log.old }
        ensures target { L.target log.new ≡ L.target log.old }
        ensures since { (before : List LogItem) → L.since log.old before → L.since log.new before }
        ensures size { K.size keeper.new ≡ counted (K.size keeper.old) (is_ok result) }
        ensures appends { K.appends keeper.old keeper.new ready.rec (append_of result) }
        ensures tables { self.new.tables ≡ self.old.tables }
        ensures numbers { HaveSameNumbers held.new held.old }
        ensures own { AreOf self.new.tables held.new }
        ensures balanced { AreBalanced self.new.setup self.new.state held.new }
        ensures accounts { OnErr result (held.new ≡ held.old) }
    {
        match keeper.append(ready.rec.items()) {
            Ok(()) => Ok(answer(&mut self.book, log, held, ready)),
            Err(PutFault::Failed) => {
                let count = keeper.faults();
                self.pending = Some(put_off(log, ready, count));
                Err(SubmitFault::Keeper(count))
            }
            Err(PutFault::OutOfMemory) => {
                drop(ready);
                Err(SubmitFault::OutOfMemory)
            }
        }
    }

    /// Makes an event ready, wraps its reply, and commits it. Gives the reply in its envelope.
    pub(crate) fn send<K: Keeper, L: Publisher, E: Envelope>(
        &mut self,
        alloc: Global,
        keeper: &mut K,
        log: &mut L,
        held: &mut Held,
        event: Event,
        at: Moment,
        envelope: E,
    ) -> Result<Vec<u8>, SubmitFault>
        requires moment { IsMoment at.0 }
        requires legal { IsLegal self.old.setup self.old.state at event }
        requires settled { self.old.pending ≡ None }
        requires unsettled { K.unsettled keeper.old ≡ false }
        requires named { AreHeld held.old (named self.old.setup self.old.state event) }
        requires own { AreOf self.old.tables held.old }
        requires expected { Expects (L.expects log.old) self.old.setup self.old.state at event }
        requires free { L.expects log.old [] }
        ensures sends { IfOk result (λ line. Sends (E.sent envelope)
            (journal_of self.old (record { records = K.records keeper.old; landed = K.landed keeper.old; unsettled = K.unsettled keeper.old; faults = K.faults keeper.old }) (L.log log.old))
            (journal_of self.new (record { records = K.records keeper.new; landed = K.landed keeper.new; unsettled = K.unsettled keeper.new; faults = K.faults keeper.new }) (L.log log.new))
            event at line.items) }
        ensures fails { IfErr result (FailsToCommit
            (journal_of self.old (record { records = K.records keeper.old; landed = K.landed keeper.old; unsettled = K.unsettled keeper.old; faults = K.faults keeper.old }) (L.log log.old))
            (journal_of self.new (record { records = K.records keeper.new; landed = K.landed keeper.new; unsettled = K.unsettled keeper.new; faults = K.faults keeper.new }) (L.log log.new))
            event at) }
        ensures size { K.size keeper.new ≡ counted (K.size keeper.old) (is_ok result) }
        ensures appends { AppendsOne K.appends keeper.old keeper.new at event result }
        ensures tables { self.new.tables ≡ self.old.tables }
        ensures numbers { HaveSameNumbers held.new held.old }
        ensures own { AreOf self.new.tables held.new }
        ensures balanced { AreBalanced self.new.setup self.new.state held.new }
        ensures accounts { OnErr result (held.new ≡ held.old) }
    {
        let ready = self.prepare(alloc, held, event, at)?;
        let line = envelope.wrap(alloc, ready.reply())?;
        let _reply = self.commit(keeper, log, held, ready)?;
        Ok(line)
    }

    /// Settles whether the record of the pending event is stored, and answers whether the event is adopted: it has happened at its
    /// moment. Afterwards nothing is pending. The accounts that the event names are held. Takes no memory.
    ///
    /// - `Keeper(n)`: the keeper's count of faults rose to n in this call. The event is pending still.
    pub fn settle<K: Keeper, L: Publisher>(
        &mut self,
        keeper: &mut K,
        log: &mut L,
        held: &mut Held,
    ) -> Result<bool, SubmitFault>
        requires unsettled { K.unsettled keeper.old ≡ is_some self.old.pending }
        requires named { IfSome self.old.pending (λ pending. AreHeld held.old (named self.old.setup self.old.state pending.event)) }
        requires own { AreOf self.old.tables held.old }
        requires expected { IfSome self.old.pending (λ pending. Expects (L.expects log.old) self.old.setup self.old.state pending.at pending.event) }
        requires free { L.expects log.old [] }
        ensures settled { IfOk result (Settles
            (journal_of self.old (record { records = K.records keeper.old; landed = K.landed keeper.old; unsettled = K.unsettled keeper.old; faults = K.faults keeper.old }) (L.log log.old))
            (journal_of self.new (record { records = K.records keeper.new; landed = K.landed keeper.new; unsettled = K.unsettled keeper.new; faults = K.faults keeper.new }) (L.log log.new))) }
        ensures fails { IfErr result (FailsToSettle
            (journal_of self.old (record { records = K.records keeper.old; landed = K.landed keeper.old; unsettled = K.unsettled keeper.old; faults = K.faults keeper.old }) (L.log log.old))
            (journal_of self.new (record { records = K.records keeper.new; landed = K.landed keeper.new; unsettled = K.unsettled keeper.new; faults = K.faults keeper.new }) (L.log log.new))) }
        ensures through { L.through log.new ≡ L.through log.old }
        ensures target { L.target log.new ≡ L.target log.old }
        ensures since { (before : List LogItem) → L.since log.old before → L.since log.new before }
        ensures idle { self.old.pending ≡ None → keeper.new ≡ keeper.old }
        ensures settles { self.old.pending ≢ None → K.settles keeper.old keeper.new (settling_of result) }
        ensures tables { self.new.tables ≡ self.old.tables }
        ensures met { AreBalanced self.old.setup self.old.state held.old }
        ensures numbers { HaveSameNumbers held.new held.old }
        ensures own { AreOf self.new.tables held.new }
        ensures balanced { AreBalanced self.new.setup self.new.state held.new }
    {
        self.meet(held);
        let Some(pending) = self.pending.take() else {
            return Ok(false);
        };
        match keeper.settle() {
            Ok(true) => {
                adopt(&mut self.book, log, held, pending);
                Ok(true)
            }
            Ok(false) => {
                drop(pending);
                Ok(false)
            }
            Err(_) => {
                let count = keeper.faults();
                log.unsettled(count);
                self.pending = Some(pending);
                Err(SubmitFault::Keeper(count))
            }
        }
    }

    /// Gives up what is pending without asking the keeper. That is right for a bank that ends: the one that opens from the records
    /// after it finds that of the pending event, or doesn't. Takes no memory.
    pub fn give_up(&mut self)
        ensures setup { self.new.setup ≡ self.old.setup }
        ensures state { self.new.state ≡ self.old.state }
        ensures tables { self.new.tables ≡ self.old.tables }
        ensures pending { self.new.pending ≡ None }
    {
        self.pending = None;
    }

    /// The book, without what is pending. Takes no memory.
    pub fn into_book(self) -> Book<P>
        ensures setup { result.setup ≡ self.setup }
        ensures state { result.state ≡ self.state }
        ensures tables { result.tables ≡ self.tables }
    {
        let Engine { book, pending: _ } = self;
        book
    }
}

impl<P: Printer> Drop for Engine<P> {
    fn drop(self) {
        let Engine {
            book: _,
            pending: _,
        } = self;
    }
}
