//! The journal of a bank: its engine, the keeper of its records, and the writer of its log.

ghost use Rattle.std.specs.Prelude.{◌≡◌, false, [], None, All, OnOk, OnErr, IfOk, IfErr};
ghost use Rattle.std.specs.Option.{IfSome, IsSomeAnd, option_map, option_copied};
ghost use Rattle.ofx_types.specs.Calendar.{IsMoment};
ghost use Rattle.ofx_ports.specs.Known.{Stays};
ghost use Rattle.bank_model.specs.LegalLog.{IsWholeLog, MayHappen, ends};
ghost use Rattle.bank_model.specs.Log.{endings, entries_in};
ghost use Rattle.bank_model.specs.Rules.{IsLegal, named};
ghost use Rattle.bank_model.specs.SetupForm.{IsWithinLimits};
ghost use Rattle.bank_accounts.specs.HeldAccounts.{AreHeld, HaveSameNumbers};
ghost use Rattle.bank_accounts.specs.Sides.{AreOf};
ghost use Rattle.bank_ledger.specs.Balanced.{AreBalanced};
ghost use Rattle.bank_replay.specs.Opening.{RecordsGive};
ghost use Rattle.bank_engine.specs.Kept.{AreKept};
ghost use Rattle.bank_engine.specs.Truth.{IsTrue, IsUpTo};
ghost use Rattle.bank_engine.specs.Calls.{Answers, FailsToCommit, FailsToSettle};
ghost use Rattle.token_board.specs.Publishing.{Meets};
ghost use Rattle.bank_shared.specs.Calls.{IsOfKeeper, IsSettled};
ghost use Rattle.bank_shared.specs.Holds.{BeginsAt};

use crate::name::BankName;
use crate::publishing::{commit_at, settle_at};
use bank_accounts::Held;
use bank_callers::laws::{entries_belong, steps_follow};
use bank_core::Book;
use bank_engine::Engine;
use bank_model::{Event, Printer, SubmitFault};
use ofx_ports::Keeper;
use ofx_types::Moment;
use std::alloc::Global;
use std::marker::{Model, PhantomData};
use token_board::laws::{endings_are_claimed, heard_passes_meet};
use token_board::{Board, Pass, Writer};

/// The journal of the bank that `N` names.
///
/// Its log is legal from the state in which the bank opened, without a cut group, and its book stands for the state that the log
/// ends in. Where the keeper's records were known when the bank opened, it has these, then those of the events that the log
/// answered and adopted; while an append that failed isn't settled, its record may be stored besides. Its book has the other side
/// of each of the bank's accounts, so whoever has such an account and the journal knows the account's balance after the log.
pub struct Journal<N: BankName, K: Keeper, P: Printer> {
    pub(crate) alloc: Global,
    keeper: K,
    engine: Engine<P>,
    writer: Writer,
    name: PhantomData<N>,
}

impl<N: BankName, K: Keeper, P: Printer> Model for Journal<N, K, P> {
    ghost use Rattle.std.specs.Prelude.{◌≡◌};
    ghost use Rattle.bank_engine.specs.Truth.{IsTrue};
    ghost use Rattle.bank_engine.specs.Views.{JournalView, journal_of};
    ghost use Rattle.bank_shared.specs.Holds.{IsWriterOf};

    ghost Value = { JournalView };

    ghost view = { λ j. journal_of j.engine (record {
      records = K.records j.keeper;
      landed = K.landed j.keeper;
      unsettled = K.unsettled j.keeper;
      faults = K.faults j.keeper;
    }) j.writer.log };

    ghost invariant = { λ j. IsTrue N.setup N.opening N.first (journal_of j.engine (record {
      records = K.records j.keeper;
      landed = K.landed j.keeper;
      unsettled = K.unsettled j.keeper;
      faults = K.faults j.keeper;
    }) j.writer.log) × IsWriterOf N.setup N.opening N.board j.writer × (j.engine.tables ≡ N.tables) };
}

impl<N: BankName, K: Keeper, P: Printer> Journal<N, K, P> {
    /// The journal of a bank that has opened from a keeper with the records that `N` names, with the writer of its board. Its log is
    /// empty. Takes no memory.
    pub(crate) fn new(alloc: Global, keeper: K, book: Book<P>, writer: Writer) -> Journal<N, K, P>
        requires setup { book.setup ≡ N.setup }
        requires state { book.state ≡ N.opening }
        requires holds { RecordsGive N.setup N.first N.opening }
        requires kept { Stays N.first (K.records keeper) }
        requires settled { K.unsettled keeper ≡ false }
        requires writer { writer ≡ record { table = N.board.table; log = []; claimed = [] } }
        requires begins { BeginsAt N.setup N.opening N.board }
        requires tables { book.tables ≡ N.tables }
        ensures setup { result.setup ≡ N.setup }
        ensures state { result.state ≡ N.opening }
        ensures tables { result.tables ≡ N.tables }
        ensures log { result.log ≡ [] }
        ensures pending { result.pending ≡ None }
        ensures records { result.records ≡ K.records keeper }
    {
        entries_belong();
        // For the proof alone: its contract says that the setup is within its limits.
        let _setup = book.setup();
        Journal {
            alloc,
            keeper,
            engine: Engine::new(book),
            writer,
            name: PhantomData,
        }
    }

    /// The book, lent. Takes no memory.
    pub fn book(&self) -> &Book<P>
        ensures setup { result.now.setup ≡ self.now.setup }
        ensures state { result.now.state ≡ self.now.state }
        ensures tables { result.now.tables ≡ self.now.tables }
        ensures own { self.now.setup ≡ N.setup }
        ensures within { IsWithinLimits self.now.setup }
        ensures of { self.now.tables ≡ N.tables }
    {
        self.engine.book()
    }

    /// What is true of the log whenever the lock is free, and of the board. It does nothing: proofs call it for what it says.
    pub fn log_holds(&self)
        ensures legal { IsWholeLog N.setup N.opening self.now.log }
        ensures ends { self.now.state ≡ ends N.setup N.opening self.now.log }
        ensures entries { self.now.state.entries ≡ entries_in N.opening self.now.log }
        ensures kept { IfSome N.first (λ first. IsSomeAnd self.now.records
            (AreKept N.setup N.opening first self.now.log self.now.landed self.now.pending)) }
        ensures counts { All (IsUpTo self.now.faults) (endings self.now.log) }
        ensures all { IsTrue N.setup N.opening N.first self.now }
        ensures may { IfSome self.now.pending (λ pending. MayHappen self.now.setup self.now.state pending.at pending.event) }
        ensures begins { BeginsAt N.setup N.opening N.board }
        ensures tables { self.now.tables ≡ N.tables }
    {
        let _ = &self.writer;
        // For the proof alone: its contract says that what is pending may happen.
        let _pending = self.engine.pending();
    }

    /// The event whose append failed, until it is settled whether its record is stored. Takes no memory.
    pub fn pending(&self) -> Option<&Event>
        ensures { option_copied result ≡ option_map (λ pending. pending.event) self.now.pending }
    {
        self.engine.pending()
    }

    /// Settles whether the record of the pending event is stored. Where it is, the event is adopted: it has happened at its moment.
    /// Afterwards nothing is pending. The accounts that the event names are held. The pass is heard first, and has then seen the
    /// log. Takes no memory.
    ///
    /// - `Keeper(n)`: the keeper's count of faults rose to n in this call. The event is still pending, and the pass owns this fault.
    pub fn settle(
        &mut self,
        board: &Board,
        held: &mut Held,
        pass: &mut Pass,
    ) -> Result<(), SubmitFault>
        requires board { board.now ≡ N.board }
        requires pass { pass.old.table ≡ N.board.table }
        requires named { IfSome self.old.pending (λ pending. AreHeld held.old (named self.old.setup self.old.state pending.event)) }
        requires own { AreOf self.old.tables held.old }
        ensures settled { OnOk result (IsSettled self.old self.new) }
        ensures fails { IfErr result (FailsToSettle self.old self.new) }
        ensures keeper { IfErr result IsOfKeeper }
        ensures pass { Meets N.board self.old.log self.new.log pass.old pass.new }
        ensures tables { self.new.tables ≡ self.old.tables }
        ensures numbers { HaveSameNumbers held.new held.old }
        ensures own { AreOf self.new.tables held.new }
        ensures met { AreBalanced self.old.setup self.old.state held.old }
        ensures balanced { AreBalanced self.new.setup self.new.state held.new }
    {
        endings_are_claimed();
        heard_passes_meet();
        steps_follow();
        entries_belong();
        // For the proof alone: their contracts say that the state is sound, and that what is pending may happen.
        let _book = self.engine.book();
        let _pending = self.engine.pending();
        self.writer.hear(board, pass);
        let settled = settle_at(
            &mut self.engine,
            &mut self.keeper,
            board,
            &mut self.writer,
            held,
        );
        pass.meet(board, self.writer.note(board));
        let _adopted = settled?;
        Ok(())
    }

    /// Makes an event happen at that moment, keeps its record, and gives its reply. The accounts that it names are held, and
    /// nothing is pending. The pass is heard first, and has then seen the log; the event's ending is its own.
    ///
    /// All memory is taken before the record is appended, and the book takes the step after it.
    ///
    /// - `Keeper(n)`: the append failed, and the keeper's count of faults rose to n in this call. The event is pending, and the pass
    ///   owns this fault.
    /// - `OutOfMemory`: nothing has happened.
    pub fn commit(
        &mut self,
        board: &Board,
        held: &mut Held,
        pass: &mut Pass,
        event: &Event,
        at: Moment,
    ) -> Result<Vec<u8>, SubmitFault>
        requires board { board.now ≡ N.board }
        requires pass { pass.old.table ≡ N.board.table }
        requires moment { IsMoment at.0 }
        requires legal { IsLegal self.old.setup self.old.state at event.now }
        requires settled { self.old.pending ≡ None }
        requires named { AreHeld held.old (named self.old.setup self.old.state event.now) }
        requires own { AreOf self.old.tables held.old }
        ensures answers { IfOk result (λ reply. Answers self.old self.new event.now at reply.items) }
        ensures fails { IfErr result (FailsToCommit self.old self.new event.now at) }
        ensures pass { Meets N.board self.old.log self.new.log pass.old pass.new }
        ensures tables { self.new.tables ≡ self.old.tables }
        ensures numbers { HaveSameNumbers held.new held.old }
        ensures own { AreOf self.new.tables held.new }
        ensures met { AreBalanced self.old.setup self.old.state held.old }
        ensures balanced { AreBalanced self.new.setup self.new.state held.new }
        ensures accounts { OnErr result (held.new ≡ held.old) }
    {
        endings_are_claimed();
        heard_passes_meet();
        steps_follow();
        entries_belong();
        // For the proof alone: its contract says that the state is sound.
        let _book = self.engine.book();
        self.writer.hear(board, pass);
        let committed = commit_at(
            self.alloc,
            &mut self.engine,
            &mut self.keeper,
            board,
            &mut self.writer,
            held,
            event,
            at,
        );
        pass.meet(board, self.writer.note(board));
        committed
    }
}

impl<N: BankName, K: Keeper, P: Printer> Drop for Journal<N, K, P> {
    fn drop(self) {
        let Journal {
            alloc: _,
            keeper: _,
            engine: _,
            writer: _,
            name: _,
        } = self;
    }
}
