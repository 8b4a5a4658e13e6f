//! An engine with all accounts of its bank.

ghost use Rattle.std.specs.Prelude.{◌≡◌, ◌≢◌, [], None, true, false, is_ok, is_some, IfOk, IfErr, OnErr};
ghost use Rattle.std.specs.Option.{IfSome};
ghost use Rattle.ofx_types.specs.Calendar.{IsMoment};
ghost use Rattle.ofx_ports.specs.Kept.{counted};
ghost use Rattle.bank_model.specs.Rules.{IsLegal};
ghost use Rattle.bank_model.specs.SetupForm.{IsWithinLimits};
ghost use Rattle.bank_invariants.specs.SoundStates.{IsSoundState};
ghost use Rattle.bank_solo.specs.Solo.{AreAccountsIn, AreAccountsOf};
ghost use Rattle.bank_engine.specs.Calls.{FailsToCommit, Settles, FailsToSettle, settling_of};
ghost use Rattle.bank_engine.specs.Solo.{Sends, AppendsOne};
ghost use Rattle.bank_engine.specs.Steps.{Expects};
ghost use Rattle.bank_engine.specs.Views.{journal_of};

use crate::checkout::check_out;
use crate::engine::Engine;
use crate::envelope::Envelope;
use crate::publisher::Publisher;
use bank_accounts::{Account, AccountPool, Held};
use bank_core::Book;
use bank_model::{Event, Printer, SubmitFault};
use ofx_ports::Keeper;
use ofx_types::{Moment, OutOfMemory};
use std::alloc::Global;
use std::marker::Model;

/// An engine with all accounts of its bank, for one caller. The accounts that an event names are lent for its step. They stay lent
/// while the event is pending, so that settling takes no memory.
///
/// ```rust
/// use bank_core::Book;
/// use bank_engine::{Log, SoloEngine, Unsent};
/// use bank_model::{Event, Setup, SubmitFault};
/// use ofx_file::OfxPrinter;
/// use ofx_ports::MemKeeper;
/// use ofx_types::{Moment, Text, UserId};
/// use std::hash::RandomState;
///
/// let alloc = rt.alloc();
/// let bytes = b"OFXBANK 1\nBANK 1\nLEAD 5\nWINDOW 3\nENTRIES 99\n\
///     USER alice secret\nACCT 1001 CHECKING 0 alice\n";
/// let setup = Setup::read(alloc, bytes).expect(&rt, "a setup");
/// let keys = RandomState::new(&rt).expect(&rt, "keys");
/// let begun = Book::begin(alloc, keys, setup, OfxPrinter);
/// let (book, accounts) = begun.expect(&rt, "a bank");
/// let mut engine = SoloEngine::new(alloc, book, accounts).expect(&rt, "room");
/// let text = |word: &str| Text::new(alloc, word.as_bytes(), 64).expect(&rt, "a text");
/// let letter = Event::Letter(UserId(0), text("Hello"), text("Hi"));
/// // The append of its record fails, though the record is stored. The event is pending until that is settled.
/// let mut keeper = MemKeeper::failing(alloc, &[1], &[1]).expect(&rt, "a keeper");
/// let (mut log, noon) = (Log::new(), Moment(1_706_702_400));
/// let reply = engine.commit(alloc, &mut keeper, &mut log, letter, noon, Unsent);
/// assert!(rt; reply.err() == Some(SubmitFault::Keeper(1)));
/// assert!(rt; engine.settle(&mut keeper, &mut log) == Ok(true));
/// assert!(rt; engine.book().next_number() == Some(2));
/// ```
pub struct SoloEngine<P: Printer> {
    engine: Engine<P>,
    pool: AccountPool,
    held: Held,
}

impl<P: Printer> Model for SoloEngine<P> {
    ghost use Rattle.bank_accounts.specs.Pool.{AreCheckedOut};
    ghost use Rattle.bank_engine.specs.Solo.{AreLentFor};
    ghost use Rattle.bank_engine.specs.Views.{EngineView};

    ghost Value = { EngineView };

    ghost view = { λ e. e.engine };

    ghost invariant = { λ e. AreCheckedOut e.engine.tables e.pool e.held
        × AreLentFor e.engine.setup e.engine.state e.held e.engine.pending };
}

impl<P: Printer> SoloEngine<P> {
    /// The engine of a bank with this book, and all of its accounts in the order of their numbers.
    pub fn new(
        alloc: Global,
        book: Book<P>,
        accounts: Vec<Account>,
    ) -> Result<SoloEngine<P>, OutOfMemory>
        requires { AreAccountsOf book.tables accounts.items }
        ensures setup { IfOk result (λ engine. engine.setup ≡ book.setup) }
        ensures state { IfOk result (λ engine. engine.state ≡ book.state) }
        ensures tables { IfOk result (λ engine. engine.tables ≡ book.tables) }
        ensures pending { IfOk result (λ engine. engine.pending ≡ None) }
    {
        let pool = AccountPool::from_vec(alloc, accounts)?;
        Ok(SoloEngine {
            engine: Engine::new(book),
            pool,
            held: Held::new(alloc),
        })
    }

    /// The book, lent. Takes no memory.
    pub fn book(&self) -> &Book<P>
        ensures setup { result.now.setup ≡ self.now.setup }
        ensures state { result.now.state ≡ self.now.state }
        ensures tables { result.now.tables ≡ self.now.tables }
        ensures within { IsWithinLimits self.now.setup }
        ensures sound { IsSoundState self.now.setup self.now.state }
    {
        self.engine.book()
    }

    /// Makes an event happen at that moment that may: its record is appended, and then its step is taken. Gives its reply in that
    /// envelope. Nothing is pending. All memory is taken before the record is appended.
    ///
    /// - `Keeper(n)`: the append failed, and the keeper's count of faults rose to n in this call. The event is pending.
    /// - `OutOfMemory`: nothing has happened.
    pub fn commit<K: Keeper, L: Publisher, E: Envelope>(
        &mut self,
        alloc: Global,
        keeper: &mut K,
        log: &mut L,
        event: Event,
        at: Moment,
        envelope: E,
    ) -> Result<Vec<u8>, SubmitFault>
        requires moment { IsMoment at.0 }
        requires legal { IsLegal self.old.setup self.old.state at event }
        requires settled { self.old.pending ≡ None }
        requires unsettled { K.unsettled keeper.old ≡ false }
        requires expected { Expects (L.expects log.old) self.old.setup self.old.state at event }
        requires free { L.expects log.old [] }
        ensures answers { IfOk result (λ line. Sends (E.sent envelope)
            (journal_of self.old (record { records = K.records keeper.old; landed = K.landed keeper.old; unsettled = K.unsettled keeper.old; faults = K.faults keeper.old }) (L.log log.old))
            (journal_of self.new (record { records = K.records keeper.new; landed = K.landed keeper.new; unsettled = K.unsettled keeper.new; faults = K.faults keeper.new }) (L.log log.new))
            event at line.items) }
        ensures fails { IfErr result (FailsToCommit
            (journal_of self.old (record { records = K.records keeper.old; landed = K.landed keeper.old; unsettled = K.unsettled keeper.old; faults = K.faults keeper.old }) (L.log log.old))
            (journal_of self.new (record { records = K.records keeper.new; landed = K.landed keeper.new; unsettled = K.unsettled keeper.new; faults = K.faults keeper.new }) (L.log log.new))
            event at) }
        ensures tables { self.new.tables ≡ self.old.tables }
        ensures size { K.size keeper.new ≡ counted (K.size keeper.old) (is_ok result) }
        ensures appends { AppendsOne K.appends keeper.old keeper.new at event result }
    {
        check_out(
            alloc,
            self.engine.book(),
            &mut self.pool,
            &mut self.held,
            &event,
        )?;
        let sent = self
            .engine
            .send(alloc, keeper, log, &mut self.held, event, at, envelope);
        match self.engine.pending() {
            None => self.pool.check_in(&mut self.held),
            Some(_) => {}
        }
        sent
    }

    /// Settles whether the record of the pending event is stored, and answers whether the event is adopted: it has happened at its
    /// moment. Afterwards nothing is pending. Takes no memory.
    ///
    /// - `Keeper(n)`: the keeper's count of faults rose to n in this call. The event is pending still.
    pub fn settle<K: Keeper, L: Publisher>(
        &mut self,
        keeper: &mut K,
        log: &mut L,
    ) -> Result<bool, SubmitFault>
        requires unsettled { K.unsettled keeper.old ≡ is_some self.old.pending }
        requires expected { IfSome self.old.pending (λ pending. Expects (L.expects log.old) self.old.setup self.old.state pending.at pending.event) }
        requires free { L.expects log.old [] }
        ensures settled { IfOk result (Settles
            (journal_of self.old (record { records = K.records keeper.old; landed = K.landed keeper.old; unsettled = K.unsettled keeper.old; faults = K.faults keeper.old }) (L.log log.old))
            (journal_of self.new (record { records = K.records keeper.new; landed = K.landed keeper.new; unsettled = K.unsettled keeper.new; faults = K.faults keeper.new }) (L.log log.new))) }
        ensures fails { IfErr result (FailsToSettle
            (journal_of self.old (record { records = K.records keeper.old; landed = K.landed keeper.old; unsettled = K.unsettled keeper.old; faults = K.faults keeper.old }) (L.log log.old))
            (journal_of self.new (record { records = K.records keeper.new; landed = K.landed keeper.new; unsettled = K.unsettled keeper.new; faults = K.faults keeper.new }) (L.log log.new))) }
        ensures tables { self.new.tables ≡ self.old.tables }
        ensures idle { self.old.pending ≡ None → keeper.new ≡ keeper.old }
        ensures settles { self.old.pending ≢ None → K.settles keeper.old keeper.new (settling_of result) }
    {
        let adopted = self.engine.settle(keeper, log, &mut self.held)?;
        self.pool.check_in(&mut self.held);
        Ok(adopted)
    }

    /// Gives up what is pending without asking the keeper: all accounts are in the pool again. That is right for a bank that
    /// ends: the one that opens from the records after it finds that of the pending event, or doesn't. Takes no memory.
    pub fn give_up(&mut self)
        ensures setup { self.new.setup ≡ self.old.setup }
        ensures state { self.new.state ≡ self.old.state }
        ensures tables { self.new.tables ≡ self.old.tables }
        ensures pending { self.new.pending ≡ None }
    {
        self.engine.give_up();
        self.pool.check_in(&mut self.held);
    }

    /// The book, and all accounts in the order of their numbers, each with its balance. What is pending is given up.
    pub fn into_parts(mut self, alloc: Global) -> Result<(Book<P>, Vec<Account>), OutOfMemory>
        ensures setup { IfOk result (λ parts. parts.0.setup ≡ self.setup) }
        ensures state { IfOk result (λ parts. parts.0.state ≡ self.state) }
        ensures accounts { IfOk result (λ parts. AreAccountsIn self.setup self.state parts.1.items) }
        ensures own { IfOk result (λ parts. AreAccountsOf parts.0.tables parts.1.items) }
    {
        self.give_up();
        let SoloEngine {
            engine,
            pool,
            held: _,
        } = self;
        let mut book = engine.into_book();
        // For the proof alone: its contract says that there is a table for each account of the setup.
        let _setup = book.setup();
        let accounts = pool.into_vec(alloc)?;
        let mut all = Held::from_vec(accounts);
        book.meet(&mut all);
        Ok((book, all.into_vec()))
    }
}

impl<P: Printer> Drop for SoloEngine<P> {
    fn drop(self) {
        let SoloEngine {
            engine: _,
            pool: _,
            held: _,
        } = self;
    }
}
