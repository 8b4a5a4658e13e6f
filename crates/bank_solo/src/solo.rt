//! A book with all accounts of its bank. An event's step is prepared on the accounts that it names, and taken or given up.

ghost use Rattle.std.specs.Prelude.{◌≡◌, [], OnOk, OnErr, IfOk};
ghost use Rattle.ofx_types.specs.Calendar.{IsMoment};
ghost use Rattle.bank_model.specs.SetupForm.{IsWithinLimits};
ghost use Rattle.bank_model.specs.Rules.{IsLegal, opening_state, state_after, answer_to, named};
ghost use Rattle.bank_accounts.specs.HeldAccounts.{AreHeld, AreNamed};
ghost use Rattle.bank_core.specs.BookView.{HasRoom};
ghost use Rattle.bank_solo.specs.Solo.{AreAccountsIn, AreAccountsOf};

use bank_accounts::{Account, AccountPool, Held};
use bank_core::{Book, Prepared};
use bank_model::{Event, Printer, Setup};
use ofx_types::{AcctId, Moment, OutOfMemory};
use std::alloc::Global;
use std::hash::RandomState;
use std::marker::Model;

/// A bank for one caller.
///
/// ```rust
/// use bank_model::{Event, Setup};
/// use bank_solo::SoloBank;
/// use ofx_file::OfxPrinter;
/// use ofx_types::{Moment, Text, UserId};
/// use std::hash::RandomState;
///
/// let alloc = rt.alloc();
/// let bytes = b"OFXBANK 1\nBANK 1\nLEAD 5\nWINDOW 3\nENTRIES 99\n\
///     USER alice secret\nACCT 1001 CHECKING 0 alice\n";
/// let setup = Setup::read(alloc, bytes).expect(&rt, "a setup");
/// let keys = RandomState::new(&rt).expect(&rt, "keys");
/// let mut bank = SoloBank::begin(alloc, keys, setup, OfxPrinter).expect(&rt, "a bank");
/// let text = |word: &str| Text::new(alloc, word.as_bytes(), 64).expect(&rt, "a text");
/// let letter = Event::Letter(UserId(0), text("Hello"), text("Hi"));
/// let reply = bank
///     .step(alloc, &letter, Moment(1_706_702_400))
///     .expect(&rt, "room");
/// assert!(rt; reply.is_empty() && bank.book().next_number() == Some(2));
/// ```
pub struct SoloBank<P: Printer> {
    book: Book<P>,
    pool: AccountPool,
    held: Held,
}

impl<P: Printer> Model for SoloBank<P> {
    ghost use Rattle.bank_model.specs.SetupForm.{IsWithinLimits};
    ghost use Rattle.bank_accounts.specs.Pool.{AreCheckedOut};
    ghost use Rattle.bank_solo.specs.Solo.{SoloView};

    ghost Value = { SoloView };

    ghost view = { λ b. record {
      setup = b.book.setup;
      state = b.book.state;
      room = b.book.room;
      tables = b.book.tables;
      held = b.held;
    } };

    ghost invariant = { λ b. IsWithinLimits b.book.setup × AreCheckedOut b.book.tables b.pool b.held };
}

impl<P: Printer> Drop for SoloBank<P> {
    fn drop(self) {
        let SoloBank {
            book: _,
            pool: _,
            held: _,
        } = self;
    }
}

impl<P: Printer> SoloBank<P> {
    /// A bank of that setup that opens. Clients' names are found by hashes with these keys.
    pub fn begin(
        alloc: Global,
        keys: RandomState,
        setup: Setup,
        printer: P,
    ) -> Result<SoloBank<P>, OutOfMemory>
        requires { IsWithinLimits setup }
        ensures setup { IfOk result (λ bank. bank.setup ≡ setup) }
        ensures state { IfOk result (λ bank. bank.state ≡ opening_state) }
        ensures pool { IfOk result (λ bank. bank.held ≡ []) }
    {
        let (book, accounts) = Book::begin(alloc, keys, setup, printer)?;
        SoloBank::new(alloc, book, accounts)
    }

    /// The bank of a book, with all of its accounts.
    pub fn new(
        alloc: Global,
        book: Book<P>,
        accounts: Vec<Account>,
    ) -> Result<SoloBank<P>, OutOfMemory>
        requires within { IsWithinLimits book.setup }
        requires accounts { AreAccountsOf book.tables accounts.items }
        ensures setup { IfOk result (λ bank. bank.setup ≡ book.setup) }
        ensures state { IfOk result (λ bank. bank.state ≡ book.state) }
        ensures tables { IfOk result (λ bank. bank.tables ≡ book.tables) }
        ensures pool { IfOk result (λ bank. bank.held ≡ []) }
    {
        let pool = AccountPool::from_vec(alloc, accounts)?;
        Ok(SoloBank {
            book,
            pool,
            held: Held::new(alloc),
        })
    }

    /// The book, lent.
    pub fn book(&self) -> &Book<P>
        ensures setup { result.now.setup ≡ self.now.setup }
        ensures state { result.now.state ≡ self.now.state }
        ensures tables { result.now.tables ≡ self.now.tables }
        ensures within { IsWithinLimits self.now.setup }
    {
        &self.book
    }

    /// What the event answers at that moment, and the state that it leaves. The accounts that it names are checked out for its
    /// step, which `adopt` takes and `give_up` doesn't. All memory of the event is taken here; where it is refused, all
    /// accounts are in the pool.
    pub fn prepare(
        &mut self,
        alloc: Global,
        event: &Event,
        at: Moment,
    ) -> Result<Prepared, OutOfMemory>
        requires moment { IsMoment at.0 }
        requires legal { IsLegal self.old.setup self.old.state at event.now }
        requires pool { self.old.held ≡ [] }
        ensures setup { self.new.setup ≡ self.old.setup }
        ensures state { self.new.state ≡ self.old.state }
        ensures tables { self.new.tables ≡ self.old.tables }
        ensures of { IfOk result (λ prepared. prepared.setup ≡ self.old.setup) }
        ensures before { IfOk result (λ prepared. prepared.before ≡ self.old.state) }
        ensures event { IfOk result (λ prepared. prepared.event ≡ event.now) }
        ensures after { IfOk result (λ prepared. prepared.after ≡ state_after self.old.setup self.old.state at event.now) }
        ensures reply { IfOk result (λ prepared. prepared.reply ≡ answer_to self.old.setup self.old.state at event.now) }
        ensures room { IfOk result (λ prepared. HasRoom self.new.room self.old.state prepared.after) }
        ensures named { OnOk result (AreHeld self.new.held (named self.old.setup self.old.state event.now)) }
        ensures only { OnOk result (AreNamed self.new.held (named self.old.setup self.old.state event.now)) }
        ensures refused { OnErr result (self.new.held ≡ []) }
    {
        self.check_out(alloc, event)?;
        match self.book.answer(alloc, &mut self.held, event, at) {
            Ok(prepared) => Ok(prepared),
            Err(OutOfMemory) => {
                self.pool.check_in(&mut self.held);
                Err(OutOfMemory)
            }
        }
    }

    /// Checks out the accounts that the event names, and no others.
    fn check_out(&mut self, alloc: Global, event: &Event) -> Result<(), OutOfMemory>
        requires { self.old.held ≡ [] }
        ensures setup { self.new.setup ≡ self.old.setup }
        ensures state { self.new.state ≡ self.old.state }
        ensures tables { self.new.tables ≡ self.old.tables }
        ensures named { OnOk result (AreHeld self.new.held (named self.old.setup self.old.state event.now)) }
        ensures only { OnOk result (AreNamed self.new.held (named self.old.setup self.old.state event.now)) }
        ensures refused { OnErr result (self.new.held ≡ []) }
    {
        let numbers = self.book.named(alloc, event)?;
        self.pool.check_out(&mut self.held, &numbers)
    }

    /// Takes the step that was prepared, and gives the bytes of its reply. All accounts are in the pool then. Takes no memory.
    pub fn adopt(&mut self, prepared: Prepared) -> Vec<u8>
        requires of { prepared.setup ≡ self.old.setup }
        requires made { prepared.before ≡ self.old.state }
        requires room { HasRoom self.old.room self.old.state prepared.after }
        requires named { AreHeld self.old.held (named self.old.setup self.old.state prepared.event) }
        ensures setup { self.new.setup ≡ self.old.setup }
        ensures state { self.new.state ≡ prepared.after }
        ensures tables { self.new.tables ≡ self.old.tables }
        ensures pool { self.new.held ≡ [] }
        ensures reply { result.items ≡ prepared.reply }
    {
        let reply = self.book.adopt(&mut self.held, prepared);
        self.pool.check_in(&mut self.held);
        reply
    }

    /// Gives up what was prepared: the accounts that were checked out for it are in the pool again. Takes no memory.
    pub fn give_up(&mut self)
        ensures setup { self.new.setup ≡ self.old.setup }
        ensures state { self.new.state ≡ self.old.state }
        ensures tables { self.new.tables ≡ self.old.tables }
        ensures pool { self.new.held ≡ [] }
    {
        self.pool.check_in(&mut self.held);
    }

    /// Makes an event happen at that moment, and gives its reply. Where memory is refused, nothing has happened.
    pub fn step(&mut self, alloc: Global, event: &Event, at: Moment) -> Result<Vec<u8>, OutOfMemory>
        requires moment { IsMoment at.0 }
        requires legal { IsLegal self.old.setup self.old.state at event.now }
        requires pool { self.old.held ≡ [] }
        ensures setup { self.new.setup ≡ self.old.setup }
        ensures tables { self.new.tables ≡ self.old.tables }
        ensures pool { self.new.held ≡ [] }
        ensures state { OnOk result (self.new.state ≡ state_after self.old.setup self.old.state at event.now) }
        ensures reply { IfOk result (λ reply. reply.items ≡ answer_to self.old.setup self.old.state at event.now) }
        ensures refused { OnErr result (self.new.state ≡ self.old.state) }
    {
        let prepared = self.prepare(alloc, event, at)?;
        Ok(self.adopt(prepared))
    }

    /// Makes an event happen again that happened at that moment. Its reply is made only where the state keeps it. Where memory
    /// is refused, nothing has happened.
    pub fn replay(&mut self, alloc: Global, event: &Event, at: Moment) -> Result<(), OutOfMemory>
        requires moment { IsMoment at.0 }
        requires legal { IsLegal self.old.setup self.old.state at event.now }
        requires pool { self.old.held ≡ [] }
        ensures setup { self.new.setup ≡ self.old.setup }
        ensures tables { self.new.tables ≡ self.old.tables }
        ensures pool { self.new.held ≡ [] }
        ensures state { OnOk result (self.new.state ≡ state_after self.old.setup self.old.state at event.now) }
        ensures refused { OnErr result (self.new.state ≡ self.old.state) }
    {
        self.check_out(alloc, event)?;
        let replayed = self.book.replay(alloc, &mut self.held, event, at);
        match replayed {
            Ok(prepared) => {
                let _reply = self.adopt(prepared);
                Ok(())
            }
            Err(OutOfMemory) => {
                self.pool.check_in(&mut self.held);
                Err(OutOfMemory)
            }
        }
    }

    /// The book, and its accounts in the order of their numbers, each with its balance.
    pub fn into_parts(self, alloc: Global) -> Result<(Book<P>, Vec<Account>), OutOfMemory>
        requires { self.held ≡ [] }
        ensures setup { IfOk result (λ parts. parts.0.setup ≡ self.setup) }
        ensures state { IfOk result (λ parts. parts.0.state ≡ self.state) }
        ensures accounts { IfOk result (λ parts. AreAccountsIn self.setup self.state parts.1.items) }
        ensures own { IfOk result (λ parts. AreAccountsOf parts.0.tables parts.1.items) }
    {
        let SoloBank {
            mut book,
            pool,
            held: _,
        } = self;
        // For the proof alone: its contract says that there is a table for each account of the setup.
        let _setup = book.setup();
        let accounts = pool.into_vec(alloc)?;
        let mut all = Held::from_vec(accounts);
        book.meet(&mut all);
        Ok((book, all.into_vec()))
    }
}
