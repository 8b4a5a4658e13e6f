//! The book of the bank: the setup and the state, and the step that an event makes.

mod answer;
mod due;
mod legal;
mod named;
mod poll;
mod replay;
mod unasked;

ghost use Rattle.std.specs.Prelude.{◌≡◌, ◌+◌, ◌<◌, ◌≤◌, length, IfSome, IfNone, IfOk};
ghost use Rattle.ofx_types.specs.Calendar.{IsMoment};
ghost use Rattle.bank_model.specs.SetupForm.{IsWithinLimits};
ghost use Rattle.bank_model.specs.Rules.{IsLegal, opening_state, state_after, answer_to, named};
ghost use Rattle.bank_accounts.specs.HeldAccounts.{AreHeld, HaveSameNumbers};
ghost use Rattle.bank_accounts.specs.Sides.{tables_of, AreOf};
ghost use Rattle.bank_ledger.specs.Balanced.{AreBalanced};
ghost use Rattle.bank_core.specs.BookView.{HasRoom, KeepsRoom};
ghost use Rattle.bank_core.specs.Opened.{AreOpened};
ghost use Rattle.bank_invariants.specs.SoundStates.{IsSoundState};

use crate::opening::opened_accounts;
use crate::prepared::Prepared;
use bank_accounts::{Account, BookSides, Held};
use bank_ledger::Ledger;
use bank_model::{Event, Printer, Setup};
use ofx_types::{Moment, OutOfMemory};
use std::alloc::Global;
use std::hash::RandomState;
use std::marker::Model;

/// A bank's setup and the state that it is in, with the printer of its replies.
///
/// ```rust
/// use bank_accounts::Held;
/// use bank_core::Book;
/// use bank_model::{Event, Setup};
/// use ofx_file::OfxPrinter;
/// use ofx_types::{Moment, Text, UserId};
/// use std::hash::RandomState;
///
/// let alloc = rt.alloc();
/// let bytes = b"OFXBANK 1\nBANK 1\nLEAD 5\nWINDOW 3\nENTRIES 99\n\
///     USER alice secret\nACCT 1001 CHECKING 0 alice\n";
/// let setup = Setup::read(alloc, bytes).expect(&rt, "a setup");
/// let keys = RandomState::new(&rt).expect(&rt, "keys");
/// let begun = Book::begin(alloc, keys, setup, OfxPrinter);
/// let (mut book, _accounts) = begun.expect(&rt, "a bank");
/// let text = |word: &str| Text::new(alloc, word.as_bytes(), 64).expect(&rt, "a text");
/// let letter = Event::Letter(UserId(0), text("Hello"), text("Hi"));
/// let noon = Moment(1_706_702_400);
/// assert!(rt; book.legal(&letter, noon));
/// // A letter names no account, so none is held. Its step is prepared, and only then taken.
/// let mut held = Held::new(alloc);
/// let prepared = book.answer(alloc, &mut held, &letter, noon);
/// assert!(rt; book.next_number() == Some(1));
/// let reply = book.adopt(&mut held, prepared.expect(&rt, "room"));
/// assert!(rt; reply.is_empty() && book.next_number() == Some(2));
/// ```
pub struct Book<P: Printer> {
    setup: Setup,
    ledger: Ledger,
    sides: BookSides,
    printer: P,
    // the longest reply that a new file may get, in bytes
    most: usize,
}

impl<P: Printer> Model for Book<P> {
    ghost use Rattle.std.specs.Prelude.{◌≡◌};
    ghost use Rattle.bank_model.specs.SetupForm.{IsWithinLimits};
    ghost use Rattle.bank_accounts.specs.Sides.{tables_in};
    ghost use Rattle.bank_core.specs.BookSides.{AreSidesOf};
    ghost use Rattle.bank_core.specs.BookView.{ReservedBook};
    ghost use Rattle.bank_invariants.specs.SoundStates.{IsSoundState};

    ghost Value = { ReservedBook };

    ghost view = { λ b. record { setup = b.setup; state = b.ledger.state; tables = tables_in b.sides; room = b.ledger.room } };

    ghost invariant = { λ b. IsWithinLimits b.setup × IsSoundState b.setup b.ledger.state
        × (b.ledger.window ≡ b.setup.window) × AreSidesOf b.setup b.ledger.state b.sides };
}

impl<P: Printer> Drop for Book<P> {
    fn drop(self) {
        let Book {
            setup: _,
            ledger: _,
            sides: _,
            printer: _,
            most: _,
        } = self;
    }
}

impl<P: Printer> Book<P> {
    /// A bank of that setup that opens, and its accounts. Clients' names are found by hashes with these keys.
    pub fn begin(
        alloc: Global,
        keys: RandomState,
        setup: Setup,
        printer: P,
    ) -> Result<(Book<P>, Vec<Account>), OutOfMemory>
        requires { IsWithinLimits setup }
        ensures setup { IfOk result (λ begun. begun.0.setup ≡ setup) }
        ensures state { IfOk result (λ begun. begun.0.state ≡ opening_state) }
        ensures accounts { IfOk result (λ begun. AreOpened setup begun.1.items) }
        ensures tables { IfOk result (λ begun. begun.0.tables ≡ tables_of begun.1.items) }
    {
        let (accounts, sides) = opened_accounts(alloc, &setup)?;
        let ledger = Ledger::new(alloc, keys, setup.window);
        let book = Book {
            setup,
            ledger,
            sides,
            printer,
            most: usize::MAX,
        };
        Ok((book, accounts))
    }

    /// From now on a new file whose reply is longer than so many bytes is refused as for want of memory: nothing of it happens.
    /// Replies that are kept already, and events that happen again, aren't bounded. At first any length will do.
    pub fn bound_replies(&mut self, most: usize)
        ensures { self.new ≡ self.old }
    {
        self.most = most;
    }

    /// The setup, lent.
    pub fn setup(&self) -> &Setup
        ensures setup { result.now ≡ self.now.setup }
        ensures within { IsWithinLimits self.now.setup }
        ensures sound { IsSoundState self.now.setup self.now.state }
        ensures tables { length self.now.tables ≡ length self.now.setup.accounts }
    {
        &self.setup
    }

    /// The number of the next entry. None exactly where the bank makes no more entries in its life (the setup's
    /// `entries`). Takes no memory.
    pub fn next_number(&self) -> Option<u64>
        ensures next { IfSome result (λ number. number ≡ length self.now.state.entries + 1) }
        ensures some { IfSome result (λ _. length self.now.state.entries < self.now.setup.entries) }
        ensures none { IfNone result (length self.now.state.entries ≡ self.now.setup.entries) }
    {
        let count = self.ledger.count();
        if count < self.setup.entries {
            Some(count + 1)
        } else {
            None
        }
    }

    /// Shows that each account that is held has the balance of the state. Takes no memory.
    ///
    /// Each of the accounts is of this book.
    pub fn meet(&mut self, held: &mut Held)
        requires { AreOf self.old.tables held.old }
        ensures setup { self.new.setup ≡ self.old.setup }
        ensures state { self.new.state ≡ self.old.state }
        ensures tables { self.new.tables ≡ self.old.tables }
        ensures room { self.new.room ≡ self.old.room }
        ensures accounts { held.new ≡ held.old }
        ensures balanced { AreBalanced self.old.setup self.old.state held.old }
    {
        self.sides.meet(held);
    }

    /// What the event answers at that moment, and the state that it leaves.
    ///
    /// The accounts that the event names are held, and each account that is held is of this book. The book and the
    /// accounts stay as they are: the step is taken by `adopt`. All memory of the event is taken here.
    pub fn answer(
        &mut self,
        alloc: Global,
        held: &mut Held,
        event: &Event,
        at: Moment,
    ) -> Result<Prepared, OutOfMemory>
        requires moment { IsMoment at.0 }
        requires legal { IsLegal self.old.setup self.old.state at event.now }
        requires named { AreHeld held.old (named self.old.setup self.old.state event.now) }
        requires own { AreOf self.old.tables held.old }
        ensures setup { self.new.setup ≡ self.old.setup }
        ensures state { self.new.state ≡ self.old.state }
        ensures tables { self.new.tables ≡ self.old.tables }
        ensures accounts { held.new ≡ held.old }
        ensures balanced { AreBalanced self.old.setup self.old.state held.new }
        ensures of { IfOk result (λ prepared. prepared.setup ≡ self.old.setup) }
        ensures before { IfOk result (λ prepared. prepared.before ≡ self.old.state) }
        ensures event { IfOk result (λ prepared. prepared.event ≡ event.now) }
        ensures after { IfOk result (λ prepared.
            prepared.after ≡ state_after self.old.setup self.old.state at event.now) }
        ensures reply { IfOk result (λ prepared.
            prepared.reply ≡ answer_to self.old.setup self.old.state at event.now) }
        ensures room { IfOk result (λ prepared. HasRoom self.new.room self.old.state prepared.after) }
        ensures room_stays { KeepsRoom self.old.room self.new.room }
    {
        self.meet(held);
        self.prepare_with_room(alloc, held, event, at)
    }

    /// What the event makes, with room for it.
    fn prepare_with_room(
        &mut self,
        alloc: Global,
        held: &Held,
        event: &Event,
        at: Moment,
    ) -> Result<Prepared, OutOfMemory>
        requires moment { IsMoment at.0 }
        requires legal { IsLegal self.old.setup self.old.state at event.now }
        requires named { AreHeld held.now (named self.old.setup self.old.state event.now) }
        requires balanced { AreBalanced self.old.setup self.old.state held.now }
        ensures setup { self.new.setup ≡ self.old.setup }
        ensures state { self.new.state ≡ self.old.state }
        ensures tables { self.new.tables ≡ self.old.tables }
        ensures made { IfOk result (λ prepared. prepared ≡ record {
          setup = self.old.setup;
          before = self.old.state;
          event = event.now;
          after = state_after self.old.setup self.old.state at event.now;
          reply = answer_to self.old.setup self.old.state at event.now;
        }) }
        ensures room { IfOk result (λ prepared. HasRoom self.new.room self.old.state prepared.after) }
        ensures room_stays { KeepsRoom self.old.room self.new.room }
    {
        let prepared = self.prepare_event(alloc, held, event, at)?;
        self.make_room(prepared)
    }

    /// Makes room for what an event adds.
    pub(super) fn make_room(&mut self, prepared: Prepared) -> Result<Prepared, OutOfMemory>
        requires { prepared.before ≡ self.old.state }
        ensures setup { self.new.setup ≡ self.old.setup }
        ensures state { self.new.state ≡ self.old.state }
        ensures tables { self.new.tables ≡ self.old.tables }
        ensures same { IfOk result (λ made. made ≡ prepared) }
        ensures room { IfOk result (λ made. HasRoom self.new.room self.old.state made.after) }
        ensures room_stays { KeepsRoom self.old.room self.new.room }
    {
        let entries = room_for(prepared.entries().len())?;
        let uids = room_for(prepared.uid_count())?;
        self.ledger.reserve(entries, uids)?;
        Ok(prepared)
    }

    /// What the event makes, with no room for it yet.
    fn prepare_event(
        &self,
        alloc: Global,
        held: &Held,
        event: &Event,
        at: Moment,
    ) -> Result<Prepared, OutOfMemory>
        requires moment { IsMoment at.0 }
        requires legal { IsLegal self.now.setup self.now.state at event.now }
        requires named { AreHeld held.now (named self.now.setup self.now.state event.now) }
        requires balanced { AreBalanced self.now.setup self.now.state held.now }
        ensures { IfOk result (λ prepared. prepared ≡ record {
          setup = self.now.setup;
          before = self.now.state;
          event = event.now;
          after = state_after self.now.setup self.now.state at event.now;
          reply = answer_to self.now.setup self.now.state at event.now;
        }) }
    {
        match event {
            Event::File(user, file) => self.prepare(alloc, held, event, (*user, at), file),
            Event::Post(id) => self.prepare_post(alloc, held, event, *id, at),
            Event::Spawn(id, occurrence) => self.prepare_spawn(
                alloc,
                held,
                event,
                (*id, *occurrence),
                at,
            ),
            Event::Letter(user, subject, body) => {
                self.prepare_letter(alloc, held, event, (*user, at), subject, body)
            }
        }
    }

    /// Takes the step that was prepared, and gives the bytes of its reply. Takes no memory.
    ///
    /// The accounts that the event names are held, and each account that is held is of this book.
    pub fn adopt(&mut self, held: &mut Held, prepared: Prepared) -> Vec<u8>
        requires of { prepared.setup ≡ self.old.setup }
        requires made { prepared.before ≡ self.old.state }
        requires room { HasRoom self.old.room self.old.state prepared.after }
        requires named { AreHeld held.old (named self.old.setup self.old.state prepared.event) }
        requires own { AreOf self.old.tables held.old }
        ensures setup { self.new.setup ≡ self.old.setup }
        ensures state { self.new.state ≡ prepared.after }
        ensures tables { self.new.tables ≡ self.old.tables }
        ensures numbers { HaveSameNumbers held.new held.old }
        ensures own { AreOf self.new.tables held.new }
        ensures balanced { AreBalanced self.new.setup self.new.state held.new }
        ensures reply { result.items ≡ prepared.reply }
    {
        prepared.apply_step(&mut self.ledger, &mut self.sides, held)
    }
}

/// So many items as room is made for. Where they are more than 4,294,967,295 there is no memory for them.
fn room_for(count: usize) -> Result<u32, OutOfMemory>
    ensures { IfOk result (λ room. room ≡ count) }
{
    match u32::try_from(count) {
        Ok(room) => Ok(room),
        Err(_) => Err(OutOfMemory),
    }
}
