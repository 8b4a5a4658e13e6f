//! A bank that has opened from its records, and isn't begun yet.

ghost use Rattle.std.specs.Prelude.{◌≡◌, ℕ, ◌≤◌, ◌⊎◌, [], false, None, IsSome, IsSomeAnd, IfOk, IfErr, IsErrAnd, MatchResult, length};
ghost use Rattle.ofx_ports.specs.Faults.{CountsFaults};
ghost use Rattle.ofx_ports.specs.Known.{Stays};
ghost use Rattle.bank_model.specs.declared.event.State.{State};
ghost use Rattle.bank_model.specs.Rules.{opening_state};
ghost use Rattle.bank_model.specs.SetupForm.{IsWithinLimits};
ghost use Rattle.event_codec.specs.Records.{Reopens};
ghost use Rattle.bank_solo.specs.Solo.{AreAccountsOf};
ghost use Rattle.bank_replay.specs.Opening.{RecordsGive, HasNoForm, IsNotLegal, HasCause};
ghost use Rattle.bank_replay.specs.Replay.{IsOfTheOutside};
ghost use Rattle.bank_callers.specs.Boards.{AreNewest};
ghost use Rattle.bank_shared.specs.Holds.{BeginsAt};

use crate::journal::Journal;
use crate::name::BankName;
use bank_accounts::{Account, AccountRow};
use bank_core::Book;
use bank_model::{Printer, Setup};
use bank_replay::{OpenFault, reopen};
use ofx_ports::Keeper;
use ofx_types::{Duplicate, ObjectId, OutOfMemory};
use std::alloc::Global;
use std::hash::RandomState;
use std::marker::Model;
use std::snapshot::Snapshot;
use token_board::{Board, Pass, Writer};

/// A bank that has opened from its records.
pub struct Opened<K: Keeper, P: Printer> {
    alloc: Global,
    setup: Setup,
    // the keeper as it was at the opening, for contracts alone
    opened: Snapshot<K>,
    keeper: K,
    book: Book<P>,
    printer: P,
    // the row of all accounts, and the board with its writer and its first pass, so that a bank takes no memory when it begins
    row: AccountRow,
    board: Board,
    writer: Writer,
    pass: Pass,
}

impl<K: Keeper, P: Printer> Model for Opened<K, P> {
    ghost use Rattle.std.specs.Prelude.{◌≡◌, [], false};
    ghost use Rattle.bank_model.specs.SetupForm.{IsWithinLimits};
    ghost use Rattle.ofx_ports.specs.Known.{Stays};
    ghost use Rattle.bank_replay.specs.Opening.{RecordsGive};
    ghost use Rattle.bank_shared.specs.Holds.{BeginsAt};
    ghost use Rattle.bank_shared.specs.OpenedView.{OpenedView};

    ghost Value = { OpenedView };

    ghost view = { λ o. record {
      setup = o.setup;
      state = o.book.state;
      opened = K.records o.opened.value;
      records = K.records o.keeper;
      faults = K.faults o.keeper;
      board = o.board;
      tables = o.row.tables;
    } };

    ghost invariant = { λ o. (o.book.setup ≡ o.setup) × IsWithinLimits o.setup × (K.unsettled o.keeper ≡ false)
        × RecordsGive o.setup (K.records o.opened.value) o.book.state × Stays (K.records o.opened.value) (K.records o.keeper)
        × (o.row.tables ≡ o.book.tables) × BeginsAt o.setup o.book.state o.board
        × (o.writer ≡ record { table = o.board.table; log = []; claimed = [] })
        × (o.pass ≡ record { table = o.board.table; seen = []; mine = []; polled = [] }) };
}

impl<K: Keeper, P: Printer> Drop for Opened<K, P> {
    fn drop(self) {
        let Opened {
            alloc: _,
            setup: _,
            opened: _,
            keeper: _,
            book: _,
            printer: _,
            row: _,
            board: _,
            writer: _,
            pass: _,
        } = self;
    }
}

impl<K: Keeper, P: Printer> Opened<K, P> {
    /// Opens the bank of that setup from the records that are kept. Each refusal hands the keeper back.
    /// Clients' names are found by hashes with these keys.
    ///
    /// - `Read` only where the keeper's count of faults rose in this call.
    /// - `Record(n, at)`: record n, from 1, is the first that codes no event, with the offset of its first fault.
    /// - `Illegal(n)`: record n is the first whose event isn't legal after those before it.
    /// - `OutOfMemory`.
    pub fn open(
        alloc: Global,
        keys: RandomState,
        keeper: K,
        setup: Setup,
        printer: P,
    ) -> Result<Opened<K, P>, (OpenFault, K)>
        requires settled { K.unsettled keeper ≡ false }
        requires within { IsWithinLimits setup }
        ensures setup { IfOk result (λ opened. opened.setup ≡ setup) }
        ensures holds { IfOk result (λ opened. RecordsGive setup (K.records keeper) opened.state) }
        ensures cause { IfErr result (λ refused. HasCause setup (K.records keeper) refused.0) }

        // Where the records are known they decide the answer, unless a read fails or memory is refused.
        ensures opens { (state : State) → IsSomeAnd (K.records keeper) (λ all. Reopens setup opening_state all state)
            → MatchResult result (λ opened. opened.state ≡ state) (λ refused. IsOfTheOutside refused.0) }
        ensures formless { (number offset : ℕ) → IsSome (K.records keeper) → HasNoForm setup (K.records keeper) number offset
            → IsErrAnd result (λ refused. (refused.0 ≡ OpenFault.Record number offset) ⊎ IsOfTheOutside refused.0) }
        ensures illegal { (number : ℕ) → IsSome (K.records keeper) → IsNotLegal setup (K.records keeper) number
            → IsErrAnd result (λ refused. (refused.0 ≡ OpenFault.Illegal number) ⊎ IsOfTheOutside refused.0) }

        ensures opened { IfOk result (λ opened. opened.opened ≡ K.records keeper) }
        ensures list { IfOk result (λ opened. Stays (K.records keeper) opened.records) }
        ensures handed_back { IfErr result (λ refused. Stays (K.records keeper) (K.records refused.1)) }
        ensures settled { IfErr result (λ refused. K.unsettled refused.1 ≡ false) }
        ensures faults { IfOk result (λ opened. K.faults keeper ≤ opened.faults) }
        ensures failed { IfErr result (λ refused. CountsFaults (K.faults keeper) (K.faults refused.1) (refused.0 ≡ OpenFault.Read)) }
    {
        let opened = Snapshot::of(&keeper);
        let mut keeper = keeper;
        let Ok(own) = setup.copy() else {
            return Err((OpenFault::OutOfMemory, keeper));
        };
        match reopen(alloc, keys, &mut keeper, setup, printer) {
            Err(fault) => Err((fault, keeper)),
            Ok((book, accounts)) => match made_ready(alloc, &own, &book, accounts) {
                Err(OutOfMemory) => Err((OpenFault::OutOfMemory, keeper)),
                Ok((row, (board, writer, pass))) => Ok(Opened {
                    alloc,
                    setup: own,
                    opened,
                    keeper,
                    book,
                    printer,
                    row,
                    board,
                    writer,
                    pass,
                }),
            },
        }
    }

    /// From now on a new file whose reply is longer than so many bytes is refused as for want of memory: nothing of it happens. At
    /// first any length will do.
    pub fn bound_replies(&mut self, most: usize)
        ensures { self.new ≡ self.old }
    {
        self.book.bound_replies(most);
    }

    /// What the bank that `N` names is made of, and its first pass. Takes no memory.
    pub(crate) fn into_parts<N: BankName>(self) -> (Parts<N, K, P>, Pass)
        requires setup { self.setup ≡ N.setup }
        requires opening { self.state ≡ N.opening }
        requires first { self.opened ≡ N.first }
        requires board { self.board ≡ N.board }
        requires tables { self.tables ≡ N.tables }
        ensures setup { result.0.setup ≡ N.setup }
        ensures board { result.0.board ≡ N.board }
        ensures row { result.0.row.tables ≡ N.tables }
        ensures count { length N.tables ≡ length N.setup.accounts }
        ensures of { result.0.journal.setup ≡ N.setup }
        ensures state { result.0.journal.state ≡ N.opening }
        ensures log { result.0.journal.log ≡ [] }
        ensures pending { result.0.journal.pending ≡ None }
        ensures records { result.0.journal.records ≡ self.records }
        ensures holds { RecordsGive N.setup N.first N.opening }
        ensures within { IsWithinLimits N.setup }
        ensures begins { BeginsAt N.setup N.opening N.board }
        ensures pass { result.1 ≡ record { table = N.board.table; seen = []; mine = []; polled = [] } }
    {
        let Opened {
            alloc,
            setup,
            opened: _,
            keeper,
            book,
            printer,
            row,
            board,
            writer,
            pass,
        } = self;
        // For the proof alone: its contract says that there is a table for each account of the setup.
        let _setup = book.setup();
        let journal = Journal::new(alloc, keeper, book, writer);
        let parts = Parts {
            alloc,
            setup,
            printer,
            board,
            row,
            journal,
        };
        (parts, pass)
    }
}

/// What a bank is made of.
pub struct Parts<N: BankName, K: Keeper, P: Printer> {
    /// For its polls.
    pub alloc: Global,
    /// Its setup.
    pub setup: Setup,
    /// The printer of its polls' replies.
    pub printer: P,
    /// The board of its newest tokens.
    pub board: Board,
    /// All of its accounts.
    pub row: AccountRow,
    /// What is behind its lock.
    pub journal: Journal<N, K, P>,
}

impl<N: BankName, K: Keeper, P: Printer> Parts<N, K, P> {
    /// Its fields, in their order. Takes no memory.
    pub(crate) fn into_fields(self) -> (Global, Setup, P, Board, (AccountRow, Journal<N, K, P>))
        ensures setup { result.1 ≡ self.setup }
        ensures board { result.3 ≡ self.board }
        ensures row { result.4.0 ≡ self.row }
        ensures journal { result.4.1 ≡ self.journal }
    {
        let Parts {
            alloc,
            setup,
            printer,
            board,
            row,
            journal,
        } = self;
        (alloc, setup, printer, board, (row, journal))
    }
}

impl<N: BankName, K: Keeper, P: Printer> Drop for Parts<N, K, P> {
    fn drop(self) {
        let Parts {
            alloc: _,
            setup: _,
            printer: _,
            board: _,
            row: _,
            journal: _,
        } = self;
    }
}

/// The row of all accounts, and the board with its writer and its first pass.
fn made_ready<P: Printer>(
    alloc: Global,
    setup: &Setup,
    book: &Book<P>,
    accounts: Vec<Account>,
) -> Result<(AccountRow, (Board, Writer, Pass)), OutOfMemory>
    requires setup { setup.now ≡ book.now.setup }
    requires accounts { AreAccountsOf book.now.tables accounts.items }
    ensures row { IfOk result (λ made. made.0.tables ≡ book.now.tables) }
    ensures begins { IfOk result (λ made. BeginsAt book.now.setup book.now.state made.1.0) }
    ensures writer { IfOk result (λ made. made.1.1 ≡ record { table = made.1.0.table; log = []; claimed = [] }) }
    ensures pass { IfOk result (λ made. made.1.2 ≡ record { table = made.1.0.table; seen = []; mine = []; polled = [] }) }
{
    let row = AccountRow::new(alloc, accounts)?;
    let start = newest_numbers(alloc, setup, book)?;
    let made = Board::new(alloc, &start)?;
    Ok((row, made))
}

/// The newest number of each object.
fn newest_numbers<P: Printer>(
    alloc: Global,
    setup: &Setup,
    book: &Book<P>,
) -> Result<Vec<u64>, OutOfMemory>
    requires { setup.now ≡ book.now.setup }
    ensures { IfOk result (λ numbers. AreNewest book.now.setup book.now.state numbers.items) }
{
    // For the proof alone: its contract says that the setup is within its limits.
    let _setup = book.setup();
    let count = 3 * setup.accounts.items().len() + setup.users.items().len();
    let mut numbers = Vec::with_capacity(alloc, count)?;
    for object in 0..count {
        numbers.push(book.newest(ObjectId(object as u32)))?;
    }
    Ok(numbers)
}
