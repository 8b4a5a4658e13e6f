//! A bank that many callers share: the row of its accounts, its journal behind a lock, and the board of its newest tokens.

ghost use Rattle.std.specs.Prelude.{◌≡◌, ◌<◌, ◌++◌, [], true, false, Option, Some, length, IfOk, OnErr};
ghost use Rattle.std.specs.Option.{option_map, option_to_list};
ghost use Rattle.ofx_types.specs.Calendar.{IsMoment};
ghost use Rattle.bank_model.specs.Polls as polls;
ghost use Rattle.bank_model.specs.SetupForm.{IsWithinLimits};
ghost use Rattle.token_board.specs.declared.view.Load.{Load};
ghost use Rattle.bank_callers.specs.Callers.{IsRightView, IsLooked, HasLoaded, HasPolled};
ghost use Rattle.bank_callers.specs.Polled.{object_asked};
ghost use Rattle.bank_shared.specs.Asking.{HasAsked};
ghost use Rattle.bank_shared.specs.Holds.{HasOpened, BeginsAt, IsPassOf, caller_of};

use crate::journal::Journal;
use crate::name::BankName;
use crate::opened::Opened;
use bank_accounts::AccountRow;
use bank_callers::laws::tokens_are_the_banks;
use bank_callers::{add_answer, poll_reply};
use bank_invariants::laws::states::{books_are_right, every_state_is_sound};
use bank_model::{Printer, Setup};
use ofx_ports::Keeper;
use ofx_types::{Ask, AskReplies, Moment, OutOfMemory, RequestFile, Sequence, UserId};
use std::alloc::Global;
use std::marker::Model;
use std::sync::Mutex;
use token_board::{Board, Pass};

/// The bank that `N` names. A file takes the accounts that it names from the row, and then takes its turn at the journal; so does a
/// transfer that is due. Files that have no account in common wait for each other at the journal alone. Polls are answered from the
/// board of newest tokens, and wait for nobody.
///
/// ```rust
/// use bank_model::Setup;
/// use bank_shared::{Advance, Bank, Opened};
/// use ofx_file::OfxPrinter;
/// use ofx_ports::{MemKeeper, OpenGate};
/// use ofx_types::Moment;
/// use std::hash::RandomState;
/// use std::marker::Brand;
///
/// let alloc = rt.alloc();
/// let bytes = b"OFXBANK 1\nBANK 1\nLEAD 5\nWINDOW 3\nENTRIES 99\n\
///     USER alice secret\nACCT 1001 CHECKING 0 alice\n";
/// let setup = Setup::read(alloc, bytes).expect(&rt, "a setup");
/// let keys = RandomState::new(&rt).expect(&rt, "keys");
/// let Ok(opened) = Opened::open(alloc, keys, MemKeeper::new(alloc), setup, OfxPrinter) else {
///     panic!(rt; "a bank");
/// };
/// // In code that is proved this is in a function generic in the bank's name, which is called at `Brand`.
/// let (bank, mut pass) = Bank::<Brand, _, _>::begin(opened);
/// let Ok(Advance::Nothing) = bank.advance(&rt, &mut pass, Moment(1_706_702_400), &OpenGate) else {
///     panic!(rt; "nothing is due");
/// };
/// ```
pub struct Bank<N: BankName, K: Keeper, P: Printer> {
    pub(crate) alloc: Global,
    pub(crate) setup: Setup,
    printer: P,
    pub(crate) board: Board,
    pub(crate) row: AccountRow,
    pub(crate) journal: Mutex<Journal<N, K, P>>,
}

impl<N: BankName, K: Keeper, P: Printer> Model for Bank<N, K, P> {
    ghost use Rattle.std.specs.Prelude.{◌≡◌, length};
    ghost use Rattle.bank_model.specs.SetupForm.{IsWithinLimits};
    ghost use Rattle.bank_model.specs.declared.setup.Setup.{Setup};
    ghost use Rattle.bank_shared.specs.Holds.{HasOpened, BeginsAt};

    ghost Value = { Setup };

    ghost view = { λ b. b.setup };

    ghost invariant = { λ b. (b.setup ≡ N.setup) × (b.board ≡ N.board) × IsWithinLimits N.setup
        × HasOpened N.setup N.opening × BeginsAt N.setup N.opening N.board × (b.row.tables ≡ N.tables)
        × (length N.tables ≡ length N.setup.accounts) };
}

impl<N: BankName, K: Keeper, P: Printer> Drop for Bank<N, K, P> {
    fn drop(self) {
        let Bank {
            alloc: _,
            setup: _,
            printer: _,
            board: _,
            row: _,
            journal: _,
        } = self;
    }
}

impl<N: BankName, K: Keeper, P: Printer> Bank<N, K, P> {
    /// Begins the bank that has opened, and gives its first caller's pass, which has seen nothing. Takes no memory.
    pub fn begin(opened: Opened<K, P>) -> (Bank<N, K, P>, Pass)
        requires setup { opened.setup ≡ N.setup }
        requires opening { opened.state ≡ N.opening }
        requires first { opened.opened ≡ N.first }
        requires board { opened.board ≡ N.board }
        requires tables { opened.tables ≡ N.tables }
        ensures fresh { result.1 ≡ record { table = N.board.table; seen = []; mine = []; polled = [] } }
        ensures pass { IsPassOf N.setup N.opening N.board result.1 }
    {
        let (parts, pass) = opened.into_parts();
        let (alloc, setup, printer, board, (row, journal)) = parts.into_fields();
        let bank = Bank {
            alloc,
            setup,
            printer,
            board,
            row,
            journal: Mutex::new(journal),
        };
        (bank, pass)
    }

    /// One more caller's pass, which has seen and loaded what this one has. Takes no memory.
    pub fn door(&self, pass: &mut Pass) -> Pass
        requires pass { IsPassOf N.setup N.opening N.board pass.old }
        ensures same { pass.new ≡ pass.old }
        ensures child { result ≡ record pass.old { mine = [] } }
        ensures door { IsPassOf N.setup N.opening N.board result }
    {
        pass.split(&self.board)
    }

    /// The setup, lent. Takes no memory.
    pub fn setup(&self) -> &Setup
        ensures setup { result.now ≡ N.setup }
        ensures within { IsWithinLimits N.setup }
    {
        &self.setup
    }

    /// What a pass knows of the bank is right. It does nothing: proofs call it for what it says.
    pub fn known(&self, pass: &Pass)
        requires pass { IsPassOf N.setup N.opening N.board pass.now }
        ensures { IsRightView N.setup (caller_of N.opening pass.now) }
    {
        every_state_is_sound();
        books_are_right();
        let _ = &self.setup;
        let _ = pass;
    }

    /// Answers a poll file of a user by one load for each object, in the order of its asks. It waits for nobody.
    ///
    /// No token is older than the newest one of its object in what the pass has seen.
    pub fn poll(
        &self,
        pass: &mut Pass,
        user: UserId,
        file: &RequestFile,
        at: Moment,
    ) -> Result<Vec<u8>, OutOfMemory>
        requires pass { IsPassOf N.setup N.opening N.board pass.old }
        requires moment { IsMoment at.0 }
        requires known { user.0 < length N.setup.users }
        requires poll { polls.is_poll file.now ≡ true }
        ensures answered { IfOk result (λ reply. IsLooked N.setup user file.now at reply.items
            (Some (caller_of N.opening pass.old)) (Some (caller_of N.opening pass.new))) }
        ensures refused { OnErr result (HasLoaded (caller_of N.opening pass.old) (caller_of N.opening pass.new)) }
        ensures pass { IsPassOf N.setup N.opening N.board pass.new }
    {
        let replies = self.poll_answers(pass, user, file.asks.items())?;
        poll_reply(self.alloc, &self.printer, at, file, replies)
    }

    /// The answers to the asks of a poll.
    fn poll_answers(
        &self,
        pass: &mut Pass,
        user: UserId,
        asks: &[Ask],
    ) -> Result<AskReplies, OutOfMemory>
        requires pass { IsPassOf N.setup N.opening N.board pass.old }
        requires known { user.0 < length N.setup.users }
        ensures answers { IfOk result (λ replies. HasAsked N.setup user asks.now replies (caller_of N.opening pass.old) (caller_of N.opening pass.new)) }
        ensures refused { OnErr result (HasLoaded (caller_of N.opening pass.old) (caller_of N.opening pass.new)) }
        ensures pass { IsPassOf N.setup N.opening N.board pass.new }
    {
        let mut replies = Vec::with_capacity(self.alloc, asks.len())?;
        for ask in asks {
            let token = self.token_asked(pass, user, ask);
            add_answer(self.alloc, &mut replies, ask, token)?;
        }
        Ok(Sequence::from_vec(replies))
    }

    /// Loads the newest token of the object that an ask asks about. None where the account isn't the user's. Takes no memory.
    fn token_asked(&self, pass: &mut Pass, user: UserId, ask: &Ask) -> Option<u64>
        requires pass { IsPassOf N.setup N.opening N.board pass.old }
        requires known { user.0 < length N.setup.users }
        ensures load { (load : Option Load) × (option_map (λ l. l.object) load ≡ object_asked N.setup user ask.now)
            × (result ≡ option_map (λ l. l.token) load)
            × HasPolled (option_to_list load) (caller_of N.opening pass.old) (caller_of N.opening pass.new) }
        ensures pass { IsPassOf N.setup N.opening N.board pass.new }
    {
        tokens_are_the_banks();
        match ask {
            Ask::Sync(ask) => match self.setup.object(user, &ask.object) {
                Some(object) => Some(self.board.newest(pass, object)),
                None => None,
            },
            Ask::Statement(_, _, _) => None,
            Ask::One(_, _) => None,
        }
    }
}
