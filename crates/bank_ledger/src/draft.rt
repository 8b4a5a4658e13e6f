//! A draft of what an event makes of a bank, before the book takes it in.

mod entering;
mod naming;

ghost use Rattle.std.specs.Prelude.{◌≡◌, ◌≤◌, ◌∷◌, ◌++◌, [], Some, false, length, IfOk, OnOk};
ghost use Rattle.std.specs.Option.{option_copied};
ghost use Rattle.ofx_types.specs.Calendar.{IsMoment, IsDay};
ghost use Rattle.bank_model.specs.SetupForm.{IsWithinLimits};
ghost use Rattle.bank_model.specs.Ledger.{row_of, moved, lines_of, balance};
ghost use Rattle.bank_model.specs.Models.{model_of, is_model_dropped};
ghost use Rattle.bank_model.specs.Once.{is_used};
ghost use Rattle.bank_accounts.specs.HeldAccounts.{IsHeld, balance_held};
ghost use Rattle.bank_invariants.specs.SoundStates.{IsSoundState};
ghost use Rattle.bank_ledger.specs.Balanced.{AreBalanced};
ghost use Rattle.bank_ledger.specs.DraftView.{drafted, with_uid, IsAdded, AreGiven};

use crate::additions::Additions;
use crate::ledger::Ledger;
use bank_accounts::Held;
use bank_model::{Entry, Setup};
pub use naming::own_uid;
use ofx_types::{
    AcctId, AcctName, Cents, Day, Lines, ModelRow, Moment, OutOfMemory, TransferRow, TrnUid, UserId,
};
use std::alloc::Global;
use std::marker::Model;

/// What an event makes of a bank: its setup, its ledger and the accounts that are held, lent, and what is added.
///
/// The state that it makes is sound at any time.
///
/// ```rust
/// use bank_accounts::Held;
/// use bank_ledger::{Draft, Ledger};
/// use bank_model::Setup;
/// use ofx_types::{Day, Moment, TrnUid, UserId};
/// use std::hash::RandomState;
///
/// let alloc = rt.alloc();
/// let bytes = b"OFXBANK 1\nBANK 1\nLEAD 5\nWINDOW 3\nENTRIES 99\n\
///     USER alice secret\nACCT 1001 CHECKING 0 alice\n";
/// let setup = Setup::read(alloc, bytes).expect(&rt, "a setup");
/// let keys = RandomState::new(&rt).expect(&rt, "keys");
/// let mut ledger = Ledger::new(alloc, keys, setup.window);
/// let (held, noon, today) = (Held::new(alloc), Moment(1_706_702_400), Day(19_753));
/// let mut draft = Draft::new(alloc, &setup, &ledger, &held, UserId(0), noon, today);
/// let uid = TrnUid::new(b"t1").expect(&rt, "a uid");
/// assert!(rt; !draft.is_used(&uid));
/// draft.use_up(uid).expect(&rt, "room");
/// // What was added is taken in where there is room for it.
/// let added = draft.finish();
/// assert!(rt; added.uid_count() == 1 && added.entries().is_empty());
/// ledger.reserve(0, 1).expect(&rt, "room");
/// ledger.take(added);
/// let uid = TrnUid::new(b"t1").expect(&rt, "a uid");
/// assert!(rt; ledger.is_used(UserId(0), &uid));
/// ```
pub struct Draft<'b> {
    setup: &'b Setup,
    ledger: &'b Ledger,
    held: &'b Held,
    added: Additions,
}

impl<'b> Model for Draft<'b> {
    ghost use Rattle.std.specs.Prelude.{◌≡◌};
    ghost use Rattle.bank_ledger.specs.DraftView.{DraftView, IsDraft};

    ghost Value = { DraftView };

    ghost view = { λ d. record {
      setup = d.setup.now;
      before = d.ledger.now.state;
      held = d.held.now;
      user = d.added.user;
      at = d.added.at;
      day = d.added.day;
      entries = d.added.entries;
      uids = d.added.uids;
    } };

    ghost invariant = { λ d. IsDraft d.setup.now d.ledger.now.state d.held.now d.added
        × (d.ledger.now.window ≡ d.setup.now.window) };
}

impl Drop for Draft<'_> {
    fn drop(self) {
        let Draft {
            setup: _,
            ledger: _,
            held: _,
            added: _,
        } = self;
    }
}

impl<'b> Draft<'b> {
    /// A draft in which nothing is added yet. Takes no memory.
    pub fn new(
        alloc: Global,
        setup: &'b Setup,
        ledger: &'b Ledger,
        held: &'b Held,
        user: UserId,
        at: Moment,
        day: Day,
    ) -> Draft<'b>
        requires within { IsWithinLimits setup.now }
        requires sound { IsSoundState setup.now ledger.now.state }
        requires balanced { AreBalanced setup.now ledger.now.state held.now }
        requires window { ledger.now.window ≡ setup.now.window }
        requires moment { IsMoment at.0 }
        requires day { IsDay day.0 }
        ensures { result ≡ record {
          setup = setup.now;
          before = ledger.now.state;
          held = held.now;
          user = user;
          at = at;
          day = day;
          entries = [];
          uids = [];
        } }
    {
        Draft {
            setup,
            ledger,
            held,
            added: Additions::new(alloc, user, at, day),
        }
    }

    /// The setup of the bank, lent.
    pub fn setup(&self) -> &'b Setup
        ensures setup { result.now ≡ self.now.setup }
        ensures lent { IsWithinLimits result.now }
        ensures within { IsWithinLimits self.now.setup }
        ensures sound { IsSoundState self.now.setup (drafted self.now) }
        ensures moment { IsMoment self.now.at.0 }
    {
        self.setup
    }

    /// What the bank had written down before the event, lent.
    pub fn ledger(&self) -> &'b Ledger
        ensures state { result.now.state ≡ self.now.before }
        ensures window { result.now.window ≡ self.now.setup.window }
        ensures sound { IsSoundState self.now.setup (drafted self.now) }
    {
        self.ledger
    }

    /// The user whose event it is, who uses up the uids.
    pub fn user(&self) -> UserId
        ensures { result ≡ self.now.user }
    {
        self.added.user()
    }

    /// The moment of the event.
    pub fn at(&self) -> Moment
        ensures value { result ≡ self.now.at }
        ensures known { IsMoment self.now.at.0 }
    {
        self.added.at()
    }

    /// The business day.
    pub fn day(&self) -> Day
        ensures value { result ≡ self.now.day }
        ensures known { IsDay self.now.day.0 }
    {
        self.added.day()
    }

    /// The entries that are added, lent.
    pub fn entries(&self) -> &[Entry]
        ensures { result.now ≡ self.now.entries }
    {
        self.added.entries()
    }

    /// How many entries there are, with those that are added.
    pub fn count(&self) -> u64
        ensures count { result ≡ length (drafted self.now).entries }
        ensures within { IsWithinLimits self.now.setup }
        ensures sound { IsSoundState self.now.setup (drafted self.now) }
        ensures moment { IsMoment self.now.at.0 }
    {
        self.ledger.count() + self.added.entries().len() as u64
    }

    /// Whether the user has used up the uid, before this event or in it.
    pub fn is_used(&self, trnuid: &TrnUid) -> bool
        ensures { result ≡ is_used self.now.user trnuid.now (drafted self.now).used }
    {
        self.added.is_used(self.ledger, trnuid)
    }

    /// The row of the transfer with this id, lent.
    pub fn row(&self, id: u64) -> Option<&TransferRow>
        ensures { option_copied result ≡ row_of id (drafted self.now).entries }
    {
        self.added.row(self.ledger, id)
    }

    /// The row of the recurring transfer with this id, lent.
    pub fn model(&self, id: u64) -> Option<&ModelRow>
        ensures { option_copied result ≡ model_of id (drafted self.now).entries }
    {
        self.added.model(self.ledger, id)
    }

    /// Whether the recurring transfer with this id is cancelled.
    pub fn is_cancelled(&self, id: u64) -> bool
        ensures { result ≡ is_model_dropped id (drafted self.now).entries }
    {
        self.added.is_cancelled(self.ledger, id)
    }

    /// The balance of an account that is held.
    pub fn held_balance(&self, account: AcctId) -> Cents
        requires { IsHeld self.now.held account }
        ensures { result.0 ≡ balance self.now.setup (drafted self.now).entries account }
    {
        match self.added.balance(account) {
            Some(amount) => amount,
            None => balance_before(self.held, account),
        }
    }

    /// What a statement of the account tells of a period.
    pub fn lines(
        &self,
        alloc: Global,
        name: &AcctName,
        period: (Moment, Option<Moment>),
    ) -> Result<Lines, OutOfMemory>
        ensures { IfOk result (λ lines.
            lines ≡ lines_of name.now period.0 period.1 (moved (drafted self.now).entries)) }
    {
        self.added.lines(alloc, self.ledger, name, period)
    }

    /// Uses up a uid that the user hasn't used.
    pub fn use_up(&mut self, trnuid: TrnUid) -> Result<(), OutOfMemory>
        requires { is_used self.old.user trnuid (drafted self.old).used ≡ false }
        ensures { OnOk result (self.new ≡ with_uid self.old trnuid) }
    {
        self.added.use_up(trnuid)?;
        Ok(())
    }

    /// What is added.
    pub fn finish(self) -> Additions
        ensures user { result.user ≡ self.entry.user }
        ensures day { result.day ≡ self.entry.day }
        ensures entries { result.entries ≡ self.entry.entries }
        ensures uids { result.uids ≡ self.entry.uids }
        ensures rows { IsAdded self.entry.before result }
        ensures balances { AreGiven self.entry.setup self.entry.before result }
    {
        let Draft {
            setup: _,
            ledger: _,
            held: _,
            added,
        } = self;
        added
    }
}

/// The balance of an account that is held, before the event.
fn balance_before(held: &Held, account: AcctId) -> Cents
    requires { IsHeld held.now account }
    ensures { balance_held held.now account ≡ Some result }
{
    match held.balance(account) {
        Some(amount) => amount,
        None => unreachable!(),
    }
}
