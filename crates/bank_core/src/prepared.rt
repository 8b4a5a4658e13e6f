//! An event that is answered, before the book takes its step.

ghost use Rattle.std.specs.Prelude.{◌≡◌, ◌+◌, ◌++◌, [], length};
ghost use Rattle.bank_model.specs.Rules.{named};
ghost use Rattle.bank_model.specs.SetupForm.{IsWithinLimits};
ghost use Rattle.bank_accounts.specs.HeldAccounts.{AreHeld, HaveSameNumbers};
ghost use Rattle.bank_accounts.specs.Sides.{tables_in, AreOf};
ghost use Rattle.bank_invariants.specs.SoundStates.{IsSoundState};
ghost use Rattle.bank_ledger.specs.Balanced.{AreBalanced};
ghost use Rattle.bank_core.specs.BookSides.{AreSidesOf};
ghost use Rattle.bank_core.specs.BookView.{HasRoom};
ghost use Rattle.bank_core.specs.Preparing.{prepared_after, IsPrepared};

use bank_accounts::{BookSides, Held};
use bank_invariants::laws::money::unnamed_accounts_stay;
use bank_ledger::{Additions, Ledger};
use bank_model::{Entry, Event, Setup};
use ofx_types::FileUid;
use std::alloc::Global;
use std::marker::Model;
use std::snapshot::Snapshot;

/// The bytes of a reply: those that are kept for the file, and those that are handed out.
#[derive(Drop)]
pub(crate) struct ReplyBytes {
    /// What is kept where the file has a name.
    pub(crate) kept: Vec<u8>,
    /// What is handed out.
    pub(crate) reported: Vec<u8>,
}

/// What an event answers and what it adds to the state of a book, not taken yet.
pub struct Prepared {
    setup: Snapshot<Setup>,
    before: Snapshot<Ledger>,
    event: Snapshot<Event>,
    added: Additions,
    older: Option<FileUid>,
    newer: Option<FileUid>,
    kept: Vec<u8>,
    reported: Vec<u8>,
}

impl Model for Prepared {
    ghost use Rattle.bank_core.specs.BookView.{PreparedView};
    ghost use Rattle.bank_core.specs.Preparing.{prepared_after, IsPrepared};

    ghost Value = { PreparedView };

    ghost view = { λ p. record {
      setup = p.setup.value;
      before = p.before.value.state;
      event = p.event.value;
      after = prepared_after p.before.value.state p.added p.older p.newer p.kept.items;
      reply = p.reported.items;
    } };

    ghost invariant = { λ p. IsPrepared p.setup.value p.before.value.state p.event.value p.added p.older p.newer p.kept.items };
}

impl Drop for Prepared {
    fn drop(self) {
        let Prepared {
            setup: _,
            before: _,
            event: _,
            added: _,
            older: _,
            newer: _,
            kept: _,
            reported: _,
        } = self;
    }
}

impl ReplyBytes {
    /// No reply. Takes no memory.
    pub(crate) fn none(alloc: Global) -> ReplyBytes
        ensures kept { result.kept.items ≡ [] }
        ensures reported { result.reported.items ≡ [] }
    {
        ReplyBytes {
            kept: Vec::new(alloc),
            reported: Vec::new(alloc),
        }
    }
}

impl Prepared {
    /// What an event adds to a book, with the names of the file before whose reply was received and of this file.
    pub(crate) fn new(
        setup: &Setup,
        before: &Ledger,
        event: &Event,
        added: Additions,
        older: Option<FileUid>,
        newer: Option<FileUid>,
        reply: ReplyBytes,
    ) -> Prepared
        requires { IsPrepared setup.now before.now.state event.now added older newer reply.kept.items }
        ensures { result ≡ record {
          setup = setup.now;
          before = before.now.state;
          event = event.now;
          after = prepared_after before.now.state added older newer reply.kept.items;
          reply = reply.reported.items;
        } }
    {
        Prepared {
            setup: Snapshot::of(setup),
            before: Snapshot::of(before),
            event: Snapshot::of(event),
            added,
            older,
            newer,
            kept: reply.kept,
            reported: reply.reported,
        }
    }

    /// The bytes of the reply. Takes no memory.
    pub fn reply(&self) -> &[u8]
        ensures { result.now ≡ self.now.reply }
    {
        self.reported.as_slice()
    }

    /// The entries that the event adds. Takes no memory.
    pub fn entries(&self) -> &[Entry]
        ensures { self.now.after.entries ≡ self.now.before.entries ++ result.now }
    {
        self.added.entries()
    }

    /// How many uids the event uses up.
    pub(crate) fn uid_count(&self) -> usize
        ensures { length self.now.after.used ≡ length self.now.before.used + result }
    {
        self.added.uid_count()
    }

    /// Takes the step: the ledger takes in what is added, and the accounts have their new balances, at both of their
    /// sides. Gives the bytes of the reply. Takes no memory.
    pub(crate) fn apply_step(
        self,
        ledger: &mut Ledger,
        sides: &mut BookSides,
        held: &mut Held,
    ) -> Vec<u8>
        requires within { IsWithinLimits self.setup }
        requires made { self.before ≡ ledger.old.state }
        requires room { HasRoom ledger.old.room self.before self.after }
        requires sides { AreSidesOf self.setup self.before sides.old }
        requires named { AreHeld held.old (named self.setup self.before self.event) }
        requires own { AreOf (tables_in sides.old) held.old }
        ensures window { ledger.new.window ≡ ledger.old.window }
        ensures state { ledger.new.state ≡ self.after }
        ensures sound { IsSoundState self.setup self.after }
        ensures sides { AreSidesOf self.setup self.after sides.new }
        ensures tables { tables_in sides.new ≡ tables_in sides.old }
        ensures numbers { HaveSameNumbers held.new held.old }
        ensures own { AreOf (tables_in sides.new) held.new }
        ensures balanced { AreBalanced self.setup self.after held.new }
        ensures reply { result.items ≡ self.reply }
    {
        unnamed_accounts_stay();
        sides.meet(held);
        sides.set_balances(held, self.added.balances());
        let user = self.added.user();
        let Prepared {
            setup: _,
            before: _,
            event: _,
            added,
            older,
            newer,
            kept,
            reported,
        } = self;
        ledger.take(added);
        ledger.release(user, &older);
        ledger.keep(user, newer, kept);
        reported
    }
}
