//! What a journal does at the bank's board: its engine publishes the log there.

ghost use Rattle.std.specs.Prelude.{◌≡◌, List, [], ◌∷◌, ◌++◌, false, None, IfOk, IfErr, OnErr, is_some};
ghost use Rattle.std.specs.Option.{IfSome};
ghost use Rattle.ofx_types.specs.Calendar.{IsMoment};
ghost use Rattle.bank_model.specs.declared.log.LogItem.{LogItem};
ghost use Rattle.bank_model.specs.Rules.{IsLegal, named};
ghost use Rattle.bank_accounts.specs.HeldAccounts.{AreHeld, HaveSameNumbers};
ghost use Rattle.bank_accounts.specs.Sides.{AreOf};
ghost use Rattle.bank_ledger.specs.Balanced.{AreBalanced};
ghost use Rattle.bank_engine.specs.Calls.{Answers, FailsToCommit, Settles, FailsToSettle};
ghost use Rattle.bank_engine.specs.Steps.{Expects};
ghost use Rattle.bank_engine.specs.Views.{journal_of};
ghost use Rattle.token_board.specs.Publishing.{MayPublish, HasPublished};
ghost use Rattle.token_board.specs.Views.{item_of};

use bank_accounts::Held;
use bank_engine::{Engine, Publisher};
use bank_model::{Ending, Entry, Event, Printer, SubmitFault};
use ofx_ports::Keeper;
use ofx_types::{Duplicate, Moment};
use std::alloc::Global;
use token_board::laws::endings_are_claimed;
use token_board::{Board, Writer};

/// The writer of a board, borrowed for one hold of a journal.
#[derive(Drop)]
struct BoardLog<'a> {
    board: &'a Board,
    writer: &'a mut Writer,
}

impl<'a> BoardLog<'a> {
    /// Publishes an ending.
    fn end(&mut self, ending: &Ending<'_>)
        requires { MayPublish self.old.board.now self.old.writer.now [] }
        ensures log { self.new.writer.now.log ≡ self.old.writer.now.log ++ item_of ending.now ∷ [] }
        ensures through { self.new.writer.ghost_name ≡ self.old.writer.ghost_name }
        ensures target { self.new.board.now ≡ self.old.board.now }
        ensures since { (before : List LogItem) → HasPublished self.old.board.now self.old.writer.now before
            → HasPublished self.new.board.now self.new.writer.now before }
    {
        endings_are_claimed();
        self.writer.publish_answer(self.board, ending);
    }
}

impl<'a> Publisher for BoardLog<'a> {
    ghost use Rattle.token_board.specs.Publishing.{MayPublish, HasPublished};
    ghost use Rattle.token_board.specs.Views.{BoardView};

    ghost log = { λ l. l.writer.now.log };

    ghost expects = { λ l entries. MayPublish l.board.now l.writer.now entries };

    ghost through = { λ l. l.writer.ghost_name };

    ghost Target = { BoardView };

    ghost target = { λ l. l.board.now };

    ghost since = { λ l before. HasPublished l.board.now l.writer.now before };

    fn next_number(&self) -> u64 {
        self.writer.next_number()
    }

    fn effects(&mut self, entries: &[Entry]) {
        endings_are_claimed();
        for entry in entries {
            self.writer.publish_effect(self.board, entry);
        }
    }

    fn answer(&mut self, event: &Event, at: Moment, reply: &Vec<u8>) {
        self.end(&Ending::Answer(event, at, reply));
    }

    fn adopted(&mut self, fault: u64, event: &Event, at: Moment) {
        self.end(&Ending::Adopted(fault, event, at));
    }

    fn failed(&mut self, count: u64, event: &Event, at: Moment) {
        self.end(&Ending::Fault(count, Some((event, at))));
    }

    fn unsettled(&mut self, count: u64) {
        self.end(&Ending::Fault(count, None));
    }
}

/// Makes an event happen at that moment, and publishes it. The accounts that it names are held, and nothing is pending.
///
/// - `Keeper(n)`: the append failed, and the keeper's count of faults rose to n in this call. The event is pending.
/// - `OutOfMemory`: nothing has happened.
pub(crate) fn commit_at<K: Keeper, P: Printer>(
    alloc: Global,
    engine: &mut Engine<P>,
    keeper: &mut K,
    board: &Board,
    writer: &mut Writer,
    held: &mut Held,
    event: &Event,
    at: Moment,
) -> Result<Vec<u8>, SubmitFault>
    requires moment { IsMoment at.0 }
    requires legal { IsLegal engine.old.setup engine.old.state at event.now }
    requires settled { engine.old.pending ≡ None }
    requires unsettled { K.unsettled keeper.old ≡ false }
    requires named { AreHeld held.old (named engine.old.setup engine.old.state event.now) }
    requires own { AreOf engine.old.tables held.old }
    requires expected { Expects (MayPublish board.now writer.old) engine.old.setup engine.old.state at event.now }
    requires free { MayPublish board.now writer.old [] }
    ensures answers { IfOk result (λ reply. Answers
        (journal_of engine.old (record { records = K.records keeper.old; landed = K.landed keeper.old; unsettled = K.unsettled keeper.old; faults = K.faults keeper.old }) writer.old.log)
        (journal_of engine.new (record { records = K.records keeper.new; landed = K.landed keeper.new; unsettled = K.unsettled keeper.new; faults = K.faults keeper.new }) writer.new.log)
        event.now at reply.items) }
    ensures fails { IfErr result (FailsToCommit
        (journal_of engine.old (record { records = K.records keeper.old; landed = K.landed keeper.old; unsettled = K.unsettled keeper.old; faults = K.faults keeper.old }) writer.old.log)
        (journal_of engine.new (record { records = K.records keeper.new; landed = K.landed keeper.new; unsettled = K.unsettled keeper.new; faults = K.faults keeper.new }) writer.new.log)
        event.now at) }
    ensures published { HasPublished board.now writer.new writer.old.log }
    ensures tables { engine.new.tables ≡ engine.old.tables }
    ensures numbers { HaveSameNumbers held.new held.old }
    ensures own { AreOf engine.new.tables held.new }
    ensures met { AreBalanced engine.old.setup engine.old.state held.old }
    ensures balanced { AreBalanced engine.new.setup engine.new.state held.new }
    ensures accounts { OnErr result (held.new ≡ held.old) }
{
    let Ok(event) = event.copy() else {
        engine.meet(held);
        return Err(SubmitFault::OutOfMemory);
    };
    let ready = engine.prepare(alloc, held, event, at)?;
    let mut log = BoardLog { board, writer };
    engine.commit(keeper, &mut log, held, ready)
}

/// Settles whether the record of the pending event is stored, and publishes the event where it is. Answers whether it is adopted.
///
/// - `Keeper(n)`: the keeper's count of faults rose to n in this call. The event is still pending.
pub(crate) fn settle_at<K: Keeper, P: Printer>(
    engine: &mut Engine<P>,
    keeper: &mut K,
    board: &Board,
    writer: &mut Writer,
    held: &mut Held,
) -> Result<bool, SubmitFault>
    requires unsettled { K.unsettled keeper.old ≡ is_some engine.old.pending }
    requires named { IfSome engine.old.pending (λ pending. AreHeld held.old (named engine.old.setup engine.old.state pending.event)) }
    requires own { AreOf engine.old.tables held.old }
    requires expected { IfSome engine.old.pending (λ pending. Expects (MayPublish board.now writer.old) engine.old.setup engine.old.state pending.at pending.event) }
    requires free { MayPublish board.now writer.old [] }
    ensures settled { IfOk result (Settles
        (journal_of engine.old (record { records = K.records keeper.old; landed = K.landed keeper.old; unsettled = K.unsettled keeper.old; faults = K.faults keeper.old }) writer.old.log)
        (journal_of engine.new (record { records = K.records keeper.new; landed = K.landed keeper.new; unsettled = K.unsettled keeper.new; faults = K.faults keeper.new }) writer.new.log)) }
    ensures fails { IfErr result (FailsToSettle
        (journal_of engine.old (record { records = K.records keeper.old; landed = K.landed keeper.old; unsettled = K.unsettled keeper.old; faults = K.faults keeper.old }) writer.old.log)
        (journal_of engine.new (record { records = K.records keeper.new; landed = K.landed keeper.new; unsettled = K.unsettled keeper.new; faults = K.faults keeper.new }) writer.new.log)) }
    ensures published { HasPublished board.now writer.new writer.old.log }
    ensures tables { engine.new.tables ≡ engine.old.tables }
    ensures numbers { HaveSameNumbers held.new held.old }
    ensures own { AreOf engine.new.tables held.new }
    ensures met { AreBalanced engine.old.setup engine.old.state held.old }
    ensures balanced { AreBalanced engine.new.setup engine.new.state held.new }
{
    let mut log = BoardLog { board, writer };
    engine.settle(keeper, &mut log, held)
}
