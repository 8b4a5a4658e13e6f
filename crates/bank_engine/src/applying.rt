//! Steps that are taken once their records are known to be kept. Nothing here takes memory.

ghost use Rattle.std.specs.Prelude.{◌≡◌, List, ◌++◌};
ghost use Rattle.bank_model.specs.declared.log.LogItem.{LogItem};
ghost use Rattle.bank_model.specs.declared.log.LogItem.TheVariants.{Answer, Adopted};
ghost use Rattle.bank_model.specs.LegalLog.{group};
ghost use Rattle.bank_model.specs.Rules.{named, state_after, answer_to};
ghost use Rattle.bank_accounts.specs.HeldAccounts.{AreHeld, HaveSameNumbers};
ghost use Rattle.bank_accounts.specs.Sides.{AreOf};
ghost use Rattle.bank_ledger.specs.Balanced.{AreBalanced};
ghost use Rattle.bank_engine.specs.Steps.{IsReady, Expects};

use crate::pending::Pending;
use crate::publisher::Publisher;
use crate::ready::Ready;
use bank_accounts::Held;
use bank_core::Book;
use bank_model::Printer;

/// Takes the step of an event whose record was acknowledged: its entries are published, the book is in the state that it leaves,
/// and the accounts that are held have their balances. Then its answer is published. Gives the reply.
pub(crate) fn answer<L: Publisher, P: Printer>(
    book: &mut Book<P>,
    log: &mut L,
    held: &mut Held,
    ready: Ready,
) -> Vec<u8>
    requires ready { IsReady book.old.setup book.old.state book.old.room ready.at ready.event ready.prepared }
    requires named { AreHeld held.old (named book.old.setup book.old.state ready.event) }
    requires own { AreOf book.old.tables held.old }
    requires expected { Expects (L.expects log.old) book.old.setup book.old.state ready.at ready.event }
    ensures setup { book.new.setup ≡ book.old.setup }
    ensures state { book.new.state ≡ state_after book.old.setup book.old.state ready.at ready.event }
    ensures tables { book.new.tables ≡ book.old.tables }
    ensures numbers { HaveSameNumbers held.new held.old }
    ensures own { AreOf book.new.tables held.new }
    ensures balanced { AreBalanced book.new.setup book.new.state held.new }
    ensures log { L.log log.new ≡ L.log log.old ++ group book.old.setup book.old.state (Answer ready.event ready.at result.items) }
    ensures through { L.through log.new ≡ L.through log.old }
    ensures target { L.target log.new ≡ L.target log.old }
    ensures since { (before : List LogItem) → L.since log.old before → L.since log.new before }
    ensures reply { result.items ≡ answer_to book.old.setup book.old.state ready.at ready.event }
{
    let (event, at, prepared) = ready.into_step();
    log.effects(prepared.entries());
    let reply = book.adopt(held, prepared);
    log.answer(&event, at, &reply);
    reply
}

/// Takes the step of an event whose append had failed, and whose record is stored all the same. The event is published as adopted.
pub(crate) fn adopt<L: Publisher, P: Printer>(
    book: &mut Book<P>,
    log: &mut L,
    held: &mut Held,
    pending: Pending,
)
    requires ready { IsReady book.old.setup book.old.state book.old.room pending.at pending.event pending.prepared }
    requires named { AreHeld held.old (named book.old.setup book.old.state pending.event) }
    requires own { AreOf book.old.tables held.old }
    requires expected { Expects (L.expects log.old) book.old.setup book.old.state pending.at pending.event }
    ensures setup { book.new.setup ≡ book.old.setup }
    ensures state { book.new.state ≡ state_after book.old.setup book.old.state pending.at pending.event }
    ensures tables { book.new.tables ≡ book.old.tables }
    ensures numbers { HaveSameNumbers held.new held.old }
    ensures own { AreOf book.new.tables held.new }
    ensures balanced { AreBalanced book.new.setup book.new.state held.new }
    ensures log { L.log log.new ≡ L.log log.old ++ group book.old.setup book.old.state (Adopted pending.number pending.event pending.at) }
    ensures through { L.through log.new ≡ L.through log.old }
    ensures target { L.target log.new ≡ L.target log.old }
    ensures since { (before : List LogItem) → L.since log.old before → L.since log.new before }
{
    let number = pending.number;
    let (event, at, prepared) = pending.into_step();
    log.effects(prepared.entries());
    let _reply = book.adopt(held, prepared);
    log.adopted(number, &event, at);
}
