//! The asks of a user's file, answered one after another.

ghost use Rattle.std.specs.Prelude.{◌≡◌, ◌<◌, length, IfOk, OnOk};
ghost use Rattle.std.specs.List.{AllByRecursion, flat_map};
ghost use Rattle.bank_model.specs.Rules.{ask_answer, ask_answers, named_by};
ghost use Rattle.bank_model.specs.Sound.{IsSoundAsk};
ghost use Rattle.bank_accounts.specs.HeldAccounts.{AreHeld};
ghost use Rattle.bank_ledger.specs.DraftView.{drafted, IsSameFile};

use crate::reply_bound::ReplyBound;
use crate::sync::sync;
use bank_deeds::answer_deed;
use bank_ledger::Draft;
use bank_queries::statement_of;
use ofx_types::{Ask, AskReplies, AskReply, OutOfMemory, Sequence};
use std::alloc::Global;

/// Answers asks in their order, and adds what they do. Refused where the answers are longer than the bound.
pub(crate) fn answer_asks(
    draft: &mut Draft<'_>,
    alloc: Global,
    asks: &[Ask],
    bound: ReplyBound,
) -> Result<AskReplies, OutOfMemory>
    requires known { draft.old.user.0 < length draft.old.setup.users }
    requires asks { AllByRecursion IsSoundAsk asks.now }
    requires named { AreHeld draft.old.held (flat_map (named_by draft.old.setup) asks.now) }
    ensures replies { IfOk result (λ replies. replies ≡ (ask_answers draft.old.setup (drafted draft.old)
        draft.old.user draft.old.at asks.now).replies) }
    ensures after { OnOk result (drafted draft.new ≡ (ask_answers draft.old.setup
        (drafted draft.old) draft.old.user draft.old.at asks.now).after) }
    ensures file { OnOk result (IsSameFile draft.old draft.new) }
{
    let mut replies = Vec::with_capacity(alloc, asks.len())?;
    let mut left = bound;
    for ask in asks {
        let reply = answer_ask(draft, alloc, ask)?;
        left = left.after(&reply)?;
        replies.push(reply)?;
    }
    Ok(Sequence::from_vec(replies))
}

/// Answers an ask, and adds what it does.
fn answer_ask(draft: &mut Draft<'_>, alloc: Global, ask: &Ask) -> Result<AskReply, OutOfMemory>
    requires known { draft.old.user.0 < length draft.old.setup.users }
    requires ask { IsSoundAsk ask.now }
    requires named { AreHeld draft.old.held (named_by draft.old.setup ask.now) }
    ensures reply { IfOk result (λ reply. reply ≡ (ask_answer draft.old.setup (drafted draft.old)
        draft.old.user draft.old.at ask.now).reply) }
    ensures after { OnOk result (drafted draft.new ≡ (ask_answer draft.old.setup
        (drafted draft.old) draft.old.user draft.old.at ask.now).after) }
    ensures file { OnOk result (IsSameFile draft.old draft.new) }
{
    match ask {
        Ask::Statement(trnuid, name, period) => {
            let reply = statement_of(draft, alloc, trnuid, name, *period)?;
            Ok(reply)
        }
        Ask::One(trnuid, deed) => {
            let reply = answer_deed(draft, alloc, None, trnuid, deed)?;
            Ok(AskReply::One(reply))
        }
        Ask::Sync(ask) => {
            let reply = sync(draft, alloc, ask)?;
            Ok(AskReply::Sync(reply))
        }
    }
}
