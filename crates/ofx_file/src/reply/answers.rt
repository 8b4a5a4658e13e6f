//! What a message set answers: its replies in the order of the file.

ghost use Rattle.ofx_types.specs.Nodes.{children};
ghost use Rattle.ofx_types.specs.FormWords.{ReadsForm};
ghost use Rattle.ofx_types.specs.MessageReading as reading;
ghost use Rattle.ofx_types.specs.MessageReading.{ask_reply_of};
ghost use Rattle.ofx_file.specs.MessageSets as sets;

use crate::messages::{MessageSet, is_reply_name, is_transaction_reply};
use msg_bank::read_statement_reply;
use msg_sync::{put_form, read_sync_reply, read_transaction_reply};
use ofx_tree::Cursor;
use ofx_types::{AskReplies, AskReply, TreeFault};
use std::alloc::Global;

/// The answers of a message set, where it is.
pub(crate) fn answers_in(
    alloc: Global,
    set: MessageSet,
    found: Option<Cursor<'_>>,
) -> Result<AskReplies, TreeFault>
    ensures { ReadsForm result (reading.messages_in ask_reply_of (sets.reply_names set) found.entry) }
{
    match found {
        None => Ok(AskReplies::new(alloc)),
        Some(found) => answers_of(alloc, set, &found),
    }
}

/// The answers of a message set.
#[tactic(auto, using(msg_sync::proofs::After::rest, crate::proofs::InSets::all_answers))]
fn answers_of(alloc: Global, set: MessageSet, found: &Cursor<'_>) -> Result<AskReplies, TreeFault>
    ensures { ReadsForm result (reading.messages_of ask_reply_of (sets.reply_names set) (children found.now)) }
{
    let mut answers = AskReplies::new(alloc);
    for child in found.children() {
        put_form(answer_at(alloc, set, &child)?, &mut answers)?;
    }
    Ok(answers)
}

/// The answer that a child of a message set is. Any child that is no reply of the set is skipped.
#[tactic(auto, unfolding(msg_sync::specs::Listing::form_at))]
fn answer_at(
    alloc: Global,
    set: MessageSet,
    child: &Cursor<'_>,
) -> Result<Option<AskReply>, TreeFault>
    ensures { ReadsForm result (sets.answer_at set child.now) }
{
    if is_reply_name(set, child.name()) {
        return Ok(Some(read_answer(alloc, child)?));
    }
    Ok(None)
}

/// The answer that a reply is, by its name: to a statement request (STMTTRNRS), to a deed, or to a synchronisation.
#[tactic(auto, unfolding(ofx_types::specs::MessageReading::ask_reply_of))]
fn read_answer(alloc: Global, reply: &Cursor<'_>) -> Result<AskReply, TreeFault>
    ensures { ReadsForm result (ask_reply_of reply.now) }
{
    if reply.name() == b"STMTTRNRS".as_slice() {
        return read_statement_reply(alloc, reply);
    }
    if is_transaction_reply(reply.name()) {
        return Ok(AskReply::One(read_transaction_reply(alloc, reply)?));
    }
    Ok(AskReply::Sync(read_sync_reply(alloc, reply)?))
}
