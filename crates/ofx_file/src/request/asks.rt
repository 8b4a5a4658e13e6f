//! What a message set asks: its requests in the order of the file.

ghost use Rattle.ofx_types.specs.Nodes.{children};
ghost use Rattle.ofx_types.specs.FormWords.{ReadsForm};
ghost use Rattle.ofx_types.specs.MessageReading as reading;
ghost use Rattle.ofx_types.specs.MessageReading.{ask_of};
ghost use Rattle.ofx_file.specs.MessageSets as sets;

use crate::messages::{MessageSet, is_request_name, is_transaction};
use msg_bank::read_statement;
use msg_sync::{put_form, read_sync, read_transaction};
use ofx_tree::Cursor;
use ofx_types::{Ask, Asks, TreeFault};
use std::alloc::Global;

/// The asks of a message set, where it is.
pub(crate) fn asks_in(
    alloc: Global,
    set: MessageSet,
    found: Option<Cursor<'_>>,
) -> Result<Asks, TreeFault>
    ensures { ReadsForm result (reading.messages_in ask_of (sets.request_names set) found.entry) }
{
    match found {
        None => Ok(Asks::new(alloc)),
        Some(found) => asks_of(alloc, set, &found),
    }
}

/// The asks of a message set.
#[tactic(auto, using(msg_sync::proofs::After::rest, crate::proofs::InSets::all_asks))]
fn asks_of(alloc: Global, set: MessageSet, found: &Cursor<'_>) -> Result<Asks, TreeFault>
    ensures { ReadsForm result (reading.messages_of ask_of (sets.request_names set) (children found.now)) }
{
    let mut asks = Asks::new(alloc);
    for child in found.children() {
        put_form(ask_at(alloc, set, &child)?, &mut asks)?;
    }
    Ok(asks)
}

/// The ask that a child of a message set is. Any child that is no request of the set is skipped.
#[tactic(auto, unfolding(msg_sync::specs::Listing::form_at))]
fn ask_at(alloc: Global, set: MessageSet, child: &Cursor<'_>) -> Result<Option<Ask>, TreeFault>
    ensures { ReadsForm result (sets.ask_at set child.now) }
{
    if is_request_name(set, child.name()) {
        return Ok(Some(read_ask(alloc, child)?));
    }
    Ok(None)
}

/// The ask that a request is, by its name: of a statement (STMTTRNRQ), of a deed, or a synchronisation.
#[tactic(auto, unfolding(ofx_types::specs::MessageReading::ask_of))]
fn read_ask(alloc: Global, request: &Cursor<'_>) -> Result<Ask, TreeFault>
    ensures { ReadsForm result (ask_of request.now) }
{
    if request.name() == b"STMTTRNRQ".as_slice() {
        return read_statement(alloc, request);
    }
    if is_transaction(request.name()) {
        let (trnuid, deed) = read_transaction(alloc, request)?;
        return Ok(Ask::One(trnuid, deed));
    }
    Ok(Ask::Sync(read_sync(alloc, request)?))
}
