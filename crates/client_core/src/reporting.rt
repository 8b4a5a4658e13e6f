//! The lines that report a reply.

ghost use Rattle.std.specs.Prelude.{◌≡◌, ◌++◌, ◌∷◌, [], map, OnOk};
ghost use Rattle.client_report.specs.Lines.{store_text};
ghost use Rattle.client_core.specs.Objects as objects;
ghost use Rattle.client_core.specs.Accepting as rules;

use crate::answering::last_replies;
use crate::report::ReportLines;
use crate::stores::store_of;
use client_report::{balance_line, done_line, store_line};
use client_store::Store;
use ofx_types::{Ask, AskReply, DeedReply, Duplicate, ObjectName, OutOfMemory, SyncAsk, SyncReply};
use std::alloc::Global;

/// Adds the lines of a reply that was taken. The stores are those after it.
pub(crate) fn report_replies(
    alloc: Global,
    ask: &Ask,
    reply: &AskReply,
    stores: &[Store],
    lines: &mut ReportLines,
) -> Result<(), OutOfMemory>
    ensures { OnOk result (lines.new ≡ lines.old ++ rules.lines_of ask.now reply.now stores.now) }
{
    match (ask, reply) {
        (Ask::Statement(_, account, _), AskReply::Statement(_, code, body)) => {
            lines.push(balance_line(alloc, account, *code, body)?)
        }
        (Ask::Sync(ask), AskReply::Sync(reply)) => report_sync(alloc, ask, reply, stores, lines),
        _ => Ok(()),
    }
}

fn report_sync(
    alloc: Global,
    ask: &SyncAsk,
    reply: &SyncReply,
    stores: &[Store],
    lines: &mut ReportLines,
) -> Result<(), OutOfMemory>
    ensures { OnOk result (lines.new ≡ lines.old ++ rules.sync_lines ask.now reply.now stores.now) }
{
    let replies = last_replies(ask.deeds.items(), reply.replies.items());
    report_deeds(alloc, replies, lines)?;
    report_store(alloc, &ask.object, stores, lines)
}

fn report_deeds(
    alloc: Global,
    replies: &[DeedReply],
    lines: &mut ReportLines,
) -> Result<(), OutOfMemory>
    ensures { OnOk result (lines.new ≡ lines.old ++ map rules.done_line replies.now) }
{
    let mut left = replies;
    while let [reply, rest @ ..] = left {
        lines.push(done_line(alloc, &reply.trnuid, reply.code)?)?;
        left = rest;
    }
    Ok(())
}

fn report_store(
    alloc: Global,
    object: &ObjectName,
    stores: &[Store],
    lines: &mut ReportLines,
) -> Result<(), OutOfMemory>
    ensures { OnOk result (lines.new ≡ lines.old ++ store_text (objects.store_under object.now stores.now) ∷ []) }
{
    match store_of(object, stores) {
        Some(store) => lines.push(store_line(alloc, store)?),
        None => {
            let store = Store::new(alloc, object.copy()?)?;
            lines.push(store_line(alloc, &store)?)
        }
    }
}
