//! What a client is sent of an object (INTRASYNCRS, RECINTRASYNCRS, BANKMAILSYNCRS, MAILSYNCRS), read and written.

ghost use Rattle.std.specs.Prelude.{◌≡◌, ◌++◌, OnOk};
ghost use Rattle.std.specs.Io.{StartsWith};
ghost use Rattle.std.specs.List.{flat_map, AllByRecursion};
ghost use Rattle.ofx_types.specs.FormWords.{ReadsForm};
ghost use Rattle.ofx_types.specs.Nodes.{children};
ghost use Rattle.ofx_types.specs.DeedText.{deed_reply_text};
ghost use Rattle.ofx_types.specs.Printable.{HasChangeByCode};
ghost use Rattle.ofx_types.specs.SyncForm as forms;
ghost use Rattle.ofx_types.specs.SyncReading as reading;
ghost use Rattle.ofx_types.specs.SyncReading.{sync_reply_of};
ghost use Rattle.ofx_types.specs.PrintedSync.{sync_reply_text};
ghost use Rattle.msg_sync.specs.SyncSteps as steps;

use crate::listing::put_form;
use crate::object::{print_object, read_object};
use crate::transaction::{print_transaction_reply, read_transaction_reply};
use msg_parts::{print_flag, reply_name};
use ofx_tree::{Cursor, Sheet};
use ofx_types::{DeedReplies, DeedReply, Family, OutOfMemory, SyncReply, TreeFault};
use std::alloc::Global;

/// The most bytes of a token.
const MAX_BYTES: u32 = 64;

/// The answer that the reply to a synchronisation is: INTRASYNCRS, RECINTRASYNCRS, BANKMAILSYNCRS or MAILSYNCRS. Where LOSTSYNC
/// isn't there nothing is lost. Answers of another family are skipped.
///
/// The first fault of its form, with its offset, which is its own where it has another name; `OutOfMemory` where memory
/// for its texts or its answers is refused.
#[tactic(auto, unfolding(ofx_types::specs::SyncReading::sync_reply_of))]
pub fn read_sync_reply(alloc: Global, c: &Cursor<'_>) -> Result<SyncReply, TreeFault>
    ensures { ReadsForm result (sync_reply_of c.now) }
{
    let family = family_reported_of(c)?;
    let token = c.text(alloc, b"TOKEN", MAX_BYTES)?;
    let lost = c.maybe_flag(b"LOSTSYNC")?;
    let object = read_object(alloc, family, c)?;
    let replies = read_replies(alloc, reply_name(family), c)?;
    Ok(SyncReply {
        object,
        token,
        lost,
        replies,
    })
}

/// The family of what is synchronised, by the name of the reply.
fn family_reported_of(sync: &Cursor<'_>) -> Result<Family, TreeFault>
    ensures { result ≡ reading.family_reported_of sync.now }
{
    if sync.name() == b"INTRASYNCRS".as_slice() {
        return Ok(Family::Intra);
    }
    if sync.name() == b"RECINTRASYNCRS".as_slice() {
        return Ok(Family::RecIntra);
    }
    if sync.name() == b"BANKMAILSYNCRS".as_slice() {
        return Ok(Family::BankMail);
    }
    if sync.name() == b"MAILSYNCRS".as_slice() {
        return Ok(Family::Mail);
    }
    Err(TreeFault::Value(sync.offset() as u64))
}

/// The answers of this name, in the order of the file.
#[tactic(auto, using(crate::proofs::After::rest, crate::proofs::Deeds::all_replies))]
fn read_replies(alloc: Global, name: &[u8], sync: &Cursor<'_>) -> Result<DeedReplies, TreeFault>
    ensures { ReadsForm result (reading.replies_of name.now (children sync.now)) }
{
    let mut replies = DeedReplies::new(alloc);
    for child in sync.children() {
        put_form(reply_at(alloc, name, &child)?, &mut replies)?;
    }
    Ok(replies)
}

/// The answer that a child is. A child of another name is skipped.
#[tactic(auto, unfolding(crate::specs::Listing::form_at))]
fn reply_at(alloc: Global, name: &[u8], child: &Cursor<'_>) -> Result<Option<DeedReply>, TreeFault>
    ensures { ReadsForm result (steps.reply_at name.now child.now) }
{
    if child.name() == name {
        return Ok(Some(read_transaction_reply(alloc, child)?));
    }
    Ok(None)
}

/// Writes the reply to a synchronisation. Each of its answers has a change exactly where its code is 0.
#[tactic(auto, unfolding(ofx_types::specs::PrintedSync::sync_reply_text, ofx_types::specs::Sheet::aggregate))]
pub fn print_sync_reply(r: &SyncReply, out: &mut Sheet) -> Result<(), OutOfMemory>
    requires { AllByRecursion (λ answer. HasChangeByCode answer.code answer.change) r.now.replies }
    ensures ok { OnOk result (out.new ≡ out.old ++ sync_reply_text r.now) }
    ensures kept { StartsWith out.new out.old }
{
    let name = name_of(r.object.family());
    out.start(name)?;
    out.text(b"TOKEN", &r.token)?;
    print_flag(b"LOSTSYNC", r.lost, out)?;
    print_object(&r.object, out)?;
    print_replies(r.replies.items(), out)?;
    out.end(name)
}

/// The name of the reply to a synchronisation of a family.
fn name_of(family: Family) -> &'static [u8]
    ensures { result.now ≡ forms.sync_reply_name family }
{
    match family {
        Family::Intra => b"INTRASYNCRS",
        Family::RecIntra => b"RECINTRASYNCRS",
        Family::BankMail => b"BANKMAILSYNCRS",
        Family::Mail => b"MAILSYNCRS",
    }
}

fn print_replies(replies: &[DeedReply], sheet: &mut Sheet) -> Result<(), OutOfMemory>
    requires { AllByRecursion (λ answer. HasChangeByCode answer.code answer.change) replies.now }
    ensures ok { OnOk result (sheet.new ≡ sheet.old ++ flat_map deed_reply_text replies.now) }
    ensures kept { StartsWith sheet.new sheet.old }
{
    for reply in replies {
        print_transaction_reply(reply, sheet)?;
    }
    Ok(())
}
