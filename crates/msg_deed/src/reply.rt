//! What is answered to a deed (INTRATRNRS, RECINTRATRNRS), read and written.

ghost use Rattle.std.specs.Prelude.{◌≡◌, ◌++◌, OnOk};
ghost use Rattle.std.specs.Io.{StartsWith};
ghost use Rattle.std.specs.Option.{ForSome, IfSome};
ghost use Rattle.ofx_types.specs.FormWords.{ReadsForm};
ghost use Rattle.ofx_types.specs.Printable.{HasChangeByCode, IsPrintableChange};
ghost use Rattle.ofx_types.specs.DeedReading as reading;
ghost use Rattle.ofx_types.specs.DeedReading.{deed_reply_of};
ghost use Rattle.ofx_types.specs.DeedText as text;
ghost use Rattle.ofx_types.specs.DeedText.{deed_reply_text};
ghost use Rattle.msg_deed.specs.PrintableDeeds.{IsNoMail};

use crate::recurring::{
    print_drop_model, print_new_model, print_set_model, read_drop_model, read_new_model,
    read_set_model,
};
use crate::transfer::{print_drop, print_new, print_set, read_drop, read_new, read_set};
use msg_parts::{print_status, print_trnuid, read_status, read_trnuid, reply_name};
use ofx_tree::{Cursor, Sheet};
use ofx_types::{Change, DeedReply, Family, OutOfMemory, TreeFault};
use std::alloc::Global;

/// The answer that the reply to a transfer (INTRATRNRS) or to a recurring one (RECINTRATRNRS) is: with code 0 just one of
/// the three replies of its name is in it. With any other code no change is looked for.
///
/// The first fault of its form, with its offset, which is its own where it has another name; `OutOfMemory` where memory
/// for its texts is refused.
#[tactic(auto, unfolding(ofx_types::specs::DeedReading::deed_reply_of))]
pub fn read_reply(alloc: Global, c: &Cursor<'_>) -> Result<DeedReply, TreeFault>
    ensures { ReadsForm result (deed_reply_of c.now) }
{
    let family = family_reported(c)?;
    let trnuid = read_trnuid(alloc, c)?;
    let code = read_status(c)?;
    let change = read_change_by_code(alloc, code, c)?;
    Ok(DeedReply {
        trnuid,
        family,
        code,
        change,
    })
}

/// What a transaction belongs to, by its name.
fn family_reported(c: &Cursor<'_>) -> Result<Family, TreeFault>
    ensures { result ≡ reading.family_reported c.now }
{
    if c.name() == b"INTRATRNRS".as_slice() {
        return Ok(Family::Intra);
    }
    if c.name() == b"RECINTRATRNRS".as_slice() {
        return Ok(Family::RecIntra);
    }
    Err(TreeFault::Value(c.offset() as u64))
}

/// What was done, where the code is 0.
#[tactic(auto, unfolding(ofx_types::specs::DeedReading::change_by_code))]
fn read_change_by_code(
    alloc: Global,
    code: u16,
    c: &Cursor<'_>,
) -> Result<Option<Change>, TreeFault>
    ensures { ReadsForm result (reading.change_by_code code c.now) }
{
    if code == 0 {
        let reply = reply_in(c)?;
        return Ok(Some(read_change(alloc, &reply)?));
    }
    Ok(None)
}

/// The one reply that is in a transaction.
fn reply_in<'t>(c: &Cursor<'t>) -> Result<Cursor<'t>, TreeFault>
    ensures { result ≡ reading.reply_in c.now }
{
    if c.name() == b"INTRATRNRS".as_slice() {
        return c.one_of(b"INTRARS", b"INTRAMODRS", b"INTRACANRS");
    }
    if c.name() == b"RECINTRATRNRS".as_slice() {
        return c.one_of(b"RECINTRARS", b"RECINTRAMODRS", b"RECINTRACANRS");
    }
    Err(TreeFault::Value(c.offset() as u64))
}

/// The change that one of the six replies is, by its name.
#[tactic(auto, unfolding(ofx_types::specs::DeedReading::change_of))]
fn read_change(alloc: Global, reply: &Cursor<'_>) -> Result<Change, TreeFault>
    ensures { ReadsForm result (reading.change_of reply.now) }
{
    if reply.name() == b"INTRARS".as_slice() {
        return read_new(alloc, reply);
    }
    if reply.name() == b"INTRAMODRS".as_slice() {
        return read_set(alloc, reply);
    }
    if reply.name() == b"INTRACANRS".as_slice() {
        return read_drop(reply);
    }
    if reply.name() == b"RECINTRARS".as_slice() {
        return read_new_model(alloc, reply);
    }
    if reply.name() == b"RECINTRAMODRS".as_slice() {
        return read_set_model(alloc, reply);
    }
    read_drop_model(reply)
}

/// Writes the answer to a deed. It has a change exactly where its code is 0, and the change is no mail.
#[tactic(auto, unfolding(ofx_types::specs::DeedText::deed_reply_text), using(msg_parts::proofs::Joined::joined))]
pub fn print_reply(r: &DeedReply, out: &mut Sheet) -> Result<(), OutOfMemory>
    requires by_code { HasChangeByCode r.now.code r.now.change }
    requires no_mail { IfSome r.now.change IsNoMail }
    ensures ok { OnOk result (out.new ≡ out.old ++ deed_reply_text r.now) }
    ensures kept { StartsWith out.new out.old }
{
    let name = reply_name(r.family);
    out.start(name)?;
    print_trnuid(&r.trnuid, out)?;
    print_status(r.code, out)?;
    print_maybe_change(&r.change, out)?;
    out.end(name)
}

/// Writes what was done, where something was.
#[tactic(auto, unfolding(ofx_types::specs::DeedText::maybe_change_text))]
fn print_maybe_change(change: &Option<Change>, sheet: &mut Sheet) -> Result<(), OutOfMemory>
    requires printable { ForSome change.now IsPrintableChange }
    requires no_mail { ForSome change.now IsNoMail }
    ensures ok { OnOk result (sheet.new ≡ sheet.old ++ text.maybe_change_text change.now) }
    ensures kept { StartsWith sheet.new sheet.old }
{
    match change {
        Some(change) => print_change(change, sheet),
        None => Ok(()),
    }
}

/// Writes what was done.
fn print_change(change: &Change, sheet: &mut Sheet) -> Result<(), OutOfMemory>
    requires printable { IsPrintableChange change.now }
    requires no_mail { IsNoMail change.now }
    ensures ok { OnOk result (sheet.new ≡ sheet.old ++ text.change_text change.now) }
    ensures kept { StartsWith sheet.new sheet.old }
{
    match change {
        Change::NewTransfer(row) => print_new(row, sheet),
        Change::SetTransfer(row) => print_set(row, sheet),
        Change::DropTransfer(id) => print_drop(*id, sheet),
        Change::NewModel(row) => print_new_model(row, sheet),
        Change::SetModel(row, pending) => print_set_model(row, *pending, sheet),
        Change::DropModel(id, pending) => print_drop_model(*id, *pending, sheet),
        Change::NewMail(_) => unreachable!(),
    }
}
