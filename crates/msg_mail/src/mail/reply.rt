//! What is answered to a mail, and how a letter of the bank is sent (BANKMAILTRNRS, MAILTRNRS), read and written.

ghost use Rattle.std.specs.Prelude.{◌≡◌, ◌++◌, OnOk};
ghost use Rattle.std.specs.Io.{StartsWith};
ghost use Rattle.std.specs.Option.{ForSome, IfSome};
ghost use Rattle.ofx_types.specs.Calendar.{IsMoment};
ghost use Rattle.ofx_types.specs.FormWords.{ReadsForm};
ghost use Rattle.ofx_types.specs.MailReading as reading;
ghost use Rattle.ofx_types.specs.MailReading.{mail_reply_of};
ghost use Rattle.ofx_types.specs.Printable.{HasChangeByCode, IsPrintableChange};
ghost use Rattle.ofx_types.specs.PrintedMail as form;
ghost use Rattle.ofx_types.specs.DeedText as text;
ghost use Rattle.ofx_types.specs.DeedText.{deed_reply_text};
ghost use Rattle.msg_mail.specs.MailParts.{IsMail};

use crate::mail::text::{print_mail, read_user_mail_in};
use msg_parts::{
    print_account, print_status, print_trnuid, read_account_in, read_status, read_trnuid,
    reply_name,
};
use ofx_tree::{Cursor, Sheet};
use ofx_types::{AcctName, Change, DeedReply, Family, MailRow, OutOfMemory, TreeFault};
use std::alloc::Global;

/// The answer that the reply to a mail about an account (BANKMAILTRNRS) or to other mail (MAILTRNRS) is: with code 0 the
/// mail is in it. With any other code no mail is looked for.
///
/// The first fault of its form, with its offset, which is its own where it has another name; `OutOfMemory` where memory
/// for its texts is refused.
#[tactic(auto, unfolding(ofx_types::specs::MailReading::mail_reply_of))]
pub fn mail_read_reply(alloc: Global, c: &Cursor<'_>) -> Result<DeedReply, TreeFault>
    ensures { ReadsForm result (mail_reply_of c.now) }
{
    let family = family_reported(c)?;
    let trnuid = read_trnuid(alloc, c)?;
    let code = read_status(c)?;
    let change = read_mail_by_code(alloc, code, c)?;
    Ok(DeedReply {
        trnuid,
        family,
        code,
        change,
    })
}

/// What a transaction belongs to, by its name.
fn family_reported(c: &Cursor<'_>) -> Result<Family, TreeFault>
    ensures { result ≡ reading.mail_family_reported c.now }
{
    if c.name() == b"BANKMAILTRNRS".as_slice() {
        return Ok(Family::BankMail);
    }
    if c.name() == b"MAILTRNRS".as_slice() {
        return Ok(Family::Mail);
    }
    Err(TreeFault::Value(c.offset() as u64))
}

/// The mail that came in or went out, where the code is 0.
#[tactic(auto, unfolding(ofx_types::specs::MailReading::mail_by_code))]
fn read_mail_by_code(alloc: Global, code: u16, c: &Cursor<'_>) -> Result<Option<Change>, TreeFault>
    ensures { ReadsForm result (reading.mail_by_code code c.now) }
{
    if code == 0 {
        return Ok(Some(read_row(alloc, c)?));
    }
    Ok(None)
}

/// The mail of a transaction, by its name.
#[tactic(auto, unfolding(ofx_types::specs::MailReading::mail_row_of))]
fn read_row(alloc: Global, transaction: &Cursor<'_>) -> Result<Change, TreeFault>
    ensures { ReadsForm result (reading.mail_row_of transaction.now) }
{
    if transaction.name() == b"BANKMAILTRNRS".as_slice() {
        return read_bank_row(alloc, transaction);
    }
    read_plain_row(alloc, transaction)
}

#[tactic(auto, unfolding(ofx_types::specs::MailReading::bank_mail_row_of))]
fn read_bank_row(alloc: Global, transaction: &Cursor<'_>) -> Result<Change, TreeFault>
    ensures { ReadsForm result (reading.bank_mail_row_of transaction.now) }
{
    let reply = transaction.one(b"BANKMAILRS")?;
    let account = read_account_in(alloc, &reply)?;
    let (user, mail) = read_user_mail_in(alloc, &reply)?;
    Ok(Change::NewMail(MailRow {
        about: Some(account),
        user,
        mail,
    }))
}

#[tactic(auto, unfolding(ofx_types::specs::MailReading::plain_mail_row_of))]
fn read_plain_row(alloc: Global, transaction: &Cursor<'_>) -> Result<Change, TreeFault>
    ensures { ReadsForm result (reading.plain_mail_row_of transaction.now) }
{
    let reply = transaction.one(b"MAILRS")?;
    let (user, mail) = read_user_mail_in(alloc, &reply)?;
    Ok(Change::NewMail(MailRow {
        about: None,
        user,
        mail,
    }))
}

/// Writes the answer to a mail. It has a mail exactly where its code is 0, which was written in the years 1900 to 9999.
#[tactic(auto, unfolding(ofx_types::specs::DeedText::deed_reply_text), using(msg_parts::proofs::Joined::joined))]
pub fn mail_print_reply(r: &DeedReply, out: &mut Sheet) -> Result<(), OutOfMemory>
    requires by_code { HasChangeByCode r.now.code r.now.change }
    requires mail { IfSome r.now.change IsMail }
    ensures ok { OnOk result (out.new ≡ out.old ++ deed_reply_text r.now) }
    ensures kept { StartsWith out.new out.old }
{
    let name = reply_name(r.family);
    out.start(name)?;
    print_trnuid(&r.trnuid, out)?;
    print_status(r.code, out)?;
    print_maybe_mail(&r.change, out)?;
    out.end(name)
}

/// Writes the mail of an answer, where it has one.
#[tactic(auto, unfolding(ofx_types::specs::DeedText::maybe_change_text))]
fn print_maybe_mail(change: &Option<Change>, sheet: &mut Sheet) -> Result<(), OutOfMemory>
    requires printable { ForSome change.now IsPrintableChange }
    requires mail { ForSome change.now IsMail }
    ensures ok { OnOk result (sheet.new ≡ sheet.old ++ text.maybe_change_text change.now) }
    ensures kept { StartsWith sheet.new sheet.old }
{
    match change {
        Some(change) => print_change(change, sheet),
        None => Ok(()),
    }
}

/// Writes the mail that a change is.
#[tactic(auto, unfolding(ofx_types::specs::DeedText::change_text))]
fn print_change(change: &Change, sheet: &mut Sheet) -> Result<(), OutOfMemory>
    requires printable { IsPrintableChange change.now }
    requires mail { IsMail change.now }
    ensures ok { OnOk result (sheet.new ≡ sheet.old ++ text.change_text change.now) }
    ensures kept { StartsWith sheet.new sheet.old }
{
    match change {
        Change::NewMail(row) => print_row(row, sheet),
        Change::NewTransfer(_) | Change::SetTransfer(_) | Change::DropTransfer(_) => unreachable!(),
        Change::NewModel(_) | Change::SetModel(_, _) | Change::DropModel(_, _) => unreachable!(),
    }
}

/// Writes a mail as the bank keeps it.
fn print_row(row: &MailRow, sheet: &mut Sheet) -> Result<(), OutOfMemory>
    requires { IsMoment row.now.mail.created.0 }
    ensures ok { OnOk result (sheet.new ≡ sheet.old ++ form.mail_row_text row.now) }
    ensures kept { StartsWith sheet.new sheet.old }
{
    match &row.about {
        Some(account) => print_bank_row(account, row, sheet),
        None => print_plain_row(row, sheet),
    }
}

#[tactic(auto, unfolding(ofx_types::specs::PrintedMail::mail_row_about), using(msg_parts::proofs::Joined::joined))]
fn print_bank_row(account: &AcctName, row: &MailRow, sheet: &mut Sheet) -> Result<(), OutOfMemory>
    requires { IsMoment row.now.mail.created.0 }
    ensures ok { OnOk result (sheet.new ≡ sheet.old ++ form.mail_row_about (Some account.now) row.now) }
    ensures kept { StartsWith sheet.new sheet.old }
{
    sheet.start(b"BANKMAILRS")?;
    print_account(account, sheet)?;
    print_mail(&row.user, &row.mail, sheet)?;
    sheet.end(b"BANKMAILRS")
}

#[tactic(auto, unfolding(ofx_types::specs::PrintedMail::mail_row_about), using(msg_parts::proofs::Joined::joined))]
fn print_plain_row(row: &MailRow, sheet: &mut Sheet) -> Result<(), OutOfMemory>
    requires { IsMoment row.now.mail.created.0 }
    ensures ok { OnOk result (sheet.new ≡ sheet.old ++ form.mail_row_about None row.now) }
    ensures kept { StartsWith sheet.new sheet.old }
{
    sheet.start(b"MAILRS")?;
    print_mail(&row.user, &row.mail, sheet)?;
    sheet.end(b"MAILRS")
}
