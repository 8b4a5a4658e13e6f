//! What a customer asks to be sent (BANKMAILTRNRQ, MAILTRNRQ), read and written.

ghost use Rattle.std.specs.Prelude.{◌≡◌, ◌++◌, OnOk};
ghost use Rattle.std.specs.Io.{StartsWith};
ghost use Rattle.ofx_types.specs.Calendar.{IsMoment};
ghost use Rattle.ofx_types.specs.FormWords.{ReadsForm};
ghost use Rattle.ofx_types.specs.MailReading as reading;
ghost use Rattle.ofx_types.specs.MailReading.{mail_deed_of};
ghost use Rattle.ofx_types.specs.DeedText as text;
ghost use Rattle.ofx_types.specs.DeedText.{deed_text};
ghost use Rattle.msg_mail.specs.MailParts.{IsPrintableMail};

use crate::mail::text::{print_mail, read_mail_in};
use msg_parts::{print_account, print_trnuid, read_account_in, read_own_trnuid, request_name};
use ofx_tree::{Cursor, Sheet};
use ofx_types::{AcctName, Deed, MailText, OutOfMemory, TreeFault, TrnUid};
use std::alloc::Global;

/// The uid and the mail that a request of mail about an account (BANKMAILTRNRQ) or of other mail (MAILTRNRQ) is.
///
/// The first fault of its form, with its offset, which is its own where it has another name; `OutOfMemory` where memory
/// for its texts is refused.
#[tactic(auto, unfolding(ofx_types::specs::MailReading::mail_deed_of))]
pub fn mail_read_deed(alloc: Global, c: &Cursor<'_>) -> Result<(TrnUid, Deed), TreeFault>
    ensures { ReadsForm result (mail_deed_of c.now) }
{
    let trnuid = read_own_trnuid(alloc, c)?;
    let deed = read_request(alloc, c)?;
    Ok((trnuid, deed))
}

/// The mail of a transaction, by its name.
#[tactic(auto, unfolding(ofx_types::specs::MailReading::mail_request_of))]
fn read_request(alloc: Global, transaction: &Cursor<'_>) -> Result<Deed, TreeFault>
    ensures { ReadsForm result (reading.mail_request_of transaction.now) }
{
    if transaction.name() == b"BANKMAILTRNRQ".as_slice() {
        return read_bank_mail(alloc, transaction);
    }
    if transaction.name() == b"MAILTRNRQ".as_slice() {
        return read_plain_mail(alloc, transaction);
    }
    Err(TreeFault::Value(transaction.offset() as u64))
}

#[tactic(auto, unfolding(ofx_types::specs::MailReading::bank_mail_of))]
fn read_bank_mail(alloc: Global, transaction: &Cursor<'_>) -> Result<Deed, TreeFault>
    ensures { ReadsForm result (reading.bank_mail_of transaction.now) }
{
    let request = transaction.one(b"BANKMAILRQ")?;
    let account = read_account_in(alloc, &request)?;
    let mail = read_mail_in(alloc, &request)?;
    Ok(Deed::BankMail(account, mail))
}

#[tactic(auto, unfolding(ofx_types::specs::MailReading::plain_mail_of))]
fn read_plain_mail(alloc: Global, transaction: &Cursor<'_>) -> Result<Deed, TreeFault>
    ensures { ReadsForm result (reading.plain_mail_of transaction.now) }
{
    let request = transaction.one(b"MAILRQ")?;
    let mail = read_mail_in(alloc, &request)?;
    Ok(Deed::Mail(mail))
}

/// Writes the request of a mail, which was written in the years 1900 to 9999.
#[tactic(auto, unfolding(ofx_types::specs::DeedText::deed_text), using(msg_parts::proofs::Joined::joined))]
pub fn mail_print_deed(trnuid: &TrnUid, deed: &Deed, out: &mut Sheet) -> Result<(), OutOfMemory>
    requires { IsPrintableMail deed.now }
    ensures ok { OnOk result (out.new ≡ out.old ++ deed_text trnuid.now deed.now) }
    ensures kept { StartsWith out.new out.old }
{
    let name = request_name(deed);
    out.start(name)?;
    print_trnuid(trnuid, out)?;
    print_request(deed, out)?;
    out.end(name)
}

/// Writes the request that a mail is.
fn print_request(deed: &Deed, sheet: &mut Sheet) -> Result<(), OutOfMemory>
    requires { IsPrintableMail deed.now }
    ensures ok { OnOk result (sheet.new ≡ sheet.old ++ text.request_text deed.now) }
    ensures kept { StartsWith sheet.new sheet.old }
{
    match deed {
        Deed::BankMail(account, mail) => print_bank_mail(account, mail, sheet),
        Deed::Mail(mail) => print_plain_mail(mail, sheet),
        Deed::Transfer(_) | Deed::ModifyTransfer(_, _) | Deed::CancelTransfer(_) => unreachable!(),
        Deed::Model(_, _) | Deed::ModifyModel(_, _, _, _) | Deed::CancelModel(_, _) => {
            unreachable!()
        }
    }
}

/// Writes the request to send a mail about an account. USERID has the text of FROM.
#[tactic(auto, unfolding(ofx_types::specs::DeedText::request_text, ofx_types::specs::PrintedMail::bank_mail_text), using(msg_parts::proofs::Joined::joined))]
fn print_bank_mail(
    account: &AcctName,
    mail: &MailText,
    sheet: &mut Sheet,
) -> Result<(), OutOfMemory>
    requires { IsMoment mail.now.created.0 }
    ensures ok { OnOk result (sheet.new ≡ sheet.old ++ text.request_text (Deed.BankMail account.now mail.now)) }
    ensures kept { StartsWith sheet.new sheet.old }
{
    sheet.start(b"BANKMAILRQ")?;
    print_account(account, sheet)?;
    print_mail(&mail.sender, mail, sheet)?;
    sheet.end(b"BANKMAILRQ")
}

/// Writes the request to send a mail about nothing in particular. USERID has the text of FROM.
#[tactic(auto, unfolding(ofx_types::specs::DeedText::request_text, ofx_types::specs::PrintedMail::plain_mail_text), using(msg_parts::proofs::Joined::joined))]
fn print_plain_mail(mail: &MailText, sheet: &mut Sheet) -> Result<(), OutOfMemory>
    requires { IsMoment mail.now.created.0 }
    ensures ok { OnOk result (sheet.new ≡ sheet.old ++ text.request_text (Deed.Mail mail.now)) }
    ensures kept { StartsWith sheet.new sheet.old }
{
    sheet.start(b"MAILRQ")?;
    print_mail(&mail.sender, mail, sheet)?;
    sheet.end(b"MAILRQ")
}
