//! What a mail says (MAIL), read and written.

ghost use Rattle.std.specs.Prelude.{◌≡◌, ◌++◌, OnOk};
ghost use Rattle.std.specs.Io.{StartsWith};
ghost use Rattle.ofx_types.specs.Calendar.{IsMoment};
ghost use Rattle.ofx_types.specs.FormWords.{ReadsForm};
ghost use Rattle.ofx_types.specs.MailReading as reading;
ghost use Rattle.ofx_types.specs.PrintedMail.{mail_text};
ghost use Rattle.msg_mail.specs.MailParts as parts;

use ofx_tree::{Cursor, Sheet};
use ofx_types::{MailText, OutOfMemory, Text, TreeFault};
use std::alloc::Global;

/// The most bytes of USERID, FROM and TO.
const MAX_NAME: u32 = 32;

/// The most bytes of SUBJECT.
const MAX_SUBJECT: u32 = 64;

/// The most bytes of MSGBODY.
const MAX_BODY: u32 = 10_000;

/// What the mail of a request says. Its USERID isn't looked at.
#[tactic(auto, unfolding(ofx_types::specs::MailReading::mail_in))]
pub(crate) fn read_mail_in(alloc: Global, request: &Cursor<'_>) -> Result<MailText, TreeFault>
    ensures { ReadsForm result (reading.mail_in request.now) }
{
    let mail = request.one(b"MAIL")?;
    read_mail(alloc, &mail)
}

/// The customer's name and what the mail of a reply says.
#[tactic(auto, unfolding(ofx_types::specs::MailReading::mail_of_user_in))]
pub(crate) fn read_user_mail_in(
    alloc: Global,
    reply: &Cursor<'_>,
) -> Result<(Text, MailText), TreeFault>
    ensures { ReadsForm result (reading.mail_of_user_in reply.now) }
{
    let mail = reply.one(b"MAIL")?;
    read_user_mail(alloc, &mail)
}

#[tactic(auto, unfolding(ofx_types::specs::MailReading::mail_of_user))]
fn read_user_mail(alloc: Global, mail: &Cursor<'_>) -> Result<(Text, MailText), TreeFault>
    ensures { ReadsForm result (reading.mail_of_user mail.now) }
{
    let user = mail.text(alloc, b"USERID", MAX_NAME)?;
    let text = read_mail(alloc, mail)?;
    Ok((user, text))
}

#[tactic(auto, unfolding(ofx_types::specs::MailReading::mail_text_of))]
fn read_mail(alloc: Global, mail: &Cursor<'_>) -> Result<MailText, TreeFault>
    ensures { ReadsForm result (reading.mail_text_of mail.now) }
{
    let created = mail.moment(b"DTCREATED")?;
    let sender = mail.text(alloc, b"FROM", MAX_NAME)?;
    let target = mail.text(alloc, b"TO", MAX_NAME)?;
    let subject = mail.text(alloc, b"SUBJECT", MAX_SUBJECT)?;
    let body = mail.text(alloc, b"MSGBODY", MAX_BODY)?;
    Ok(MailText {
        created,
        sender,
        target,
        subject,
        body,
    })
}

/// Writes a mail with this USERID. It was written in the years 1900 to 9999.
#[tactic(auto, unfolding(ofx_types::specs::PrintedMail::mail_text, ofx_types::specs::Sheet::aggregate))]
pub(crate) fn print_mail(user: &Text, mail: &MailText, sheet: &mut Sheet) -> Result<(), OutOfMemory>
    requires { IsMoment mail.now.created.0 }
    ensures ok { OnOk result (sheet.new ≡ sheet.old ++ mail_text user.now mail.now) }
    ensures kept { StartsWith sheet.new sheet.old }
{
    sheet.start(b"MAIL")?;
    sheet.text(b"USERID", user)?;
    sheet.moment(b"DTCREATED", mail.created)?;
    sheet.text(b"FROM", &mail.sender)?;
    sheet.text(b"TO", &mail.target)?;
    print_message(mail, sheet)?;
    sheet.end(b"MAIL")
}

/// Writes what a mail is about and its message, which is plain text without images.
fn print_message(mail: &MailText, sheet: &mut Sheet) -> Result<(), OutOfMemory>
    ensures ok { OnOk result (sheet.new ≡ sheet.old ++ parts.message mail.now) }
    ensures kept { StartsWith sheet.new sheet.old }
{
    sheet.text(b"SUBJECT", &mail.subject)?;
    sheet.text(b"MSGBODY", &mail.body)?;
    sheet.element(b"INCIMAGES", b"N")?;
    sheet.element(b"USEHTML", b"N")
}
