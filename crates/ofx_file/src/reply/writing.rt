//! The printed form of a reply file.

ghost use Rattle.std.specs.Prelude.{◌≡◌, ◌++◌, OnOk, IfOk, None};
ghost use Rattle.std.specs.List.{flat_map, AllByRecursion};
ghost use Rattle.ofx_types.specs.ReplyForm as form;
ghost use Rattle.ofx_types.specs.ReplyForm.{reply_text};
ghost use Rattle.ofx_types.specs.Calendar.{IsMoment};
ghost use Rattle.ofx_types.specs.Printable.{IsPrintable, IsPrintableReply};
ghost use Rattle.ofx_types.specs.SyncForm.{is_mail_family};
ghost use Rattle.ofx_file.specs.FileParts as parts;
ghost use Rattle.ofx_file.specs.MessageSets as sets;

use crate::messages::MessageSet;
use bank_model::Printer;
use msg_bank::print_statement_reply;
use msg_mail::print_signon_reply;
use msg_sync::{print_sync_reply, print_transaction_reply};
use ofx_header::{Header, write_header};
use ofx_tree::Sheet;
use ofx_types::{AskReply, Duplicate, Family, Moment, ObjectName, OutOfMemory, ReplyFile};
use std::alloc::Global;

/// The room that the parts of a reply file which occur once are given at first, in bytes.
const ROOM: usize = 576;

/// The room that each answer is given at first, in bytes. A statement without lines has some 430, a new transfer some
/// 460.
const ROOM_OF_ONE: usize = 480;

/// Prints replies in their one printed form.
#[derive(Clone, Copy, Debug)]
pub struct OfxPrinter;

impl Printer for OfxPrinter {
    fn print(&self, alloc: Global, reply: &ReplyFile) -> Result<Vec<u8>, OutOfMemory> {
        write_reply(alloc, reply)
    }
}

/// The bytes of a reply file, in its one printed form (OFX 1.6, "Open Financial Exchange Headers", "SGML Basics"). What the
/// bank answers comes before mail.
#[tactic(auto, using(crate::proofs::Texts::reply_text_is))]
pub fn write_reply(alloc: Global, reply: &ReplyFile) -> Result<Vec<u8>, OutOfMemory>
    requires { IsPrintable reply.now }
    ensures { IfOk result (λ out. out.items ≡ reply_text reply.now) }
{
    let room = ROOM.saturating_add(reply.replies.items().len().saturating_mul(ROOM_OF_ONE));
    let mut out = Vec::with_capacity(alloc, room)?;
    write_header(&header_of(reply)?, &mut out)?;
    let mut sheet = Sheet::from_vec(out);
    body(reply, &mut sheet)?;
    Ok(sheet.into_bytes())
}

/// The header of a reply, which names no older file.
fn header_of(reply: &ReplyFile) -> Result<Header, OutOfMemory>
    ensures { IfOk result (λ header. header ≡ record { version = reply.now.version; older = None; newer = reply.now.newer }) }
{
    Ok(Header {
        version: reply.version,
        older: None,
        newer: reply.newer.copy()?,
    })
}

/// Appends what follows the header.
#[tactic(auto, using(msg_parts::proofs::Joined::aggregate_of_three))]
fn body(reply: &ReplyFile, sheet: &mut Sheet) -> Result<(), OutOfMemory>
    requires { IsPrintable reply.now }
    ensures { OnOk result (sheet.new ≡ sheet.old ++ parts.reply_body reply.now) }
{
    sheet.start(b"OFX")?;
    signon_set(reply.signon, reply.moment, sheet)?;
    answer_set_of_some(MessageSet::Bank, reply.replies.items(), sheet)?;
    answer_set_of_some(MessageSet::Mail, reply.replies.items(), sheet)?;
    sheet.end(b"OFX")
}

/// Appends the message set of the signon.
#[tactic(auto, unfolding(ofx_types::specs::Sheet::aggregate))]
fn signon_set(code: u16, moment: Moment, sheet: &mut Sheet) -> Result<(), OutOfMemory>
    requires { IsMoment moment.0 }
    ensures { OnOk result (sheet.new ≡ sheet.old ++ parts.signon_set code moment) }
{
    sheet.start(b"SIGNONMSGSRSV1")?;
    print_signon_reply(code, moment, sheet)?;
    sheet.end(b"SIGNONMSGSRSV1")
}

/// Appends a message set, where one of the answers is in it.
fn answer_set_of_some(
    set: MessageSet,
    answers: &[AskReply],
    sheet: &mut Sheet,
) -> Result<(), OutOfMemory>
    requires { AllByRecursion IsPrintableReply answers.now }
    ensures { OnOk result (sheet.new ≡ sheet.old ++ parts.answer_set_of_some set answers.now) }
{
    if has_any(set, answers) {
        return answer_set(set, answers, sheet);
    }
    Ok(())
}

/// Appends a message set.
#[tactic(auto, unfolding(ofx_types::specs::Sheet::aggregate))]
fn answer_set(set: MessageSet, answers: &[AskReply], sheet: &mut Sheet) -> Result<(), OutOfMemory>
    requires { AllByRecursion IsPrintableReply answers.now }
    ensures { OnOk result (sheet.new ≡ sheet.old ++ parts.answer_set set answers.now) }
{
    let name = set_name(set);
    sheet.start(name)?;
    print_answers(set, answers, sheet)?;
    sheet.end(name)
}

fn set_name(set: MessageSet) -> &'static [u8]
    ensures { result.now ≡ sets.reply_set set }
{
    match set {
        MessageSet::Bank => b"BANKMSGSRSV1",
        MessageSet::Mail => b"EMAILMSGSRSV1",
    }
}

/// Whether one of the answers is in a message set.
fn has_any(set: MessageSet, answers: &[AskReply]) -> bool
    ensures { result ≡ sets.has_answer set answers.now }
{
    answers.iter().any(|answer| is_in(set, answer))
}

/// Whether an answer is in a message set.
fn is_in(set: MessageSet, answer: &AskReply) -> bool
    ensures { result ≡ sets.is_reply_in set answer.now }
{
    match set {
        MessageSet::Bank => !is_mail(answer),
        MessageSet::Mail => is_mail(answer),
    }
}

/// Whether an answer is one to mail about nothing in particular.
fn is_mail(answer: &AskReply) -> bool
    ensures { result ≡ form.is_mail_reply answer.now }
{
    match answer {
        AskReply::Statement(_, _, _) => false,
        AskReply::One(reply) => is_mail_of(reply.family),
        AskReply::Sync(reply) => matches!(reply.object, ObjectName::Mail),
    }
}

fn is_mail_of(family: Family) -> bool
    ensures { result ≡ is_mail_family family }
{
    matches!(family, Family::Mail)
}

/// Appends the answers that are in a message set, in their order.
fn print_answers(
    set: MessageSet,
    answers: &[AskReply],
    sheet: &mut Sheet,
) -> Result<(), OutOfMemory>
    requires { AllByRecursion IsPrintableReply answers.now }
    ensures { OnOk result (sheet.new ≡ sheet.old ++ flat_map (sets.answer_text_in set) answers.now) }
{
    for answer in answers {
        print_if_in(set, answer, sheet)?;
    }
    Ok(())
}

/// Appends an answer, where it is in the message set.
fn print_if_in(set: MessageSet, answer: &AskReply, sheet: &mut Sheet) -> Result<(), OutOfMemory>
    requires { IsPrintableReply answer.now }
    ensures { OnOk result (sheet.new ≡ sheet.old ++ sets.answer_text_in set answer.now) }
{
    if is_in(set, answer) {
        return print_answer(answer, sheet);
    }
    Ok(())
}

/// Appends the answer to one ask.
#[tactic(auto, unfolding(ofx_types::specs::ReplyForm::ask_reply))]
fn print_answer(answer: &AskReply, sheet: &mut Sheet) -> Result<(), OutOfMemory>
    requires { IsPrintableReply answer.now }
    ensures { OnOk result (sheet.new ≡ sheet.old ++ form.ask_reply answer.now) }
{
    match answer {
        AskReply::Statement(trnuid, code, body) => {
            print_statement_reply(trnuid, *code, body.as_ref(), sheet)
        }
        AskReply::One(reply) => print_transaction_reply(reply, sheet),
        AskReply::Sync(reply) => print_sync_reply(reply, sheet),
    }
}
