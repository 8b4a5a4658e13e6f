//! One file of the input: it is read and imported, and the line is made that reports it.

ghost use Rattle.std.specs.Prelude.{◌≡◌, ◌<◌, ◌^◌, length, IsTrue, IfOk};
ghost use Rattle.std.specs.List.{AllByRecursion};
ghost use Rattle.file_register.specs.Lines as replies;
ghost use Rattle.file_register.specs.Lines.{IsSoundLine, lines_of};
ghost use Rattle.register_run.specs.Lines as rules;
ghost use Rattle.register_run.specs.Frames.{Fits};
ghost use Rattle.register_run.specs.Answers.{AnswersFile, ImportsReply};

use crate::lines::outcome_line;
use bank_frames::bad_file_line;
use file_register::Register;
use ofx_file::read_reply;
use ofx_types::{AskReply, FileFault, OutOfMemory, ReplyFile, StatementBody};
use std::alloc::Global;

/// How many lines a statement has.
fn lines_by(code: u16, body: &Option<StatementBody>) -> usize
    ensures { result ≡ length (replies.lines_by code body.now) }
{
    match body {
        Some(body) => match &body.list {
            Some(list) => {
                if code == 0 {
                    list.lines.items().len()
                } else {
                    0
                }
            }
            None => 0,
        },
        None => 0,
    }
}

/// How many lines an answer has.
fn lines_in(answer: &AskReply) -> usize
    ensures { result ≡ length (replies.lines_in answer.now) }
{
    match answer {
        AskReply::Statement(_, code, body) => lines_by(*code, body),
        AskReply::One(_) => 0,
        AskReply::Sync(_) => 0,
    }
}

/// Whether the lines of a reply file are fewer than 2^32.
fn are_counted(reply: &ReplyFile) -> bool
    ensures { IsTrue result → length (lines_of reply.now) < 2 ^ 32 }
{
    let mut left = u32::MAX as usize;
    for answer in reply.replies.items() {
        let count = lines_in(answer);
        if count > left {
            return false;
        }
        left -= count;
    }
    true
}

/// Hands a reply file to the register, and makes the line that reports it. No memory holds so many lines that their number
/// doesn't fit.
fn import_reply(
    alloc: Global,
    register: &mut Register,
    reply: &ReplyFile,
) -> Result<Vec<u8>, OutOfMemory>
    requires { AllByRecursion IsSoundLine (lines_of reply.now) }
    ensures { IfOk result (λ line. ImportsReply register.old reply.now line.items register.new) }
{
    if !are_counted(reply) {
        return Err(OutOfMemory);
    }
    let outcome = register.import(reply);
    outcome_line(alloc, &outcome)
}

/// Takes in the bytes of a file, and makes the line that reports it.
pub(crate) fn import_file(
    alloc: Global,
    register: &mut Register,
    bytes: &[u8],
) -> Result<Vec<u8>, OutOfMemory>
    requires { Fits bytes.now }
    ensures { IfOk result (λ line. AnswersFile register.old bytes.now line.items register.new) }
{
    match read_reply(alloc, bytes) {
        Ok(reply) => import_reply(alloc, register, &reply),
        Err(FileFault::Header(at)) => bad_line(alloc, at),
        Err(FileFault::Syntax(at)) => bad_line(alloc, at),
        Err(FileFault::Form(at)) => bad_line(alloc, at),
        Err(FileFault::OutOfMemory) => Err(OutOfMemory),
    }
}

/// The line of a file that spells no reply.
fn bad_line(alloc: Global, at: u64) -> Result<Vec<u8>, OutOfMemory>
    ensures { IfOk result (λ line. line.items ≡ rules.bad_line at) }
{
    bad_file_line(alloc, at)
}
