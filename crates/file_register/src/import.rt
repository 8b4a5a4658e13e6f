//! What comes of a file that is imported, and the lines that it has.

ghost use Rattle.std.specs.Prelude.{◌≡◌, ◌++◌, map, IfOk, OnOk};
ghost use Rattle.file_register.specs.Lines as lines;

use crate::line::Line;
use ofx_types::{
    AcctName, AskReply, Duplicate, OutOfMemory, ReplyFile, StatementBody, StatementLine,
};
use std::alloc::Global;

/// How many lines a file brought.
#[derive(Clone, Copy, Debug, PartialEq, Eq)]
pub struct Imported {
    /// The lines that were not there.
    pub new: u32,
    /// The lines that were there, and repeats inside the file.
    pub known: u32,
}

/// Why a file was not imported.
#[derive(Debug, Drop, PartialEq, Eq)]
pub enum ImportFault {
    /// The signon failed, with this code.
    Signon(u16),
    /// Two lines of one account and FITID differ in date or amount: the one that came first, and the first of the file that
    /// differs.
    Clash(Line, Line),
    /// More than 500,000 lines would be there.
    Full,
    /// Memory was refused.
    OutOfMemory,
}

impl From<OutOfMemory> for ImportFault {
    ghost use Rattle.file_register.specs.declared.import.ImportFault.TheVariants as faults;

    ghost from_gives = { λ _ e. e ≡ faults.OutOfMemory };

    fn from(_refused: OutOfMemory) -> ImportFault {
        ImportFault::OutOfMemory
    }
}

/// A line of a statement of that account.
fn line_of(account: &AcctName, line: &StatementLine) -> Result<Line, OutOfMemory>
    ensures { IfOk result (λ made. made ≡ lines.line_of account.now line.now) }
{
    Ok(Line {
        account: account.copy()?,
        fitid: line.number,
        posted: line.posted,
        amount: line.amount,
    })
}

/// Appends lines of statements of that account.
fn push_listed(
    account: &AcctName,
    listed: &[StatementLine],
    out: &mut Vec<Line>,
) -> Result<(), OutOfMemory>
    ensures { OnOk result (out.new.items ≡ out.old.items ++ map (lines.line_of account.now) listed.now) }
{
    for line in listed {
        out.push(line_of(account, line)?)?;
    }
    Ok(())
}

/// Appends the lines of a statement.
fn push_statement(body: &StatementBody, out: &mut Vec<Line>) -> Result<(), OutOfMemory>
    ensures { OnOk result (out.new.items ≡ out.old.items ++ lines.listed body.now.account body.now.list) }
{
    match &body.list {
        Some(list) => push_listed(&body.account, list.lines.items(), out),
        None => Ok(()),
    }
}

/// Appends the lines of a statement, which has some only where its code is 0.
fn push_body(
    code: u16,
    body: &Option<StatementBody>,
    out: &mut Vec<Line>,
) -> Result<(), OutOfMemory>
    ensures { OnOk result (out.new.items ≡ out.old.items ++ lines.lines_by code body.now) }
{
    match body {
        Some(body) => {
            if code == 0 {
                push_statement(body, out)
            } else {
                Ok(())
            }
        }
        None => Ok(()),
    }
}

/// Appends the lines of an answer.
fn push_answer(answer: &AskReply, out: &mut Vec<Line>) -> Result<(), OutOfMemory>
    ensures { OnOk result (out.new.items ≡ out.old.items ++ lines.lines_in answer.now) }
{
    match answer {
        AskReply::Statement(_, code, body) => push_body(*code, body, out),
        AskReply::One(_) => Ok(()),
        AskReply::Sync(_) => Ok(()),
    }
}

/// The lines of a reply file, in order.
pub(crate) fn lines_of(alloc: Global, reply: &ReplyFile) -> Result<Vec<Line>, OutOfMemory>
    ensures { IfOk result (λ found. found.items ≡ lines.lines_of reply.now) }
{
    let mut out = Vec::new(alloc);
    for answer in reply.replies.items() {
        push_answer(answer, &mut out)?;
    }
    Ok(out)
}
