//! The posted transactions of a statement (BANKTRANLIST), read and written.

ghost use Rattle.std.specs.Prelude.{◌≡◌, ◌++◌, IfErr, OnOk, option_to_list};
ghost use Rattle.std.specs.Io.{StartsWith};
ghost use Rattle.std.specs.List.{flat_map, AllByRecursion};
ghost use Rattle.std.specs.Option.{ForSome};
ghost use Rattle.ofx_types.specs.Calendar.{IsMoment};
ghost use Rattle.ofx_types.specs.FormWords.{ReadsForm};
ghost use Rattle.ofx_types.specs.Nodes.{children};
ghost use Rattle.ofx_types.specs.Printable.{IsPrintableList};
ghost use Rattle.ofx_types.specs.ReplyForm as form;
ghost use Rattle.ofx_types.specs.ReplyReading as reading;
ghost use Rattle.msg_statement.specs.StatementSteps as steps;

use ofx_tree::{Cursor, Sheet};
use ofx_types::{Lines, OutOfMemory, StatementLine, StatementList, TreeFault};
use std::alloc::Global;

/// The most digits of a transaction's number.
const MAX_DIGITS: usize = 10;

/// The transactions of a period, where they are.
pub(crate) fn read_maybe_list(
    alloc: Global,
    banktranlist: Option<Cursor<'_>>,
) -> Result<Option<StatementList>, TreeFault>
    ensures { ReadsForm result (reading.list_in banktranlist.entry) }
{
    match banktranlist {
        None => Ok(None),
        Some(banktranlist) => Ok(Some(read_list(alloc, &banktranlist)?)),
    }
}

#[tactic(auto, unfolding(ofx_types::specs::ReplyReading::list_of))]
fn read_list(alloc: Global, banktranlist: &Cursor<'_>) -> Result<StatementList, TreeFault>
    ensures { ReadsForm result (reading.list_of banktranlist.now) }
{
    let start = banktranlist.moment(b"DTSTART")?;
    let end = banktranlist.moment(b"DTEND")?;
    let lines = read_lines(alloc, banktranlist)?;
    Ok(StatementList { start, end, lines })
}

/// The lines of a list in the order of the file.
#[tactic(auto, using(crate::proofs::LineSteps::rest))]
fn read_lines(alloc: Global, banktranlist: &Cursor<'_>) -> Result<Lines, TreeFault>
    ensures { ReadsForm result (reading.lines_of (children banktranlist.now)) }
{
    let mut lines = Lines::new(alloc);
    for child in banktranlist.children() {
        put(line_at(&child)?, &mut lines)?;
    }
    Ok(lines)
}

/// Puts a line after the others, where there is one.
fn put(found: Option<StatementLine>, lines: &mut Lines) -> Result<(), TreeFault>
    ensures ok { OnOk result (lines.new ≡ lines.old ++ option_to_list found) }
    ensures err { IfErr result (λ fault. fault ≡ TreeFault.OutOfMemory) }
{
    let Some(line) = found else {
        return Ok(());
    };
    match lines.push(line) {
        Ok(()) => Ok(()),
        Err(OutOfMemory) => Err(TreeFault::OutOfMemory),
    }
}

/// The line that a child of the list is. A child of another name is skipped.
#[tactic(auto, unfolding(crate::specs::StatementSteps::line_at))]
fn line_at(child: &Cursor<'_>) -> Result<Option<StatementLine>, TreeFault>
    ensures { ReadsForm result (steps.line_at child.now) }
{
    if child.name() == b"STMTTRN".as_slice() {
        return Ok(Some(read_line(child)?));
    }
    Ok(None)
}

/// A posted transaction.
#[tactic(auto, unfolding(ofx_types::specs::ReplyReading::line_of))]
fn read_line(stmttrn: &Cursor<'_>) -> Result<StatementLine, TreeFault>
    ensures { ReadsForm result (reading.line_of stmttrn.now) }
{
    let posted = stmttrn.moment(b"DTPOSTED")?;
    let amount = stmttrn.amount(b"TRNAMT")?;
    let number = stmttrn.number(b"FITID", MAX_DIGITS)?;
    Ok(StatementLine {
        number,
        posted,
        amount,
    })
}

/// Writes the transactions of a period, where there are any asked for.
#[tactic(auto, unfolding(ofx_types::specs::ReplyForm::statement_list))]
pub(crate) fn print_maybe_list(
    list: &Option<StatementList>,
    sheet: &mut Sheet,
) -> Result<(), OutOfMemory>
    requires { ForSome list.now IsPrintableList }
    ensures ok { OnOk result (sheet.new ≡ sheet.old ++ form.statement_list list.now) }
    ensures kept { StartsWith sheet.new sheet.old }
{
    match list {
        Some(list) => print_list(list, sheet),
        None => Ok(()),
    }
}

#[tactic(auto, unfolding(ofx_types::specs::ReplyForm::statement_list, ofx_types::specs::Sheet::aggregate))]
fn print_list(list: &StatementList, sheet: &mut Sheet) -> Result<(), OutOfMemory>
    requires { IsPrintableList list.now }
    ensures ok { OnOk result (sheet.new ≡ sheet.old ++ form.statement_list (Some list.now)) }
    ensures kept { StartsWith sheet.new sheet.old }
{
    sheet.start(b"BANKTRANLIST")?;
    sheet.moment(b"DTSTART", list.start)?;
    sheet.moment(b"DTEND", list.end)?;
    print_lines(list.lines.items(), sheet)?;
    sheet.end(b"BANKTRANLIST")
}

fn print_lines(lines: &[StatementLine], sheet: &mut Sheet) -> Result<(), OutOfMemory>
    requires { AllByRecursion (λ line. IsMoment line.posted.0) lines.now }
    ensures ok { OnOk result (sheet.new ≡ sheet.old ++ flat_map form.statement_line lines.now) }
    ensures kept { StartsWith sheet.new sheet.old }
{
    for line in lines {
        print_line(line, sheet)?;
    }
    Ok(())
}

/// Writes a posted transfer.
#[tactic(auto, unfolding(ofx_types::specs::ReplyForm::statement_line, ofx_types::specs::Sheet::aggregate))]
fn print_line(line: &StatementLine, sheet: &mut Sheet) -> Result<(), OutOfMemory>
    requires { IsMoment line.now.posted.0 }
    ensures ok { OnOk result (sheet.new ≡ sheet.old ++ form.statement_line line.now) }
    ensures kept { StartsWith sheet.new sheet.old }
{
    sheet.start(b"STMTTRN")?;
    sheet.element(b"TRNTYPE", b"XFER")?;
    sheet.moment(b"DTPOSTED", line.posted)?;
    sheet.amount(b"TRNAMT", line.amount)?;
    sheet.number(b"FITID", line.number)?;
    sheet.end(b"STMTTRN")
}
