//! The reply to a statement request (STMTTRNRS) and its statement (STMTRS), read and written.

ghost use Rattle.std.specs.Prelude.{◌≡◌, ◌++◌, OnOk, codes};
ghost use Rattle.std.specs.Io.{StartsWith};
ghost use Rattle.std.specs.Option.{option_map, IfSome};
ghost use Rattle.ofx_types.specs.Calendar.{IsMoment};
ghost use Rattle.ofx_types.specs.FormWords.{ReadsForm};
ghost use Rattle.ofx_types.specs.Printable.{HasBodyByCode, IsPrintableBody};
ghost use Rattle.ofx_types.specs.ReplyForm as form;
ghost use Rattle.ofx_types.specs.ReplyForm.{ask_reply};
ghost use Rattle.ofx_types.specs.ReplyReading as reading;
ghost use Rattle.ofx_types.specs.ReplyReading.{statement_reply_of};

use crate::list::{print_maybe_list, read_maybe_list};
use msg_parts::{
    print_account, print_status, print_trnuid, read_account, read_status, read_trnuid,
};
use ofx_tree::{Cursor, Sheet};
use ofx_types::{AskReply, Cents, Moment, OutOfMemory, StatementBody, TreeFault, TrnUid};
use std::alloc::Global;

/// The answer that a statement reply (STMTTRNRS) is. With a code other than 0 no statement is looked for.
///
/// The first fault of its form, with its offset; `OutOfMemory` where memory for its texts or its lines is refused.
#[tactic(auto, unfolding(ofx_types::specs::ReplyReading::statement_reply_of))]
pub fn read_statement_reply(alloc: Global, c: &Cursor<'_>) -> Result<AskReply, TreeFault>
    ensures { ReadsForm result (statement_reply_of c.now) }
{
    let trnuid = read_trnuid(alloc, c)?;
    let code = read_status(c)?;
    let body = read_body_by_code(alloc, code, c)?;
    Ok(AskReply::Statement(trnuid, code, body))
}

/// The statement, where the code is 0.
#[tactic(auto, unfolding(ofx_types::specs::ReplyReading::body_by_code))]
fn read_body_by_code(
    alloc: Global,
    code: u16,
    stmttrnrs: &Cursor<'_>,
) -> Result<Option<StatementBody>, TreeFault>
    ensures { ReadsForm result (reading.body_by_code code stmttrnrs.now) }
{
    if code == 0 {
        let stmtrs = stmttrnrs.one(b"STMTRS")?;
        return Ok(Some(read_body(alloc, &stmtrs)?));
    }
    Ok(None)
}

#[tactic(auto, unfolding(ofx_types::specs::ReplyReading::body_of))]
fn read_body(alloc: Global, stmtrs: &Cursor<'_>) -> Result<StatementBody, TreeFault>
    ensures { ReadsForm result (reading.body_of stmtrs.now) }
{
    let account = read_account(alloc, &stmtrs.one(b"BANKACCTFROM")?)?;
    let list = read_maybe_list(alloc, stmtrs.maybe(b"BANKTRANLIST")?)?;
    let (ledger, moment) = read_balance(&stmtrs.one(b"LEDGERBAL")?)?;
    let (available, _moment) = read_balance(&stmtrs.one(b"AVAILBAL")?)?;
    Ok(StatementBody {
        account,
        list,
        ledger,
        available,
        moment,
    })
}

/// A balance and the moment at which it was so.
#[tactic(auto, unfolding(ofx_types::specs::ReplyReading::balance_of))]
fn read_balance(balance: &Cursor<'_>) -> Result<(Cents, Moment), TreeFault>
    ensures { ReadsForm result (reading.balance_of balance.now) }
{
    let amount = balance.amount(b"BALAMT")?;
    let moment = balance.moment(b"DTASOF")?;
    Ok((amount, moment))
}

/// Writes the reply to a statement request. It has a statement exactly where its code is 0.
#[tactic(auto, unfolding(ofx_types::specs::ReplyForm::ask_reply, ofx_types::specs::Sheet::aggregate))]
pub fn print_statement_reply(
    trnuid: &TrnUid,
    code: u16,
    body: Option<&StatementBody>,
    out: &mut Sheet,
) -> Result<(), OutOfMemory>
    requires { HasBodyByCode code (option_map (λ b. b.now) body) }
    ensures ok { OnOk result (out.new ≡ out.old ++ ask_reply (AskReply.Statement trnuid.now code (option_map (λ b. b.now) body.entry))) }
    ensures kept { StartsWith out.new out.old }
{
    out.start(b"STMTTRNRS")?;
    print_trnuid(trnuid, out)?;
    print_status(code, out)?;
    print_maybe_body(body, out)?;
    out.end(b"STMTTRNRS")
}

/// Writes the statement, where there is one.
#[tactic(auto, unfolding(ofx_types::specs::ReplyForm::statement_body))]
fn print_maybe_body(body: Option<&StatementBody>, sheet: &mut Sheet) -> Result<(), OutOfMemory>
    requires { IfSome body (λ b. IsPrintableBody b.now) }
    ensures ok { OnOk result (sheet.new ≡ sheet.old ++ form.statement_body (option_map (λ b. b.now) body.entry)) }
    ensures kept { StartsWith sheet.new sheet.old }
{
    match body {
        Some(body) => print_body(body, sheet),
        None => Ok(()),
    }
}

#[tactic(auto, unfolding(ofx_types::specs::ReplyForm::statement_body, ofx_types::specs::Sheet::aggregate))]
fn print_body(body: &StatementBody, sheet: &mut Sheet) -> Result<(), OutOfMemory>
    requires { IsPrintableBody body.now }
    ensures ok { OnOk result (sheet.new ≡ sheet.old ++ form.statement_body (Some body.now)) }
    ensures kept { StartsWith sheet.new sheet.old }
{
    sheet.start(b"STMTRS")?;
    sheet.element(b"CURDEF", b"USD")?;
    print_account(&body.account, sheet)?;
    print_maybe_list(&body.list, sheet)?;
    print_balance(b"LEDGERBAL", body.ledger, body.moment, sheet)?;
    print_balance(b"AVAILBAL", body.available, body.moment, sheet)?;
    sheet.end(b"STMTRS")
}

/// Writes a balance at a moment.
#[tactic(auto, unfolding(ofx_types::specs::ReplyForm::balance, ofx_types::specs::Sheet::aggregate))]
fn print_balance(
    name: &[u8],
    amount: Cents,
    moment: Moment,
    sheet: &mut Sheet,
) -> Result<(), OutOfMemory>
    requires { IsMoment moment.0 }
    ensures ok { OnOk result (sheet.new ≡ sheet.old ++ form.balance name.now amount moment) }
    ensures kept { StartsWith sheet.new sheet.old }
{
    sheet.start(name)?;
    sheet.amount(b"BALAMT", amount)?;
    sheet.moment(b"DTASOF", moment)?;
    sheet.end(name)
}
