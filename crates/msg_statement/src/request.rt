//! A statement request (STMTTRNRQ) and the period of its transactions (INCTRAN), read and written.

ghost use Rattle.std.specs.Prelude.{◌≡◌, ◌++◌, OnOk, codes};
ghost use Rattle.std.specs.Io.{StartsWith};
ghost use Rattle.std.specs.Option.{option_map, IfSome};
ghost use Rattle.ofx_types.specs.Calendar.{IsMoment};
ghost use Rattle.ofx_types.specs.FormWords.{ReadsForm};
ghost use Rattle.ofx_types.specs.RequestReading as reading;
ghost use Rattle.ofx_types.specs.RequestReading.{statement_of};
ghost use Rattle.ofx_types.specs.RequestText as form;
ghost use Rattle.ofx_types.specs.RequestText.{statement_request};
ghost use Rattle.msg_statement.specs.StatementSteps as steps;

use msg_parts::{print_account, print_flag, print_trnuid, read_account, read_own_trnuid};
use ofx_tree::{Cursor, Sheet};
use ofx_types::{AcctName, Ask, Moment, OutOfMemory, Period, TreeFault, TrnUid};
use std::alloc::Global;

/// The ask that a statement request (STMTTRNRQ) is.
///
/// The first fault of its form, with its offset; `OutOfMemory` where memory for its texts is refused.
///
/// ```rust
/// use msg_statement::read_statement;
/// use ofx_tape::Tape;
/// use ofx_tree::Cursor;
/// use ofx_types::Ask;
///
/// let body = b"<OFX><STMTTRNRQ><TRNUID>t1<STMTRQ>\
///     <BANKACCTFROM><BANKID>1<ACCTID>1001<ACCTTYPE>CHECKING</BANKACCTFROM>\
///     </STMTRQ></STMTTRNRQ></OFX>";
/// let tape = Tape::read(rt.alloc(), body).expect(&rt, "a tape");
/// let request = Cursor::root(&tape)
///     .one(b"STMTTRNRQ")
///     .expect(&rt, "a request");
/// let Ok(Ask::Statement(uid, account, None)) = read_statement(rt.alloc(), &request) else {
///     panic!(rt; "a statement without a list");
/// };
/// assert!(rt; uid.as_bytes() == b"t1".as_slice());
/// assert!(rt; account.number.as_bytes() == b"1001".as_slice());
/// ```
#[tactic(auto, unfolding(ofx_types::specs::RequestReading::statement_of))]
pub fn read_statement(alloc: Global, c: &Cursor<'_>) -> Result<Ask, TreeFault>
    ensures { ReadsForm result (statement_of c.now) }
{
    let trnuid = read_own_trnuid(alloc, c)?;
    let stmtrq = c.one(b"STMTRQ")?;
    let account = read_account(alloc, &stmtrq.one(b"BANKACCTFROM")?)?;
    let period = read_maybe_period(stmtrq.maybe(b"INCTRAN")?)?;
    Ok(Ask::Statement(trnuid, account, period))
}

/// The period of the transactions, where one is asked for.
fn read_maybe_period(inctran: Option<Cursor<'_>>) -> Result<Option<Period>, TreeFault>
    ensures { ReadsForm result (reading.period_in inctran.entry) }
{
    match inctran {
        None => Ok(None),
        Some(inctran) => Ok(Some(read_period(&inctran)?)),
    }
}

#[tactic(auto, unfolding(ofx_types::specs::RequestReading::period_of))]
fn read_period(inctran: &Cursor<'_>) -> Result<Period, TreeFault>
    ensures { ReadsForm result (reading.period_of inctran.now) }
{
    let start = inctran.maybe_moment(b"DTSTART")?;
    let end = inctran.maybe_moment(b"DTEND")?;
    let include = inctran.flag(b"INCLUDE")?;
    Ok(Period {
        start,
        end,
        include,
    })
}

/// Writes a statement request. The moments of its period lie in the years 1900 to 9999.
#[tactic(auto, unfolding(ofx_types::specs::RequestText::statement_request, ofx_types::specs::Sheet::aggregate))]
pub fn print_statement(
    trnuid: &TrnUid,
    account: &AcctName,
    period: Option<&Period>,
    out: &mut Sheet,
) -> Result<(), OutOfMemory>
    requires start { IfSome period (λ p. IfSome p.now.start (λ at. IsMoment at.0)) }
    requires end { IfSome period (λ p. IfSome p.now.end (λ at. IsMoment at.0)) }
    ensures ok { OnOk result (out.new ≡ out.old ++ statement_request trnuid.now account.now (option_map (λ p. p.now) period.entry)) }
    ensures kept { StartsWith out.new out.old }
{
    out.start(b"STMTTRNRQ")?;
    print_trnuid(trnuid, out)?;
    print_asked(account, period, out)?;
    out.end(b"STMTTRNRQ")
}

/// Writes what is in the wrapper after its uid.
#[tactic(auto, unfolding(ofx_types::specs::Sheet::aggregate))]
fn print_asked(
    account: &AcctName,
    period: Option<&Period>,
    sheet: &mut Sheet,
) -> Result<(), OutOfMemory>
    requires start { IfSome period (λ p. IfSome p.now.start (λ at. IsMoment at.0)) }
    requires end { IfSome period (λ p. IfSome p.now.end (λ at. IsMoment at.0)) }
    ensures ok { OnOk result (sheet.new ≡ sheet.old ++ steps.asked account.now (option_map (λ p. p.now) period.entry)) }
    ensures kept { StartsWith sheet.new sheet.old }
{
    sheet.start(b"STMTRQ")?;
    print_account(account, sheet)?;
    print_maybe_period(period, sheet)?;
    sheet.end(b"STMTRQ")
}

/// Writes the period, where one is asked for.
#[tactic(auto, unfolding(ofx_types::specs::RequestText::period_request))]
fn print_maybe_period(period: Option<&Period>, sheet: &mut Sheet) -> Result<(), OutOfMemory>
    requires start { IfSome period (λ p. IfSome p.now.start (λ at. IsMoment at.0)) }
    requires end { IfSome period (λ p. IfSome p.now.end (λ at. IsMoment at.0)) }
    ensures ok { OnOk result (sheet.new ≡ sheet.old ++ form.period_request (option_map (λ p. p.now) period.entry)) }
    ensures kept { StartsWith sheet.new sheet.old }
{
    match period {
        Some(period) => print_period(period, sheet),
        None => Ok(()),
    }
}

#[tactic(auto, unfolding(ofx_types::specs::RequestText::period_request, ofx_types::specs::Sheet::aggregate))]
fn print_period(period: &Period, sheet: &mut Sheet) -> Result<(), OutOfMemory>
    requires start { IfSome period.now.start (λ at. IsMoment at.0) }
    requires end { IfSome period.now.end (λ at. IsMoment at.0) }
    ensures ok { OnOk result (sheet.new ≡ sheet.old ++ form.period_request (Some period.now)) }
    ensures kept { StartsWith sheet.new sheet.old }
{
    sheet.start(b"INCTRAN")?;
    print_maybe_moment(b"DTSTART", period.start, sheet)?;
    print_maybe_moment(b"DTEND", period.end, sheet)?;
    print_flag(b"INCLUDE", period.include, sheet)?;
    sheet.end(b"INCTRAN")
}

/// Writes a moment, where there is one.
#[tactic(auto, unfolding(ofx_types::specs::RequestText::maybe_moment))]
fn print_maybe_moment(
    name: &[u8],
    moment: Option<Moment>,
    sheet: &mut Sheet,
) -> Result<(), OutOfMemory>
    requires { IfSome moment (λ at. IsMoment at.0) }
    ensures ok { OnOk result (sheet.new ≡ sheet.old ++ form.maybe_moment name.now moment) }
    ensures kept { StartsWith sheet.new sheet.old }
{
    match moment {
        Some(moment) => sheet.moment(name, moment),
        None => Ok(()),
    }
}
