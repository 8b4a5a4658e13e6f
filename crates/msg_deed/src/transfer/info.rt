//! What is said of a transfer (XFERINFO), read and written.

ghost use Rattle.std.specs.Prelude.{◌≡◌, ◌++◌, OnOk};
ghost use Rattle.std.specs.Io.{StartsWith};
ghost use Rattle.std.specs.Option.{IfSome};
ghost use Rattle.ofx_types.specs.Calendar.{IsDay, IsMoment};
ghost use Rattle.ofx_types.specs.FormWords.{ReadsForm};
ghost use Rattle.ofx_types.specs.TransferReading as reading;
ghost use Rattle.ofx_types.specs.TransferText as form;
ghost use Rattle.msg_deed.specs.DeedSteps as steps;

use msg_parts::{print_account, print_destination, read_account};
use ofx_tree::{Cursor, Sheet};
use ofx_types::{AcctName, Cents, Day, Moment, OutOfMemory, TreeFault, XferInfo};
use ofx_values::{day_of, midnight};
use std::alloc::Global;
use std::marker::Model;

/// What the XFERINFO of a reply says, which always has a due day.
#[derive(Debug, Drop)]
pub(crate) struct DueInfo {
    pub(crate) info: XferInfo,
    pub(crate) due: Day,
}

impl Model for DueInfo {
    ghost use Rattle.ofx_types.specs.TransferReading as reading;

    ghost Value = { reading.DueInfo };

    ghost view = { λ asked. record { info = asked.info; due = asked.due } };
}

/// What the XFERINFO of a request or a reply says.
#[tactic(auto, unfolding(ofx_types::specs::TransferReading::info_in))]
pub(crate) fn read_info_in(alloc: Global, parent: &Cursor<'_>) -> Result<XferInfo, TreeFault>
    ensures { ReadsForm result (reading.info_in parent.now) }
{
    let xferinfo = parent.one(b"XFERINFO")?;
    read_info(alloc, &xferinfo)
}

/// What an XFERINFO says.
#[tactic(auto, unfolding(ofx_types::specs::TransferReading::info_of), using(crate::proofs::DueDays::due_moments))]
fn read_info(alloc: Global, xferinfo: &Cursor<'_>) -> Result<XferInfo, TreeFault>
    ensures { ReadsForm result (reading.info_of xferinfo.now) }
{
    let from = read_account(alloc, &xferinfo.one(b"BANKACCTFROM")?)?;
    let to = read_account(alloc, &xferinfo.one(b"BANKACCTTO")?)?;
    let amount = xferinfo.amount(b"TRNAMT")?;
    let due = due_of(xferinfo.maybe_moment(b"DTDUE")?);
    Ok(XferInfo {
        from,
        to,
        amount,
        due,
    })
}

/// The day of a moment in GMT.
fn due_of(moment: Option<Moment>) -> Option<Day>
    requires { IfSome moment (λ at. IsMoment at.0) }
    ensures { result ≡ reading.due_of moment }
{
    match moment {
        Some(moment) => Some(day_of(moment)),
        None => None,
    }
}

/// What the XFERINFO of a reply says, which must have a due day.
#[tactic(auto, unfolding(ofx_types::specs::TransferReading::due_info_in))]
pub(crate) fn read_due_info_in(alloc: Global, parent: &Cursor<'_>) -> Result<DueInfo, TreeFault>
    ensures { ReadsForm result (reading.due_info_in parent.now) }
{
    let xferinfo = parent.one(b"XFERINFO")?;
    read_due_info(alloc, &xferinfo)
}

#[tactic(auto, unfolding(ofx_types::specs::TransferReading::due_info_of))]
fn read_due_info(alloc: Global, xferinfo: &Cursor<'_>) -> Result<DueInfo, TreeFault>
    ensures { ReadsForm result (reading.due_info_of xferinfo.now) }
{
    let info = read_info(alloc, xferinfo)?;
    let due = day_or(info.due, xferinfo.offset() as u64)?;
    Ok(DueInfo { info, due })
}

/// The due day, or `Missing` at the offset of its aggregate where there is none.
fn day_or(due: Option<Day>, offset: u64) -> Result<Day, TreeFault>
    ensures { result ≡ reading.day_or offset due }
{
    match due {
        Some(day) => Ok(day),
        None => Err(TreeFault::Missing(offset)),
    }
}

/// Writes what is said of a transfer. Its due day lies in the years 1900 to 9999.
#[tactic(auto, unfolding(ofx_types::specs::TransferText::info_text), using(msg_parts::proofs::Joined::joined))]
pub(crate) fn print_info(
    from: &AcctName,
    to: &AcctName,
    amount: Cents,
    due: Option<Day>,
    sheet: &mut Sheet,
) -> Result<(), OutOfMemory>
    requires { IfSome due (λ day. IsDay day.0) }
    ensures ok { OnOk result (sheet.new ≡ sheet.old ++ form.info_text (steps.info_with from.now to.now amount due)) }
    ensures kept { StartsWith sheet.new sheet.old }
{
    sheet.start(b"XFERINFO")?;
    print_account(from, sheet)?;
    print_destination(to, sheet)?;
    sheet.amount(b"TRNAMT", amount)?;
    print_due(due, sheet)?;
    sheet.end(b"XFERINFO")
}

/// Writes a due day, where there is one, as its midnight in GMT.
#[tactic(auto, unfolding(ofx_types::specs::TransferText::due_text))]
fn print_due(due: Option<Day>, sheet: &mut Sheet) -> Result<(), OutOfMemory>
    requires { IfSome due (λ day. IsDay day.0) }
    ensures ok { OnOk result (sheet.new ≡ sheet.old ++ form.due_text due) }
    ensures kept { StartsWith sheet.new sheet.old }
{
    match due {
        Some(day) => sheet.moment(b"DTDUE", midnight(day)),
        None => Ok(()),
    }
}
