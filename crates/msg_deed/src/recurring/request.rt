//! The three requests of recurring transfers (RECINTRARQ, RECINTRAMODRQ, RECINTRACANRQ), read and written.

ghost use Rattle.std.specs.Prelude.{◌≡◌, ◌++◌, OnOk};
ghost use Rattle.std.specs.Io.{StartsWith};
ghost use Rattle.std.specs.Option.{IfSome};
ghost use Rattle.ofx_types.specs.Calendar.{IsDay};
ghost use Rattle.ofx_types.specs.FormWords.{ReadsForm};
ghost use Rattle.ofx_types.specs.RecurringReading as reading;
ghost use Rattle.ofx_types.specs.DeedText as text;

use crate::recurring::recur::{print_recur, read_recur_in};
use crate::transfer::{print_info, read_info_in};
use msg_parts::print_flag;
use ofx_tree::{Cursor, Sheet};
use ofx_types::{Deed, OutOfMemory, Recur, TreeFault, XferInfo};
use std::alloc::Global;

/// The recurring transfer that is asked for.
#[tactic(auto, unfolding(ofx_types::specs::RecurringReading::model_of))]
pub(crate) fn read_model(alloc: Global, recintrarq: &Cursor<'_>) -> Result<Deed, TreeFault>
    ensures { ReadsForm result (reading.model_of recintrarq.now) }
{
    let recur = read_recur_in(recintrarq)?;
    let info = read_each_info_in(alloc, recintrarq)?;
    Ok(Deed::Model(recur, info))
}

/// The change of a recurring transfer that is asked for.
#[tactic(auto, unfolding(ofx_types::specs::RecurringReading::modify_model_of))]
pub(crate) fn read_modify_model(
    alloc: Global,
    recintramodrq: &Cursor<'_>,
) -> Result<Deed, TreeFault>
    ensures { ReadsForm result (reading.modify_model_of recintramodrq.now) }
{
    let id = recintramodrq.id(b"RECSRVRTID")?;
    let recur = read_recur_in(recintramodrq)?;
    let info = read_each_info_in(alloc, recintramodrq)?;
    let pending = recintramodrq.flag(b"MODPENDING")?;
    Ok(Deed::ModifyModel(id, recur, info, pending))
}

/// The cancellation of a recurring transfer that is asked for.
#[tactic(auto, unfolding(ofx_types::specs::RecurringReading::cancel_model_of))]
pub(crate) fn read_cancel_model(recintracanrq: &Cursor<'_>) -> Result<Deed, TreeFault>
    ensures { ReadsForm result (reading.cancel_model_of recintracanrq.now) }
{
    let id = recintracanrq.id(b"RECSRVRTID")?;
    let pending = recintracanrq.flag(b"CANPENDING")?;
    Ok(Deed::CancelModel(id, pending))
}

/// What the inner INTRARQ says of each transfer.
#[tactic(auto, unfolding(ofx_types::specs::RecurringReading::each_info_in))]
fn read_each_info_in(alloc: Global, parent: &Cursor<'_>) -> Result<XferInfo, TreeFault>
    ensures { ReadsForm result (reading.each_info_in parent.now) }
{
    let intrarq = parent.one(b"INTRARQ")?;
    read_info_in(alloc, &intrarq)
}

/// Writes the request to make a recurring transfer.
#[tactic(auto, unfolding(ofx_types::specs::DeedText::request_text), using(msg_parts::proofs::Joined::joined))]
pub(crate) fn print_model(
    recur: Recur,
    info: &XferInfo,
    sheet: &mut Sheet,
) -> Result<(), OutOfMemory>
    requires { IfSome info.now.due (λ day. IsDay day.0) }
    ensures ok { OnOk result (sheet.new ≡ sheet.old ++ text.request_text (Deed.Model recur info.now)) }
    ensures kept { StartsWith sheet.new sheet.old }
{
    sheet.start(b"RECINTRARQ")?;
    print_recur(recur, sheet)?;
    print_each_info(info, sheet)?;
    sheet.end(b"RECINTRARQ")
}

/// Writes the request to change a recurring transfer.
#[tactic(auto, unfolding(ofx_types::specs::DeedText::request_text), using(msg_parts::proofs::Joined::joined))]
pub(crate) fn print_modify_model(
    id: u64,
    recur: Recur,
    info: &XferInfo,
    pending: bool,
    sheet: &mut Sheet,
) -> Result<(), OutOfMemory>
    requires { IfSome info.now.due (λ day. IsDay day.0) }
    ensures ok { OnOk result (sheet.new ≡ sheet.old ++ text.request_text (Deed.ModifyModel id recur info.now pending)) }
    ensures kept { StartsWith sheet.new sheet.old }
{
    sheet.start(b"RECINTRAMODRQ")?;
    sheet.number(b"RECSRVRTID", id)?;
    print_recur(recur, sheet)?;
    print_each_info(info, sheet)?;
    print_flag(b"MODPENDING", pending, sheet)?;
    sheet.end(b"RECINTRAMODRQ")
}

/// Writes the request to cancel a recurring transfer.
#[tactic(auto, unfolding(ofx_types::specs::DeedText::request_text), using(msg_parts::proofs::Joined::joined))]
pub(crate) fn print_cancel_model(
    id: u64,
    pending: bool,
    sheet: &mut Sheet,
) -> Result<(), OutOfMemory>
    ensures ok { OnOk result (sheet.new ≡ sheet.old ++ text.request_text (Deed.CancelModel id pending)) }
    ensures kept { StartsWith sheet.new sheet.old }
{
    sheet.start(b"RECINTRACANRQ")?;
    sheet.number(b"RECSRVRTID", id)?;
    print_flag(b"CANPENDING", pending, sheet)?;
    sheet.end(b"RECINTRACANRQ")
}

/// Writes the inner INTRARQ, which says what each transfer is like.
#[tactic(auto, unfolding(ofx_types::specs::DeedText::each_text), using(msg_parts::proofs::Joined::joined))]
fn print_each_info(info: &XferInfo, sheet: &mut Sheet) -> Result<(), OutOfMemory>
    requires { IfSome info.now.due (λ day. IsDay day.0) }
    ensures ok { OnOk result (sheet.new ≡ sheet.old ++ text.each_text info.now) }
    ensures kept { StartsWith sheet.new sheet.old }
{
    sheet.start(b"INTRARQ")?;
    print_info(&info.from, &info.to, info.amount, info.due, sheet)?;
    sheet.end(b"INTRARQ")
}
