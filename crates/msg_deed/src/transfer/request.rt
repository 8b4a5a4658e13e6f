//! The three requests of transfers (INTRARQ, INTRAMODRQ, INTRACANRQ), read and written.

ghost use Rattle.std.specs.Prelude.{◌≡◌, ◌++◌, OnOk};
ghost use Rattle.std.specs.Io.{StartsWith};
ghost use Rattle.std.specs.Option.{IfSome};
ghost use Rattle.ofx_types.specs.Calendar.{IsDay};
ghost use Rattle.ofx_types.specs.FormWords.{ReadsForm};
ghost use Rattle.ofx_types.specs.TransferReading as reading;
ghost use Rattle.ofx_types.specs.DeedText as text;

use crate::transfer::info::{print_info, read_info_in};
use ofx_tree::{Cursor, Sheet};
use ofx_types::{Deed, OutOfMemory, TreeFault, XferInfo};
use std::alloc::Global;

/// The transfer that is asked for.
#[tactic(auto, unfolding(ofx_types::specs::TransferReading::transfer_of))]
pub(crate) fn read_transfer(alloc: Global, intrarq: &Cursor<'_>) -> Result<Deed, TreeFault>
    ensures { ReadsForm result (reading.transfer_of intrarq.now) }
{
    let info = read_info_in(alloc, intrarq)?;
    Ok(Deed::Transfer(info))
}

/// The change of a transfer that is asked for.
#[tactic(auto, unfolding(ofx_types::specs::TransferReading::modify_of))]
pub(crate) fn read_modify(alloc: Global, intramodrq: &Cursor<'_>) -> Result<Deed, TreeFault>
    ensures { ReadsForm result (reading.modify_of intramodrq.now) }
{
    let id = intramodrq.id(b"SRVRTID")?;
    let info = read_info_in(alloc, intramodrq)?;
    Ok(Deed::ModifyTransfer(id, info))
}

/// The cancellation of a transfer that is asked for.
#[tactic(auto, unfolding(ofx_types::specs::TransferReading::cancel_of))]
pub(crate) fn read_cancel(intracanrq: &Cursor<'_>) -> Result<Deed, TreeFault>
    ensures { ReadsForm result (reading.cancel_of intracanrq.now) }
{
    let id = intracanrq.id(b"SRVRTID")?;
    Ok(Deed::CancelTransfer(id))
}

/// Writes the request to make a transfer.
#[tactic(auto, unfolding(ofx_types::specs::DeedText::request_text), using(msg_parts::proofs::Joined::joined))]
pub(crate) fn print_transfer(info: &XferInfo, sheet: &mut Sheet) -> Result<(), OutOfMemory>
    requires { IfSome info.now.due (λ day. IsDay day.0) }
    ensures ok { OnOk result (sheet.new ≡ sheet.old ++ text.request_text (Deed.Transfer info.now)) }
    ensures kept { StartsWith sheet.new sheet.old }
{
    sheet.start(b"INTRARQ")?;
    print_info(&info.from, &info.to, info.amount, info.due, sheet)?;
    sheet.end(b"INTRARQ")
}

/// Writes the request to change a transfer.
#[tactic(auto, unfolding(ofx_types::specs::DeedText::request_text), using(msg_parts::proofs::Joined::joined))]
pub(crate) fn print_modify(id: u64, info: &XferInfo, sheet: &mut Sheet) -> Result<(), OutOfMemory>
    requires { IfSome info.now.due (λ day. IsDay day.0) }
    ensures ok { OnOk result (sheet.new ≡ sheet.old ++ text.request_text (Deed.ModifyTransfer id info.now)) }
    ensures kept { StartsWith sheet.new sheet.old }
{
    sheet.start(b"INTRAMODRQ")?;
    sheet.number(b"SRVRTID", id)?;
    print_info(&info.from, &info.to, info.amount, info.due, sheet)?;
    sheet.end(b"INTRAMODRQ")
}

/// Writes the request to cancel a transfer.
#[tactic(auto, unfolding(ofx_types::specs::DeedText::request_text), using(msg_parts::proofs::Joined::joined))]
pub(crate) fn print_cancel(id: u64, sheet: &mut Sheet) -> Result<(), OutOfMemory>
    ensures ok { OnOk result (sheet.new ≡ sheet.old ++ text.request_text (Deed.CancelTransfer id)) }
    ensures kept { StartsWith sheet.new sheet.old }
{
    sheet.start(b"INTRACANRQ")?;
    sheet.number(b"SRVRTID", id)?;
    sheet.end(b"INTRACANRQ")
}
