//! What a reply says was done to a transfer (INTRARS, INTRAMODRS, INTRACANRS), read and written.

ghost use Rattle.std.specs.Prelude.{◌≡◌, ◌++◌, OnOk};
ghost use Rattle.std.specs.Io.{StartsWith};
ghost use Rattle.ofx_types.specs.FormWords.{ReadsForm};
ghost use Rattle.ofx_types.specs.Printable.{IsPrintableRow};
ghost use Rattle.ofx_types.specs.TransferReading as reading;
ghost use Rattle.ofx_types.specs.TransferText as form;
ghost use Rattle.ofx_types.specs.TransferForm.{info_of};
ghost use Rattle.ofx_types.specs.DeedText as text;

use crate::transfer::info::{print_info, read_due_info_in};
use crate::transfer::processing::{print_processing, read_processing_in};
use ofx_tree::{Cursor, Sheet};
use ofx_types::{Change, OutOfMemory, TransferRow, TreeFault};
use std::alloc::Global;

/// A new transfer.
#[tactic(auto, unfolding(ofx_types::specs::TransferReading::new_of))]
pub(crate) fn read_new(alloc: Global, intrars: &Cursor<'_>) -> Result<Change, TreeFault>
    ensures { ReadsForm result (reading.new_of intrars.now) }
{
    let id = intrars.id(b"SRVRTID")?;
    let asked = read_due_info_in(alloc, intrars)?;
    let model = intrars.maybe_id(b"RECSRVRTID")?;
    let (code, stamp) = read_processing_in(intrars)?;
    Ok(Change::NewTransfer(TransferRow {
        id,
        model,
        from: asked.info.from,
        to: asked.info.to,
        amount: asked.info.amount,
        due: asked.due,
        code,
        stamp,
    }))
}

/// A changed transfer, of which the reply says no recurring transfer.
#[tactic(auto, unfolding(ofx_types::specs::TransferReading::set_of))]
pub(crate) fn read_set(alloc: Global, intramodrs: &Cursor<'_>) -> Result<Change, TreeFault>
    ensures { ReadsForm result (reading.set_of intramodrs.now) }
{
    let id = intramodrs.id(b"SRVRTID")?;
    let asked = read_due_info_in(alloc, intramodrs)?;
    let (code, stamp) = read_processing_in(intramodrs)?;
    Ok(Change::SetTransfer(TransferRow {
        id,
        model: 0,
        from: asked.info.from,
        to: asked.info.to,
        amount: asked.info.amount,
        due: asked.due,
        code,
        stamp,
    }))
}

/// A cancelled transfer.
#[tactic(auto, unfolding(ofx_types::specs::TransferReading::drop_of))]
pub(crate) fn read_drop(intracanrs: &Cursor<'_>) -> Result<Change, TreeFault>
    ensures { ReadsForm result (reading.drop_of intracanrs.now) }
{
    let id = intracanrs.id(b"SRVRTID")?;
    Ok(Change::DropTransfer(id))
}

/// Writes the reply about a new transfer.
#[tactic(auto, unfolding(ofx_types::specs::DeedText::change_text), using(msg_parts::proofs::Joined::joined))]
pub(crate) fn print_new(row: &TransferRow, sheet: &mut Sheet) -> Result<(), OutOfMemory>
    requires { IsPrintableRow row.now }
    ensures ok { OnOk result (sheet.new ≡ sheet.old ++ text.change_text (Change.NewTransfer row.now)) }
    ensures kept { StartsWith sheet.new sheet.old }
{
    sheet.start(b"INTRARS")?;
    sheet.element(b"CURDEF", b"USD")?;
    sheet.number(b"SRVRTID", row.id)?;
    print_row_info(row, sheet)?;
    print_model(row.model, sheet)?;
    print_processing(row.code, row.stamp, sheet)?;
    sheet.end(b"INTRARS")
}

/// Writes the reply about a changed transfer.
#[tactic(auto, unfolding(ofx_types::specs::DeedText::change_text), using(msg_parts::proofs::Joined::joined))]
pub(crate) fn print_set(row: &TransferRow, sheet: &mut Sheet) -> Result<(), OutOfMemory>
    requires { IsPrintableRow row.now }
    ensures ok { OnOk result (sheet.new ≡ sheet.old ++ text.change_text (Change.SetTransfer row.now)) }
    ensures kept { StartsWith sheet.new sheet.old }
{
    sheet.start(b"INTRAMODRS")?;
    sheet.number(b"SRVRTID", row.id)?;
    print_row_info(row, sheet)?;
    print_processing(row.code, row.stamp, sheet)?;
    sheet.end(b"INTRAMODRS")
}

/// Writes the reply about a cancelled transfer.
#[tactic(auto, unfolding(ofx_types::specs::DeedText::change_text), using(msg_parts::proofs::Joined::joined))]
pub(crate) fn print_drop(id: u64, sheet: &mut Sheet) -> Result<(), OutOfMemory>
    ensures ok { OnOk result (sheet.new ≡ sheet.old ++ text.change_text (Change.DropTransfer id)) }
    ensures kept { StartsWith sheet.new sheet.old }
{
    sheet.start(b"INTRACANRS")?;
    sheet.number(b"SRVRTID", id)?;
    sheet.end(b"INTRACANRS")
}

/// Writes what a row says in its XFERINFO.
fn print_row_info(row: &TransferRow, sheet: &mut Sheet) -> Result<(), OutOfMemory>
    requires { IsPrintableRow row.now }
    ensures ok { OnOk result (sheet.new ≡ sheet.old ++ form.info_text (info_of row.now)) }
    ensures kept { StartsWith sheet.new sheet.old }
{
    print_info(&row.from, &row.to, row.amount, Some(row.due), sheet)
}

/// Writes the recurring transfer that made a transfer, where one did.
#[tactic(auto, unfolding(ofx_types::specs::TransferText::model_text))]
fn print_model(model: u64, sheet: &mut Sheet) -> Result<(), OutOfMemory>
    ensures ok { OnOk result (sheet.new ≡ sheet.old ++ form.model_text model) }
    ensures kept { StartsWith sheet.new sheet.old }
{
    if model == 0 {
        return Ok(());
    }
    sheet.number(b"RECSRVRTID", model)
}
