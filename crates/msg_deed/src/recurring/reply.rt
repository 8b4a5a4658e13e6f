//! What a reply says was done to a recurring transfer (RECINTRARS, RECINTRAMODRS, RECINTRACANRS), read and written.

ghost use Rattle.std.specs.Prelude.{◌≡◌, ◌++◌, OnOk};
ghost use Rattle.std.specs.Io.{StartsWith};
ghost use Rattle.ofx_types.specs.Calendar.{IsDay};
ghost use Rattle.ofx_types.specs.FormWords.{ReadsForm};
ghost use Rattle.ofx_types.specs.RecurringReading as reading;
ghost use Rattle.ofx_types.specs.DeedText as text;

use crate::recurring::recur::{print_recur, read_recur_in};
use crate::transfer::{DueInfo, print_info, read_due_info_in};
use msg_parts::print_flag;
use ofx_tree::{Cursor, Sheet};
use ofx_types::{Change, ModelRow, OutOfMemory, TreeFault};
use std::alloc::Global;

/// A new recurring transfer.
#[tactic(auto, unfolding(ofx_types::specs::RecurringReading::new_model_of))]
pub(crate) fn read_new_model(alloc: Global, recintrars: &Cursor<'_>) -> Result<Change, TreeFault>
    ensures { ReadsForm result (reading.new_model_of recintrars.now) }
{
    let row = read_row(alloc, recintrars)?;
    Ok(Change::NewModel(row))
}

/// A changed recurring transfer.
#[tactic(auto, unfolding(ofx_types::specs::RecurringReading::set_model_of))]
pub(crate) fn read_set_model(alloc: Global, recintramodrs: &Cursor<'_>) -> Result<Change, TreeFault>
    ensures { ReadsForm result (reading.set_model_of recintramodrs.now) }
{
    let row = read_row(alloc, recintramodrs)?;
    let pending = recintramodrs.flag(b"MODPENDING")?;
    Ok(Change::SetModel(row, pending))
}

/// A cancelled recurring transfer.
#[tactic(auto, unfolding(ofx_types::specs::RecurringReading::drop_model_of))]
pub(crate) fn read_drop_model(recintracanrs: &Cursor<'_>) -> Result<Change, TreeFault>
    ensures { ReadsForm result (reading.drop_model_of recintracanrs.now) }
{
    let id = recintracanrs.id(b"RECSRVRTID")?;
    let pending = recintracanrs.flag(b"CANPENDING")?;
    Ok(Change::DropModel(id, pending))
}

#[tactic(auto, unfolding(ofx_types::specs::RecurringReading::model_row_of))]
fn read_row(alloc: Global, reply: &Cursor<'_>) -> Result<ModelRow, TreeFault>
    ensures { ReadsForm result (reading.model_row_of reply.now) }
{
    let id = reply.id(b"RECSRVRTID")?;
    let recur = read_recur_in(reply)?;
    let asked = read_first_in(alloc, reply)?;
    Ok(ModelRow {
        id,
        recur,
        from: asked.info.from,
        to: asked.info.to,
        amount: asked.info.amount,
        first: asked.due,
    })
}

/// What the inner INTRARS says of the first transfer.
#[tactic(auto, unfolding(ofx_types::specs::RecurringReading::first_in))]
fn read_first_in(alloc: Global, parent: &Cursor<'_>) -> Result<DueInfo, TreeFault>
    ensures { ReadsForm result (reading.first_in parent.now) }
{
    let intrars = parent.one(b"INTRARS")?;
    read_first(alloc, &intrars)
}

/// The two ids have their form, and aren't looked at otherwise.
#[tactic(auto, unfolding(ofx_types::specs::RecurringReading::first_of))]
fn read_first(alloc: Global, intrars: &Cursor<'_>) -> Result<DueInfo, TreeFault>
    ensures { ReadsForm result (reading.first_of intrars.now) }
{
    let _id = intrars.id(b"SRVRTID")?;
    let asked = read_due_info_in(alloc, intrars)?;
    let _model = intrars.maybe_id(b"RECSRVRTID")?;
    Ok(asked)
}

/// Writes the reply about a new recurring transfer.
#[tactic(auto, unfolding(ofx_types::specs::DeedText::change_text), using(msg_parts::proofs::Joined::joined))]
pub(crate) fn print_new_model(row: &ModelRow, sheet: &mut Sheet) -> Result<(), OutOfMemory>
    requires { IsDay row.now.first.0 }
    ensures ok { OnOk result (sheet.new ≡ sheet.old ++ text.change_text (Change.NewModel row.now)) }
    ensures kept { StartsWith sheet.new sheet.old }
{
    sheet.start(b"RECINTRARS")?;
    print_row(row, sheet)?;
    sheet.end(b"RECINTRARS")
}

/// Writes the reply about a changed recurring transfer.
#[tactic(auto, unfolding(ofx_types::specs::DeedText::change_text), using(msg_parts::proofs::Joined::joined))]
pub(crate) fn print_set_model(
    row: &ModelRow,
    pending: bool,
    sheet: &mut Sheet,
) -> Result<(), OutOfMemory>
    requires { IsDay row.now.first.0 }
    ensures ok { OnOk result (sheet.new ≡ sheet.old ++ text.change_text (Change.SetModel row.now pending)) }
    ensures kept { StartsWith sheet.new sheet.old }
{
    sheet.start(b"RECINTRAMODRS")?;
    print_row(row, sheet)?;
    print_flag(b"MODPENDING", pending, sheet)?;
    sheet.end(b"RECINTRAMODRS")
}

/// Writes the reply about a cancelled recurring transfer.
#[tactic(auto, unfolding(ofx_types::specs::DeedText::change_text), using(msg_parts::proofs::Joined::joined))]
pub(crate) fn print_drop_model(id: u64, pending: bool, sheet: &mut Sheet) -> Result<(), OutOfMemory>
    ensures ok { OnOk result (sheet.new ≡ sheet.old ++ text.change_text (Change.DropModel id pending)) }
    ensures kept { StartsWith sheet.new sheet.old }
{
    sheet.start(b"RECINTRACANRS")?;
    sheet.number(b"RECSRVRTID", id)?;
    print_flag(b"CANPENDING", pending, sheet)?;
    sheet.end(b"RECINTRACANRS")
}

/// Writes the id of a recurring transfer, how it recurs and what its transfers are like.
#[tactic(auto, unfolding(ofx_types::specs::DeedText::model_row_text), using(msg_parts::proofs::Joined::rest))]
fn print_row(row: &ModelRow, sheet: &mut Sheet) -> Result<(), OutOfMemory>
    requires { IsDay row.now.first.0 }
    ensures ok { OnOk result (sheet.new ≡ sheet.old ++ text.model_row_text row.now) }
    ensures kept { StartsWith sheet.new sheet.old }
{
    sheet.number(b"RECSRVRTID", row.id)?;
    print_recur(row.recur, sheet)?;
    print_first(row, sheet)
}

/// Writes the inner INTRARS: the recurring transfer's number as both ids, and its first day as the due day.
#[tactic(auto, unfolding(ofx_types::specs::DeedText::first_text), using(msg_parts::proofs::Joined::joined))]
fn print_first(row: &ModelRow, sheet: &mut Sheet) -> Result<(), OutOfMemory>
    requires { IsDay row.now.first.0 }
    ensures ok { OnOk result (sheet.new ≡ sheet.old ++ text.first_text row.now) }
    ensures kept { StartsWith sheet.new sheet.old }
{
    sheet.start(b"INTRARS")?;
    sheet.element(b"CURDEF", b"USD")?;
    sheet.number(b"SRVRTID", row.id)?;
    print_info(&row.from, &row.to, row.amount, Some(row.first), sheet)?;
    sheet.number(b"RECSRVRTID", row.id)?;
    sheet.end(b"INTRARS")
}
