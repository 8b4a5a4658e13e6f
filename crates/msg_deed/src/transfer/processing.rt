//! How far a transfer is (XFERPRCSTS), read and written.

ghost use Rattle.std.specs.Prelude.{◌≡◌, ◌++◌, OnOk};
ghost use Rattle.std.specs.Io.{StartsWith};
ghost use Rattle.ofx_types.specs.Calendar.{IsMoment};
ghost use Rattle.ofx_types.specs.FormWords.{ReadsForm};
ghost use Rattle.ofx_types.specs.TransferReading as reading;
ghost use Rattle.ofx_types.specs.TransferText as form;

use ofx_tree::{Cursor, Sheet};
use ofx_types::{Moment, OutOfMemory, TreeFault, XferCode};

/// How far the transfer of a reply is, and since when or until when.
#[tactic(auto, unfolding(ofx_types::specs::TransferReading::processing_in))]
pub(crate) fn read_processing_in(parent: &Cursor<'_>) -> Result<(XferCode, Moment), TreeFault>
    ensures { ReadsForm result (reading.processing_in parent.now) }
{
    let xferprcsts = parent.one(b"XFERPRCSTS")?;
    read_processing(&xferprcsts)
}

#[tactic(auto, unfolding(ofx_types::specs::TransferReading::processing_of))]
fn read_processing(xferprcsts: &Cursor<'_>) -> Result<(XferCode, Moment), TreeFault>
    ensures { ReadsForm result (reading.processing_of xferprcsts.now) }
{
    let code = code_at(&xferprcsts.one(b"XFERPRCCODE")?)?;
    let stamp = xferprcsts.moment(b"DTXFERPRC")?;
    Ok((code, stamp))
}

/// The code that an element says. A cancelled transfer has a reply of its own, and no code.
fn code_at(word: &Cursor<'_>) -> Result<XferCode, TreeFault>
    ensures { result ≡ reading.code_at word.now.node }
{
    if word.value_eq(b"WILLPROCESSON") {
        return Ok(XferCode::Waiting);
    }
    if word.value_eq(b"POSTEDON") {
        return Ok(XferCode::Posted);
    }
    if word.value_eq(b"NOFUNDSON") {
        return Ok(XferCode::NoFunds);
    }
    Err(TreeFault::Value(word.offset() as u64))
}

/// Writes how far a transfer is.
#[tactic(auto, unfolding(ofx_types::specs::TransferText::processing_text), using(msg_parts::proofs::Joined::joined))]
pub(crate) fn print_processing(
    code: XferCode,
    stamp: Moment,
    sheet: &mut Sheet,
) -> Result<(), OutOfMemory>
    requires { IsMoment stamp.0 }
    ensures ok { OnOk result (sheet.new ≡ sheet.old ++ form.processing_text code stamp) }
    ensures kept { StartsWith sheet.new sheet.old }
{
    sheet.start(b"XFERPRCSTS")?;
    sheet.element(b"XFERPRCCODE", code.word())?;
    sheet.moment(b"DTXFERPRC", stamp)?;
    sheet.end(b"XFERPRCSTS")
}
