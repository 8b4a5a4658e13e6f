//! The uid that a client gives to a transaction (TRNUID), read and written.

ghost use Rattle.std.specs.Prelude.{◌≡◌, ◌++◌, OnOk, codes};
ghost use Rattle.std.specs.Io.{StartsWith};
ghost use Rattle.ofx_types.specs.TextRules.{trimmed};
ghost use Rattle.ofx_types.specs.ValueForm.{value_of};
ghost use Rattle.ofx_types.specs.FormWords.{ReadsForm, text_in};
ghost use Rattle.ofx_types.specs.RequestReading as reading;
ghost use Rattle.ofx_types.specs.Sheet.{element};
ghost use Rattle.msg_parts.specs.PartSteps as steps;

use ofx_tape::value_into;
use ofx_tree::{Cursor, Sheet};
use ofx_types::{OutOfMemory, TextFault, TreeFault, TrnUid};
use std::alloc::Global;

/// The most bytes of a uid.
const MAX_BYTES: u32 = 36;

/// The uid of a request's wrapper, 1 to 36 bytes. `0` marks what the bank does by itself, and is a fault.
///
/// `Missing`, `Repeated` or `Value` with its offset; `OutOfMemory` where memory to decode its entities is refused.
pub fn read_own_trnuid(alloc: Global, wrapper: &Cursor<'_>) -> Result<TrnUid, TreeFault>
    ensures { ReadsForm result (reading.trnuid_of wrapper.now) }
{
    let child = wrapper.one(b"TRNUID")?;
    let offset = child.offset() as u64;
    unless_zero(trnuid_at(alloc, child.value(), offset)?, offset)
}

/// The uid of a reply's wrapper, 1 to 36 bytes.
///
/// `Missing`, `Repeated` or `Value` with its offset; `OutOfMemory` where memory to decode its entities is refused.
#[tactic(auto, unfolding(ofx_types::specs::FormWords::text_in, crate::specs::PartSteps::trnuid_at))]
pub fn read_trnuid(alloc: Global, wrapper: &Cursor<'_>) -> Result<TrnUid, TreeFault>
    ensures { ReadsForm result (text_in (codes "TRNUID") 36 wrapper.now) }
{
    let child = wrapper.one(b"TRNUID")?;
    trnuid_at(alloc, child.value(), child.offset() as u64)
}

/// The uid that a value at an offset stands for. It takes memory only where a `&` is in the value.
#[tactic(auto, using(crate::proofs::Uids::refused_uids))]
fn trnuid_at(alloc: Global, value: &[u8], offset: u64) -> Result<TrnUid, TreeFault>
    ensures { ReadsForm result (steps.trnuid_at offset (value_of value.now)) }
{
    if !value.contains(&b'&') {
        return plain_trnuid(value, offset);
    }
    match value_into(alloc, value, MAX_BYTES) {
        Ok(text) => plain_trnuid(text.as_bytes(), offset),
        Err(TextFault::OutOfMemory) => Err(TreeFault::OutOfMemory),
        Err(_) => Err(TreeFault::Value(offset)),
    }
}

/// The uid that bytes without entities are.
#[tactic(auto, using(crate::proofs::Uids::plain_uids))]
fn plain_trnuid(bytes: &[u8], offset: u64) -> Result<TrnUid, TreeFault>
    ensures { result ≡ steps.trnuid_at offset (trimmed bytes.now) }
{
    match TrnUid::new(bytes) {
        Ok(uid) => Ok(uid),
        Err(_) => Err(TreeFault::Value(offset)),
    }
}

fn unless_zero(uid: TrnUid, offset: u64) -> Result<TrnUid, TreeFault>
    ensures { result ≡ reading.unless_zero offset uid }
{
    if uid.as_bytes() == b"0".as_slice() {
        return Err(TreeFault::Value(offset));
    }
    Ok(uid)
}

/// Writes the uid of a wrapper.
pub fn print_trnuid(trnuid: &TrnUid, sheet: &mut Sheet) -> Result<(), OutOfMemory>
    ensures ok { OnOk result (sheet.new ≡ sheet.old ++ element (codes "TRNUID") trnuid.now) }
    ensures kept { StartsWith sheet.new sheet.old }
{
    sheet.element(b"TRNUID", trnuid.as_bytes())
}
