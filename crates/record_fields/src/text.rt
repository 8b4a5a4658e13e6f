//! Texts: a length in two bytes, and as many bytes.

ghost use Rattle.std.specs.Prelude.{◌≡◌, ◌≤◌, ◌++◌, true, false, length, IfOk, OnOk, MatchOption};
ghost use Rattle.std.specs.Io.{StartsWith};
ghost use Rattle.record_fields.specs.Answers.{ReadsField};
ghost use Rattle.record_fields.specs.FieldCoding.{text_bytes};
ghost use Rattle.record_fields.specs.FieldReading.{is_text, text_at, filled_text_at};

use crate::fault::RecordFault;
use crate::number::{get_bytes, get_u16, put_u16};
use ofx_types::{OutOfMemory, Text, TextFault, trim};
use std::alloc::Global;

/// The text that the bytes are as they are, with nothing to trim.
fn text_of(alloc: Global, bytes: &[u8], most: u32) -> Result<Option<Text>, OutOfMemory>
    ensures { IfOk result (λ found. MatchOption found (is_text most bytes.now ≡ false)
        (λ text. (is_text most bytes.now ≡ true) × (text ≡ bytes.now))) }
{
    if trim(bytes) != bytes {
        return Ok(None);
    }
    match Text::new(alloc, bytes, most) {
        Ok(text) => Ok(Some(text)),
        Err(TextFault::OutOfMemory) => Err(OutOfMemory),
        Err(_) => Ok(None),
    }
}

/// The text of at most `most` bytes at `at`, which may be empty.
///
/// `Bad(at)` where the record ends within it, where it is longer, where white space is at either end, and where a
/// control byte other than tab, LF and CR is in it.
///
/// ```rust
/// use ofx_types::Text;
/// use record_fields::{RecordFault, get_text, get_u16, put_text, put_u16};
///
/// let alloc = rt.alloc();
/// let name = Text::new(alloc, b"alice", 32).expect(&rt, "a text");
/// let mut record = Vec::new(alloc);
/// put_text(&name, &mut record).expect(&rt, "room");
/// put_u16(&160, &mut record).expect(&rt, "room");
/// // Each reader gives the offset of the field after its own.
/// let (text, next) = get_text(alloc, &record, 0, 32).expect(&rt, "a text");
/// let (version, end) = get_u16(&record, next).expect(&rt, "a number");
/// assert!(rt; text == name && version == 160 && end == record.len());
/// assert!(rt; get_u16(&record, end).err() == Some(RecordFault::Bad(end as u64)));
/// ```
#[tactic(auto, unfolding(crate::specs::FieldReading::text_at))]
pub fn get_text(
    alloc: Global,
    rec: &[u8],
    at: usize,
    most: u32,
) -> Result<(Text, usize), RecordFault>
    requires { at ≤ length rec.now }
    ensures gives { ReadsField result (text_at most rec.now at) }
    ensures within { IfOk result (λ found. found.1 ≤ length rec.now) }
{
    let (size, start) = get_u16(rec, at)?;
    let (bytes, next) = get_bytes(rec, at, start, usize::from(size))?;
    match text_of(alloc, bytes, most)? {
        Some(text) => Ok((text, next)),
        None => Err(RecordFault::Bad(at as u64)),
    }
}

/// A text of an event, which isn't empty.
#[tactic(auto, unfolding(crate::specs::FieldReading::filled_text_at))]
pub fn get_filled_text(
    alloc: Global,
    rec: &[u8],
    at: usize,
    most: u32,
) -> Result<(Text, usize), RecordFault>
    requires { at ≤ length rec.now }
    ensures gives { ReadsField result (filled_text_at most rec.now at) }
    ensures within { IfOk result (λ found. found.1 ≤ length rec.now) }
{
    let (text, next) = get_text(alloc, rec, at, most)?;
    if text.as_bytes().is_empty() {
        return Err(RecordFault::Bad(at as u64));
    }
    Ok((text, next))
}

/// Appends a text of at most 65,535 bytes.
#[tactic(auto, unfolding(crate::specs::FieldCoding::text_bytes))]
pub fn put_text(value: &Text, out: &mut Vec<u8>) -> Result<(), OutOfMemory>
    requires { length value.now ≤ 65535 }
    ensures bytes { OnOk result (out.new.items ≡ out.old.items ++ text_bytes value.now) }
    ensures kept { StartsWith out.new.items out.old.items }
{
    let bytes = value.as_bytes();
    put_u16(&(bytes.len() as u16), out)?;
    out.extend_from_slice(bytes)?;
    Ok(())
}
