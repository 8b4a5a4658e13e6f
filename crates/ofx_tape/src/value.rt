//! What the raw bytes of an element stand for: trimmed, with their entities decoded.

ghost use Rattle.std.specs.Prelude.{◌≡◌, ◌<◌, ◌≤◌, length, bytes_eq, IfSome, IfNone};
ghost use Rattle.ofx_types.specs.TextOutcome.{IsTextOf, text_fault};
ghost use Rattle.ofx_types.specs.TextRules.{is_refused_in_text};
ghost use Rattle.ofx_types.specs.ValueForm.{value_of, decoded};

use crate::entities::{
    SHORT_VALUE, decode, decode_within, decoded_len, decodes_to, first_refused, has_ampersand,
};
use ofx_types::{Text, TextFault, trim};
use std::alloc::Global;

/// Whether the raw bytes of a value stand for just this text. It takes no memory.
#[tactic(auto, using(crate::proofs::Trimming::trimmed_raw))]
pub fn value_eq(raw: &[u8], text: &[u8]) -> bool
    ensures { result ≡ bytes_eq (value_of raw.now) text.now }
{
    decodes_to(trim(raw), text)
}

/// What the raw bytes of a value stand for, trimmed and with its entities decoded, where it has at most 64 bytes. It takes
/// no memory; where an entity may be in it, it is decoded in the room.
///
/// `None` where it has more than 64 bytes.
#[tactic(auto, using(crate::proofs::Trimming::trimmed_raw))]
pub fn short_value<'a>(raw: &'a [u8], room: &'a mut [u8; SHORT_VALUE]) -> Option<&'a [u8]>
    ensures value { IfSome result (λ value. value.now ≡ value_of raw.now) }
    ensures short { IfSome result (λ value. length value.now ≤ 64) }
    ensures long { IfNone result (64 < length (value_of raw.now)) }
{
    let trimmed = trim(raw);
    if has_ampersand(trimmed) {
        let count = decode_within(trimmed, room)?;
        return Some(&room[..count]);
    }
    if trimmed.len() > SHORT_VALUE {
        return None;
    }
    Some(trimmed)
}

/// The text that the raw bytes of a value stand for, where it has at most `most` bytes.
///
/// `TooLong(n)` where its length n is above `most`, and otherwise `BadByte(at)` at the first control byte of the text
/// other than tab, LF and CR.
#[tactic(auto, using(crate::proofs::Trimming::trimmed_raw))]
pub fn value_into(alloc: Global, raw: &[u8], most: u32) -> Result<Text, TextFault>
    ensures { IsTextOf most (decoded raw.now) result }
{
    if !has_ampersand(raw) {
        return Text::new(alloc, raw, most);
    }
    match fault_in(trim(raw), most) {
        Some(fault) => Err(fault),
        None => decoded_text(alloc, raw, most),
    }
}

/// What is wrong with the bytes that raw bytes stand for, as a text of at most `most` bytes.
fn fault_in(raw: &[u8], most: u32) -> Option<TextFault>
    ensures { result ≡ text_fault is_refused_in_text most (decoded raw.now) }
{
    let count = decoded_len(raw);
    if count > most as usize {
        return Some(TextFault::TooLong(count as u64));
    }
    match first_refused(raw) {
        Some(at) => Some(TextFault::BadByte(at as u64)),
        None => None,
    }
}

fn decoded_text(alloc: Global, raw: &[u8], most: u32) -> Result<Text, TextFault>
    requires { text_fault is_refused_in_text most (value_of raw.now) ≡ None }
    ensures { IsTextOf most (decoded raw.now) result }
{
    match decode(alloc, raw) {
        Ok(value) => Text::new(alloc, value.as_slice(), most),
        Err(_refused) => Err(TextFault::OutOfMemory),
    }
}
