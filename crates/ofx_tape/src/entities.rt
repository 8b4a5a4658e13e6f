//! Entities: `&lt;`, `&gt;` and `&amp;` in the values of elements.

ghost use Rattle.std.specs.Prelude.{◌≡◌, ◌<◌, ◌≤◌, ◌∷◌, ◌==◌, length, take, position, bytes_eq, IfOk, IfSome, IfNone};
ghost use Rattle.std.specs.List.{list_any};
ghost use Rattle.ofx_types.specs.TextRules.{is_refused_in_text};
ghost use Rattle.ofx_types.specs.ValueForm.{decoded};

use ofx_types::{OutOfMemory, is_white_space};
use std::alloc::Global;

/// The most bytes of a short value, which is decoded on the stack.
pub const SHORT_VALUE: usize = 64;

/// Whether a `&` is among the bytes; without one they stand for themselves.
pub(crate) fn has_ampersand(raw: &[u8]) -> bool
    ensures { result ≡ list_any (λ b. b == 38) raw.now }
{
    raw.iter().any(|byte| *byte == b'&')
}

/// The bytes that raw bytes stand for.
#[tactic(auto, unfolding(ofx_types::specs::ValueForm::decoded_past))]
pub(crate) fn decode(alloc: Global, raw: &[u8]) -> Result<Vec<u8>, OutOfMemory>
    ensures { IfOk result (λ value. value.items ≡ decoded raw.now) }
{
    let mut value = Vec::with_capacity(alloc, raw.len())?;
    let mut rest = raw;
    while let [first, suffix @ ..] = rest {
        let (byte, tail) = decoded_first(*first, suffix);
        value.push(byte)?;
        rest = tail;
    }
    Ok(value)
}

/// Puts the bytes that raw bytes stand for at the start of the room, and answers how many they are: `None` where they are
/// more than the room has.
#[tactic(auto, using(crate::proofs::Decoding::decoded_ends))]
pub(crate) fn decode_within(raw: &[u8], room: &mut [u8; SHORT_VALUE]) -> Option<usize>
    ensures value { IfSome result (λ count. take count room.new ≡ decoded raw.now) }
    ensures within { IfSome result (λ count. count ≤ SHORT_VALUE) }
    ensures long { IfNone result (SHORT_VALUE < length (decoded raw.now)) }
{
    let mut rest = raw;
    let mut count = 0;
    while let [first, suffix @ ..] = rest {
        if count == SHORT_VALUE {
            return None;
        }
        let (byte, tail) = decoded_first(*first, suffix);
        room[count] = byte;
        count += 1;
        rest = tail;
    }
    Some(count)
}

/// Whether raw bytes stand for just these bytes.
#[tactic(auto, using(crate::proofs::Decoding::decoded_ends))]
pub(crate) fn decodes_to(raw: &[u8], text: &[u8]) -> bool
    ensures { result ≡ bytes_eq (decoded raw.now) text.now }
{
    let mut rest = raw;
    let mut wanted = text;
    while let [first, suffix @ ..] = rest {
        let (byte, tail) = decoded_first(*first, suffix);
        let [next, more @ ..] = wanted else {
            return false;
        };
        if byte != *next {
            return false;
        }
        rest = tail;
        wanted = more;
    }
    wanted.is_empty()
}

/// How many bytes raw bytes stand for.
#[tactic(auto, using(crate::proofs::Decoding::decoded_ends))]
pub(crate) fn decoded_len(raw: &[u8]) -> usize
    ensures { result ≡ length (decoded raw.now) }
{
    let mut rest = raw;
    let mut count = 0;
    while let [first, suffix @ ..] = rest {
        let (_byte, tail) = decoded_first(*first, suffix);
        count += 1;
        rest = tail;
    }
    count
}

/// The offset, among the bytes that raw bytes stand for, of the first control byte but tab, LF and CR.
#[tactic(auto, using(crate::proofs::Decoding::decoded_ends))]
pub(crate) fn first_refused(raw: &[u8]) -> Option<usize>
    ensures { result ≡ position is_refused_in_text (decoded raw.now) }
{
    let mut rest = raw;
    let mut count = 0;
    while let [first, suffix @ ..] = rest {
        let (byte, tail) = decoded_first(*first, suffix);
        if byte < 0x20 && !is_white_space(byte) {
            return Some(count);
        }
        count += 1;
        rest = tail;
    }
    None
}

/// The byte that the first bytes stand for, and the bytes after those.
#[tactic(auto, using(crate::proofs::Decoding::decoded_prefix))]
fn decoded_first(first: u8, suffix: &[u8]) -> (u8, &[u8])
    ensures value { decoded (first ∷ suffix.now) ≡ result.0 ∷ decoded result.1.now }
    ensures shorter { length result.1.now ≤ length suffix.now }
{
    if first == b'&' {
        return decoded_entity(suffix);
    }
    (first, suffix)
}

/// The byte that a `&` and the first bytes after it stand for, and the bytes after those.
#[tactic(auto, using(crate::proofs::Decoding::decoded_prefix))]
fn decoded_entity(suffix: &[u8]) -> (u8, &[u8])
    ensures value { decoded (38 ∷ suffix.now) ≡ result.0 ∷ decoded result.1.now }
    ensures shorter { length result.1.now ≤ length suffix.now }
{
    if suffix.starts_with(b"lt;") {
        return (b'<', suffix.split_at(3).1);
    }
    if suffix.starts_with(b"gt;") {
        return (b'>', suffix.split_at(3).1);
    }
    if suffix.starts_with(b"amp;") {
        return (b'&', suffix.split_at(4).1);
    }
    (b'&', suffix)
}
