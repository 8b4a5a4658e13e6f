//! What bytes begin with: a tag, white space, a value.

ghost use Rattle.std.specs.Prelude.{◌≡◌, ◌≤◌, ◌∷◌, ◌&&◌, true, nat_le, not, length, position};
ghost use Rattle.std.specs.List.{list_all};
ghost use Rattle.ofx_types.specs.TagForm.{is_value_byte};
ghost use Rattle.ofx_types.specs.TagNames.{is_name_byte};
ghost use Rattle.ofx_types.specs.TextRules.{is_refused_in_text, trim_start};
ghost use Rattle.ofx_tape.specs.OpenAggregates.{is_at_tag, prefix_of, after_prefix};
ghost use Rattle.ofx_tape.specs.TagScan.{IsNameAt, IsTagAfter};

use ofx_types::is_white_space;

/// What comes first after a `<` or a `</`.
pub(crate) enum NameAt<'a> {
    /// A name and a `>`: the name, and the bytes after the `>`.
    Whole(&'a [u8], &'a [u8]),
    /// Nothing but bytes of a name, which more bytes could end.
    Unfinished,
    /// Neither.
    Broken,
}

/// What follows a `<`.
pub(crate) enum TagAt<'a> {
    /// A start tag: its name, and the bytes after it.
    Start(&'a [u8], &'a [u8]),
    /// An end tag: its name, and the bytes after it.
    End(&'a [u8], &'a [u8]),
    /// The prefix of a tag, which the body's end leaves unfinished.
    Unfinished,
    /// No tag.
    Broken,
}

/// The tag whose `<` comes before these bytes.
pub(crate) fn tag_after(bytes: &[u8]) -> TagAt<'_>
    ensures { IsTagAfter bytes.now result }
{
    let [first, inside @ ..] = bytes else {
        return TagAt::Unfinished;
    };
    if *first == b'/' {
        return end_tag_after(inside);
    }
    match name_at(bytes) {
        NameAt::Whole(name, suffix) => TagAt::Start(name, suffix),
        NameAt::Unfinished => TagAt::Unfinished,
        NameAt::Broken => TagAt::Broken,
    }
}

/// The end tag whose `</` comes before these bytes.
fn end_tag_after(inside: &[u8]) -> TagAt<'_>
    ensures { IsTagAfter (47 ∷ inside.now) result }
{
    match name_at(inside) {
        NameAt::Whole(name, suffix) => TagAt::End(name, suffix),
        NameAt::Unfinished => TagAt::Unfinished,
        NameAt::Broken => TagAt::Broken,
    }
}

fn name_at(bytes: &[u8]) -> NameAt<'_>
    ensures { IsNameAt bytes.now result }
{
    let (name, rest) = split_name(bytes);
    let [first, suffix @ ..] = rest else {
        return unended(name);
    };
    if *first != b'>' {
        return NameAt::Broken;
    }
    if !is_of_name_length(name) {
        return NameAt::Broken;
    }
    NameAt::Whole(name, suffix)
}

/// Bytes of a name that nothing follows.
fn unended(name: &[u8]) -> NameAt<'_>
    requires { list_all is_name_byte name.now ≡ true }
    ensures { IsNameAt name.now result }
{
    if name.len() <= 32 {
        return NameAt::Unfinished;
    }
    NameAt::Broken
}

fn is_of_name_length(name: &[u8]) -> bool
    ensures { result ≡ (nat_le 1 (length name.now) && nat_le (length name.now) 32) }
{
    !name.is_empty() && name.len() <= 32
}

/// The bytes at the start that may be in a name, and the bytes after them.
#[tactic(auto, using(crate::proofs::Splitting::splits))]
fn split_name(bytes: &[u8]) -> (&[u8], &[u8])
    ensures name { result.0.now ≡ prefix_of is_name_byte bytes.now }
    ensures rest { result.1.now ≡ after_prefix is_name_byte bytes.now }
{
    match first_of_no_name(bytes) {
        Some(at) => bytes.split_at(at),
        None => (bytes, &[]),
    }
}

fn first_of_no_name(bytes: &[u8]) -> Option<usize>
    ensures { result ≡ position (λ b. not (is_name_byte b)) bytes.now }
{
    bytes.iter().position(|byte| !is_in_name(*byte))
}

/// Whether a byte may be in a name. Capital letters, which most names have, are tried first.
fn is_in_name(byte: u8) -> bool
    ensures { result ≡ is_name_byte byte }
{
    byte.is_ascii_uppercase()
        || byte.is_ascii_lowercase()
        || byte.is_ascii_digit()
        || matches!(byte, b'.' | b'_' | b'-')
}

/// The bytes without the white space at their start.
pub(crate) fn skip_white(bytes: &[u8]) -> &[u8]
    ensures trimmed { result.now ≡ trim_start bytes.now }
    ensures shorter { length result.now ≤ length bytes.now }
{
    let mut rest = bytes;
    while let [first, tail @ ..] = rest {
        if !is_white_space(*first) {
            break;
        }
        rest = tail;
    }
    rest
}

/// Whether nothing is left, or a `<` comes next.
pub(crate) fn is_tag_next(bytes: &[u8]) -> bool
    ensures { result ≡ is_at_tag bytes.now }
{
    match bytes {
        [] => true,
        [first, ..] => *first == b'<',
    }
}

/// The bytes at the start that may be in a value, and the bytes after them.
#[tactic(auto, using(crate::proofs::Splitting::splits))]
pub(crate) fn split_value(bytes: &[u8]) -> (&[u8], &[u8])
    ensures value { result.0.now ≡ prefix_of is_value_byte bytes.now }
    ensures rest { result.1.now ≡ after_prefix is_value_byte bytes.now }
{
    match first_of_no_value(bytes) {
        Some(at) => bytes.split_at(at),
        None => (bytes, &[]),
    }
}

fn first_of_no_value(bytes: &[u8]) -> Option<usize>
    ensures { result ≡ position (λ b. not (is_value_byte b)) bytes.now }
{
    bytes.iter().position(|byte| !is_in_value(*byte))
}

fn is_in_value(byte: u8) -> bool
    ensures { result ≡ is_value_byte byte }
{
    byte != b'<' && (byte >= 0x20 || is_white_space(byte))
}
