//! What the fields of a head say of the body's length, and of the connection.

ghost use Rattle.std.specs.Prelude.{◌≡◌, ◌≤◌, true, length, map, All, option_map};
ghost use Rattle.std.specs.List.{list_any, list_all};
ghost use Rattle.std.specs.Char.{is_ascii_digit};
ghost use Rattle.std.specs.Str.Parse.{digits_value};
ghost use Rattle.std.specs.Str.{str_eq_ignore_ascii_case};
ghost use Rattle.httparse.specs.Spans.{IsHeaderWithin, header_bytes};
ghost use Rattle.ofx_types.specs.NumberReading.{number_at, is_number_within};
ghost use Rattle.http_front.specs.Fields as said;
ghost use Rattle.http_front.specs.Fields.{is_named, values_of, only};

use httparse::spans::HeaderSpan;

/// The length of the body: what the one Content-Length field says in 1 to 9 digits, where there is no
/// Transfer-Encoding field.
#[tactic(auto, unfolding(crate::specs::Fields::usable_length))]
pub(crate) fn usable_length(buf: &[u8], fields: &[HeaderSpan]) -> Option<u64>
    requires { All (IsHeaderWithin (length buf.now)) fields.now }
    ensures { result ≡ said.usable_length (map (header_bytes buf.now) fields.now) }
{
    if has_field(buf, fields, b"Transfer-Encoding") {
        return None;
    }
    number_in(only_value(buf, fields, b"Content-Length")?)
}

/// Whether there is a field of this name.
fn has_field(buf: &[u8], fields: &[HeaderSpan], name: &[u8]) -> bool
    requires { All (IsHeaderWithin (length buf.now)) fields.now }
    ensures { result ≡ list_any (is_named name.now) (map (header_bytes buf.now) fields.now) }
{
    for field in fields {
        if is_named(buf, field, name) {
            return true;
        }
    }
    false
}

/// The value of the one field of this name.
fn only_value<'b>(buf: &'b [u8], fields: &[HeaderSpan], name: &[u8]) -> Option<&'b [u8]>
    requires { All (IsHeaderWithin (length buf.now)) fields.now }
    ensures { option_map (λ value. value.now) result ≡ only (values_of name.now (map (header_bytes buf.now) fields.now)) }
{
    let mut found = None;
    for field in fields {
        if is_named(buf, field, name) {
            if found.is_some() {
                return None;
            }
            found = Some(field.value.of(buf));
        }
    }
    found
}

/// Whether a Connection field says `close`.
#[tactic(auto, unfolding(crate::specs::Fields::says_close))]
pub(crate) fn says_close(buf: &[u8], fields: &[HeaderSpan]) -> bool
    requires { All (IsHeaderWithin (length buf.now)) fields.now }
    ensures { result ≡ said.says_close (map (header_bytes buf.now) fields.now) }
{
    for field in fields {
        if is_close(buf, field) {
            return true;
        }
    }
    false
}

/// Whether this is a Connection field, and its whole value is `close`.
fn is_close(buf: &[u8], field: &HeaderSpan) -> bool
    requires { IsHeaderWithin (length buf.now) field.now }
    ensures { result ≡ said.is_close (header_bytes buf.now field.now) }
{
    is_named(buf, field, b"Connection") && is_same_word(field.value.of(buf), b"close")
}

/// Whether a field has this name, in any letter case.
fn is_named(buf: &[u8], field: &HeaderSpan, name: &[u8]) -> bool
    requires { IsHeaderWithin (length buf.now) field.now }
    ensures { result ≡ said.is_named name.now (header_bytes buf.now field.now) }
{
    is_same_word(field.name.of(buf), name)
}

/// Whether two words are the same but for the case of their letters.
fn is_same_word(word: &[u8], other: &[u8]) -> bool
    ensures { result ≡ str_eq_ignore_ascii_case word.now other.now }
{
    word.eq_ignore_ascii_case(other)
}

/// The most digits of a length.
const MAX_DIGITS: usize = 9;

/// The number that 1 to 9 digits stand for. Leading zeros are let pass.
#[tactic(auto, unfolding(ofx_types::specs::NumberReading::number_at))]
fn number_in(text: &[u8]) -> Option<u64>
    ensures { result ≡ number_at 9 text.now }
{
    if is_number(text) {
        Some(value_of(text))
    } else {
        None
    }
}

/// Whether the bytes are 1 to 9 digits.
fn is_number(text: &[u8]) -> bool
    ensures { result ≡ is_number_within 9 text.now }
{
    !text.is_empty() && text.len() <= MAX_DIGITS && are_digits(text)
}

/// Whether all of the bytes are digits.
fn are_digits(text: &[u8]) -> bool
    ensures { result ≡ list_all is_ascii_digit text.now }
{
    text.iter().all(|b| b.is_ascii_digit())
}

/// The number that at most 9 digits stand for.
fn value_of(digits: &[u8]) -> u64
    requires are { list_all is_ascii_digit digits.now ≡ true }
    requires few { length digits.now ≤ 9 }
    ensures { result ≡ digits_value 10 digits.now }
{
    let mut value = 0;
    for digit in digits {
        value = 10 * value + u64::from(*digit - b'0');
    }
    value
}
