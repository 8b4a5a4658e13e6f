//! The words of a setup's lines: their form, and how a line is cut into them.

ghost use Rattle.std.specs.Prelude.{◌≡◌, ◌<◌, ◌≤◌, ◌^◌, ◌==◌, true, [], length, position, IfOk, IfSome};
ghost use Rattle.std.specs.Option.{option_map};
ghost use Rattle.std.specs.Char.{is_ascii_digit};
ghost use Rattle.std.specs.List.{list_all};
ghost use Rattle.std.specs.Str.Parse.{digits_value};
ghost use Rattle.bank_model.specs.SetupForm.{is_word_byte};
ghost use Rattle.bank_model.specs.SetupReading.{cut, after_key, is_word_form, is_number_form, number_of, number_within};

use ofx_types::{OutOfMemory, Text};
use std::alloc::Global;

/// The most bytes of a word.
const MAX_WORD_BYTES: usize = 32;

/// The most digits of a number: the openings together have no more.
const MAX_DIGITS: usize = 13;

/// Whether a byte may be in a word.
fn is_plain(byte: u8) -> bool
    ensures { result ≡ is_word_byte byte }
{
    (0x21..=0x7e).contains(&byte) && !matches!(byte, b'&' | b'<' | b'>')
}

fn all_plain(bytes: &[u8]) -> bool
    ensures { result ≡ list_all is_word_byte bytes.now }
{
    bytes.iter().all(|byte| is_plain(*byte))
}

/// Whether the bytes are one word.
pub(super) fn is_word(bytes: &[u8]) -> bool
    ensures { result ≡ is_word_form bytes.now }
{
    if bytes.is_empty() {
        return false;
    }
    if bytes.len() > MAX_WORD_BYTES {
        return false;
    }
    all_plain(bytes)
}

fn offset_of_mark(bytes: &[u8], mark: u8) -> Option<usize>
    ensures { result ≡ position (λ b. b == mark) bytes.now }
{
    bytes.iter().position(|byte| *byte == mark)
}

/// The bytes before and after the first `mark`.
pub(super) fn cut_at(bytes: &[u8], mark: u8) -> Option<(&[u8], &[u8])>
    ensures exact { option_map (λ parts. (parts.0.now, parts.1.now)) result ≡ cut mark bytes.now }
    ensures less { IfSome result (λ parts. length parts.1.now < length bytes.now) }
{
    match offset_of_mark(bytes, mark) {
        Some(at) => Some((&bytes[..at], &bytes[at + 1..])),
        None => None,
    }
}

/// What follows the first word of a line and the space after it, where that word is the key.
#[tactic(auto, unfolding(crate::specs::SetupReading::after_key))]
pub(super) fn suffix<'a>(line: &'a [u8], key: &[u8]) -> Option<&'a [u8]>
    ensures { option_map (λ rest. rest.now) result ≡ after_key key.now line.now }
{
    let (word, rest) = cut_at(line, b' ')?;
    if word == key { Some(rest) } else { None }
}

fn all_digits(word: &[u8]) -> bool
    ensures { result ≡ list_all is_ascii_digit word.now }
{
    word.iter().all(|byte| byte.is_ascii_digit())
}

fn is_number(word: &[u8]) -> bool
    ensures { result ≡ is_number_form word.now }
{
    if word.is_empty() {
        return false;
    }
    if word.len() > MAX_DIGITS {
        return false;
    }
    if word[0] == b'0' {
        return word.len() == 1;
    }
    all_digits(word)
}

fn value_of(digits: &[u8]) -> u64
    requires digits { list_all is_ascii_digit digits.now ≡ true }
    requires few { length digits.now ≤ 13 }
    ensures exact { result ≡ digits_value 10 digits.now }
    ensures small { result < 10 ^ 13 }
{
    let mut value = 0u64;
    for digit in digits {
        value = value * 10 + u64::from(*digit - b'0');
    }
    value
}

/// The number that the word spells, without leading zeros and in at most 13 digits.
#[tactic(auto, unfolding(crate::specs::SetupReading::number_of))]
pub(super) fn number(word: &[u8]) -> Option<u64>
    ensures exact { result ≡ number_of word.now }
    ensures small { IfSome result (λ n. n < 10 ^ 13) }
{
    if !is_number(word) {
        return None;
    }
    Some(value_of(word))
}

/// The number that the word spells, from the lowest to the highest.
#[tactic(auto, unfolding(crate::specs::SetupReading::number_within))]
pub(super) fn number_in(word: &[u8], lowest: u64, highest: u64) -> Option<u64>
    ensures exact { result ≡ number_within lowest highest word.now }
    ensures high { IfSome result (λ n. n ≤ highest) }
{
    let number = number(word)?;
    if number < lowest {
        return None;
    }
    if number > highest {
        return None;
    }
    Some(number)
}

/// The text of a word.
pub(super) fn word_text(alloc: Global, word: &[u8]) -> Result<Text, OutOfMemory>
    requires { is_word_form word.now ≡ true }
    ensures { IfOk result (λ text. text ≡ word.now) }
{
    match Text::new(alloc, word, MAX_WORD_BYTES as u32) {
        Ok(text) => Ok(text),
        Err(_) => Err(OutOfMemory),
    }
}

/// The text of no bytes, in place of a word that is still to be read.
pub(super) fn no_word(alloc: Global) -> Result<Text, OutOfMemory>
    ensures { IfOk result (λ text. text ≡ []) }
{
    match Text::new(alloc, b"", 0) {
        Ok(text) => Ok(text),
        Err(_) => Err(OutOfMemory),
    }
}
