//! Amounts as they are in a file: a sign, dollars, and cents after a mark.

ghost use Rattle.std.specs.Prelude.{◌≡◌, ◌==◌, ◌<◌, ◌≤◌, ℤ, length, drop, IsTrue, None, Some, IfSome, IfOk, IfErr, OnErr, MatchResult};
ghost use Rattle.std.specs.List.{list_all};
ghost use Rattle.std.specs.Char.{is_ascii_digit};
ghost use Rattle.ofx_types.specs.AmountForm as form;
ghost use Rattle.ofx_types.specs.AmountForm.{IsAmount};
ghost use Rattle.ofx_types.specs.TextRules.{trimmed};
ghost use Rattle.ofx_types.specs.ValueReading.{ReadsValue};
ghost use Rattle.ofx_types.specs.AmountReading as reading;

use crate::digits::{are_digits, number, sign_at};
use crate::fault::ValueFault;
use ofx_types::{Cents, trim};

/// The most bytes of an amount.
const AMOUNT_BYTES: usize = 32;

/// The most cents of an amount, either way.
const MAX_CENTS: u128 = 9_999_999_999_999;

/// The amount that the bytes spell, after trimming.
///
/// An amount has an optional sign and digits with at most one point or comma among, before or after them: at most 32
/// bytes, only zeros after the second digit after the mark, and a magnitude of at most 99,999,999,999.99 dollars.
/// `ValueFault::Amount` where the bytes spell none.
///
/// ```rust
/// use ofx_types::Cents;
/// use ofx_values::{ValueFault, read_amount};
///
/// assert!(rt; read_amount(b" +1,5 ") == Ok(Cents(150)));
/// assert!(rt; read_amount(b"1.005") == Err(ValueFault::Amount));
/// ```
pub fn read_amount(raw: &[u8]) -> Result<Cents, ValueFault>
    ensures found { IfOk result (λ c. IsAmount raw.now c.0) }
    ensures fault { IfErr result (λ e. e ≡ ValueFault.Amount) }
    ensures nothing { OnErr result ((c : ℤ) → IsAmount raw.now c → ⊥) }
    ensures read { MatchResult result (λ c. reading.amount_at (trimmed raw.now) ≡ Some c.0) (λ _. reading.amount_at (trimmed raw.now) ≡ None) }
{
    match amount_at(trim(raw)) {
        Some(cents) => Ok(cents),
        None => Err(ValueFault::Amount),
    }
}

/// The amount that trimmed bytes spell.
#[tactic(auto, unfolding(ofx_types::specs::AmountReading::amount_at))]
fn amount_at(text: &[u8]) -> Option<Cents>
    ensures { ReadsValue (λ c. c.0) result (reading.amount_at text.now) }
{
    if text.len() > AMOUNT_BYTES {
        return None;
    }
    let (negative, rest) = sign_at(text);
    let magnitude = magnitude_at(rest)?;
    let cents = magnitude as i64;
    Some(Cents(if negative { -cents } else { cents }))
}

/// The cents that digits with at most one mark stand for.
#[tactic(auto, unfolding(ofx_types::specs::AmountReading::magnitude_at))]
fn magnitude_at(text: &[u8]) -> Option<u64>
    requires { length text.now ≤ AMOUNT_BYTES }
    ensures gives { ReadsValue (λ n. n) result (reading.magnitude_at text.now) }
    ensures range { IfSome result (λ n. n ≤ MAX_CENTS) }
{
    let (dollars, rest) = split_digits(text);
    let suffix = after_mark(rest)?;
    magnitude_of(dollars, suffix)
}

/// The digits at the start, and the bytes after them.
#[tactic(auto, using(crate::proofs::DigitLemmas::prefix_all, crate::proofs::DigitLemmas::prefix_take))]
fn split_digits(text: &[u8]) -> (&[u8], &[u8])
    ensures prefix { result.0.now ≡ reading.prefix_digits text.now }
    ensures suffix { result.1.now ≡ reading.after_digits text.now }
    ensures are { IsTrue (list_all is_ascii_digit result.0.now) }
    ensures prefix_short { length result.0.now ≤ length text.now }
    ensures after_short { length result.1.now ≤ length text.now }
{
    text.split_at(digits_at(text))
}

/// How many digits are at the start.
fn digits_at(text: &[u8]) -> usize
    ensures count { result ≡ length (reading.prefix_digits text.now) }
    ensures within { result ≤ length text.now }
{
    text.iter().take_while(|b| b.is_ascii_digit()).count()
}

/// The digits after a mark, or none where there is no mark.
#[tactic(auto, unfolding(ofx_types::specs::AmountReading::after_mark))]
fn after_mark(text: &[u8]) -> Option<&[u8]>
    ensures gives { ReadsValue (λ x. x.now) result (reading.after_mark text.now) }
    ensures digits { IfSome result (λ x. IsTrue (list_all is_ascii_digit x.now)) }
    ensures within { IfSome result (λ x. length x.now ≤ length text.now) }
{
    match text {
        [] => Some(text),
        [b'.' | b',', digits @ ..] if are_digits(digits) => Some(digits),
        _ => None,
    }
}

/// The cents of the digits before and after a mark.
#[tactic(auto, unfolding(ofx_types::specs::AmountReading::magnitude_of))]
fn magnitude_of(dollars: &[u8], suffix: &[u8]) -> Option<u64>
    requires dollars_short { length dollars.now ≤ AMOUNT_BYTES }
    requires after_short { length suffix.now ≤ AMOUNT_BYTES }
    requires dollars_are { IsTrue (list_all is_ascii_digit dollars.now) }
    requires after_are { IsTrue (list_all is_ascii_digit suffix.now) }
    ensures gives { ReadsValue (λ n. n) result (reading.magnitude_of dollars.now suffix.now) }
    ensures range { IfSome result (λ n. n ≤ MAX_CENTS) }
{
    let total = 100 * number(dollars) + cents_after(suffix) as u128;
    if dollars.len() + suffix.len() == 0 || !is_whole_cents(suffix) || total > MAX_CENTS {
        return None;
    }
    Some(total as u64)
}

/// The cents of the first two digits after a mark.
fn cents_after(digits: &[u8]) -> u8
    requires { IsTrue (list_all is_ascii_digit digits.now) }
    ensures value { result ≡ form.cents_after digits.now }
    ensures bound { result < 100 }
{
    match digits {
        [] => 0,
        [tens] => 10 * (*tens - b'0'),
        [tens, units, ..] => 10 * (*tens - b'0') + (*units - b'0'),
    }
}

/// Whether only zeros follow the first two digits.
fn is_whole_cents(digits: &[u8]) -> bool
    ensures { result ≡ list_all (λ b. b == 48) (drop 2 digits.now) }
{
    match digits {
        [_, _, rest @ ..] => are_zeros(rest),
        _ => true,
    }
}

fn are_zeros(digits: &[u8]) -> bool
    ensures { result ≡ list_all (λ b. b == 48) digits.now }
{
    digits.iter().all(|b| *b == b'0')
}
