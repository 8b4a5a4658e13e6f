//! The server's first message.

ghost use Rattle.std.specs.Prelude.{◌≡◌, ◌<◌, ◌≤◌, IfOk, IfSome, length, position};
ghost use Rattle.std.specs.List.{before_first, after_first};
ghost use Rattle.base64.specs.Engines.{standard};
ghost use Rattle.base64.specs.GeneralPurpose.{decode_of};
ghost use Rattle.scram_sha256.specs.Exchange.{attribute, is_comma, rounds_in, decoded};
ghost use Rattle.scram_sha256.specs.Exchange as exchange;
ghost use Rattle.scram_sha256.specs.Views.{challenge_of, Answers};

use crate::exchange::ScramFault;
use base64::DecodeAllocError;
use base64::engine::general_purpose::STANDARD;
use ofx_values::read_number;
use std::alloc::Global;

/// The fewest rounds that are taken, those of RFC 7677.
pub const MIN_ROUNDS: u64 = 4096;

/// The most rounds that are taken.
pub const MAX_ROUNDS: u64 = 1_000_000;

/// What the server asks: its nonce, the salt, and how many rounds.
#[derive(Drop)]
pub struct Challenge<'a> {
    pub nonce: &'a [u8],
    pub salt: Vec<u8>,
    pub rounds: u32,
}

/// The challenge that a text is.
///
/// `Refused` exactly where it is none: attributes `r`, `s` and `i` in this order and no more, the salt in base64, and at least
/// 4,096 rounds, at most 1,000,000.
#[tactic(auto, unfolding(crate::specs::Exchange::challenge))]
pub fn read_challenge(alloc: Global, text: &[u8]) -> Result<Challenge, ScramFault>
    ensures gives { Answers challenge_of result (exchange.challenge text.now) }
    ensures rounds { IfOk result (λ c. 1 ≤ c.rounds) }
{
    let (nonce, rest) = read_attribute(b'r', text)?;
    let (salt, rest) = read_attribute(b's', rest)?;
    let salt = decode(alloc, salt)?;
    let (digits, rest) = read_attribute(b'i', rest)?;
    if !rest.is_empty() {
        return Err(ScramFault::Refused);
    }
    let rounds = read_rounds(digits)?;
    Ok(Challenge {
        nonce,
        salt,
        rounds,
    })
}

/// The attribute of this letter at the start, and what follows its comma.
fn read_attribute(letter: u8, text: &[u8]) -> Result<(&[u8], &[u8]), ScramFault>
    ensures { Answers (λ x. (x.0.now, x.1.now)) result (attribute letter text.now) }
{
    match text {
        [x, y, rest @ ..] if *x == letter && *y == b'=' => Ok(split_at_comma(rest)),
        _ => Err(ScramFault::Refused),
    }
}

/// What precedes the first comma, and after it.
fn split_at_comma(text: &[u8]) -> (&[u8], &[u8])
    ensures before { result.0.now ≡ before_first is_comma text.now }
    ensures after { result.1.now ≡ after_first is_comma text.now }
{
    match comma_in(text) {
        Some(comma) => (&text[..comma], &text[comma + 1..]),
        None => (text, &[]),
    }
}

fn comma_in(text: &[u8]) -> Option<usize>
    ensures offset { result ≡ position is_comma text.now }
    ensures within { IfSome result (λ n. n < length text.now) }
{
    text.iter().position(|b| *b == b',')
}

fn decode(alloc: Global, text: &[u8]) -> Result<Vec<u8>, ScramFault>
    ensures { Answers (λ v. v.items) result (decoded (decode_of standard text.now)) }
{
    match STANDARD.decode(alloc, text) {
        Ok(bytes) => Ok(bytes),
        Err(DecodeAllocError::OutOfMemory) => Err(ScramFault::OutOfMemory),
        Err(_) => Err(ScramFault::Refused),
    }
}

/// The count of rounds that digits are.
fn read_rounds(digits: &[u8]) -> Result<u32, ScramFault>
    ensures gives { Answers (λ n. n) result (rounds_in digits.now) }
    ensures least { IfOk result (λ n. 1 ≤ n) }
{
    match read_number(digits, 9) {
        Some(rounds) if MIN_ROUNDS <= rounds && rounds <= MAX_ROUNDS => Ok(rounds as u32),
        _ => Err(ScramFault::Refused),
    }
}
