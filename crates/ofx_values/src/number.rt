//! Numbers as they are in a file: digits alone.

ghost use Rattle.std.specs.Prelude.{◌≡◌, ◌≤◌};
ghost use Rattle.ofx_types.specs.TextRules.{trimmed};
ghost use Rattle.ofx_types.specs.NumberReading as reading;

use crate::digits::{are_digits, number};
use ofx_types::trim;

/// The number that the bytes are, after trimming: 1 digit up to `most` of them, at most ten. Leading zeros are let pass.
///
/// `None` where the bytes are no such number.
#[tactic(auto, unfolding(ofx_types::specs::NumberReading::number_at))]
pub fn read_number(raw: &[u8], most: usize) -> Option<u64>
    requires { most ≤ 10 }
    ensures { result ≡ reading.number_at most (trimmed raw.now) }
{
    let text = trim(raw);
    if is_number_within(most, text) {
        Some(number(text) as u64)
    } else {
        None
    }
}

/// Whether the bytes are 1 digit up to the limit.
fn is_number_within(most: usize, text: &[u8]) -> bool
    ensures { result ≡ reading.is_number_within most text.now }
{
    !text.is_empty() && text.len() <= most && are_digits(text)
}
