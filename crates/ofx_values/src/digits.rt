//! The parts that amounts, dates and numbers share: digits and signs.

ghost use Rattle.std.specs.Prelude.{◌≡◌, ◌<◌, ◌≤◌, ◌^◌, length, IsTrue, IfSome};
ghost use Rattle.std.specs.List.{list_all};
ghost use Rattle.std.specs.Char.{is_ascii_digit};
ghost use Rattle.std.specs.Str.Parse.{digits_value};
ghost use Rattle.ofx_types.specs.ValueReading as reading;
ghost use Rattle.ofx_types.specs.ValueReading.{ReadsValue};

/// Whether all of the bytes are digits.
pub(crate) fn are_digits(text: &[u8]) -> bool
    ensures { result ≡ list_all is_ascii_digit text.now }
{
    text.iter().all(|b| b.is_ascii_digit())
}

/// The number that at most 32 digits stand for.
pub(crate) fn number(digits: &[u8]) -> u128
    requires short { length digits.now ≤ 32 }
    requires are { IsTrue (list_all is_ascii_digit digits.now) }
    ensures value { result ≡ digits_value 10 digits.now }
    ensures bound { result < 10 ^ 32 }
    ensures within { result < 10 ^ length digits.now }
{
    let mut value: u128 = 0;
    for digit in digits {
        value = 10 * value + (*digit - b'0') as u128;
    }
    value
}

/// The number that two digits stand for, and the bytes after them.
#[tactic(auto, unfolding(ofx_types::specs::ValueReading::pair_at))]
pub(crate) fn pair_at(text: &[u8]) -> Option<(u8, &[u8])>
    ensures gives { ReadsValue (λ x. (x.0, x.1.now)) result (reading.pair_at text.now) }
    ensures range { IfSome result (λ x. x.0 < 100) }
{
    match text {
        [tens, units, rest @ ..] if tens.is_ascii_digit() && units.is_ascii_digit() => {
            Some((10 * (*tens - b'0') + (*units - b'0'), rest))
        }
        _ => None,
    }
}

/// Whether a minus is here, and the bytes after the sign, if there is one.
#[tactic(auto, unfolding(ofx_types::specs::ValueReading::sign_at))]
pub(crate) fn sign_at(text: &[u8]) -> (bool, &[u8])
    ensures negative { result.0 ≡ (reading.sign_at text.now).0 }
    ensures rest { result.1.now ≡ (reading.sign_at text.now).1 }
    ensures within { length result.1.now ≤ length text.now }
{
    match text {
        [b'-', rest @ ..] => (true, rest),
        [b'+', rest @ ..] => (false, rest),
        _ => (false, text),
    }
}
