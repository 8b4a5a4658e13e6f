//! The line before a file: `FILE`, a space and the number of the file's bytes. How many they may be is the caller's rule.

ghost use Rattle.std.specs.Prelude.{◌≡◌, ℕ, ◌≤◌, length, Some, None, IfSome, IfNone, IsTrue, ◌↔◌, if◌then◌else◌};
ghost use Rattle.std.specs.Str.{all_ascii_digits};
ghost use Rattle.std.specs.Fmt.{decimal};
ghost use Rattle.bank_frames.specs.Frames.{length_line};
ghost use Rattle.bank_frames.specs.FirstLine.{number_from, MayBeLength};

/// The most digits of the number of a file's bytes.
const MAX_DIGITS: usize = 8;

/// The number that digits stand for. None where a byte is no digit.
fn number(digits: &[u8]) -> Option<usize>
    requires { length digits.now ≤ 8 }
    ensures { result ≡ (if all_ascii_digits digits.now then Some (number_from 0 digits.now) else None) }
{
    let mut value = 0;
    for digit in digits {
        if !digit.is_ascii_digit() {
            return None;
        }
        value = value * 10 + (*digit - b'0') as usize;
    }
    Some(value)
}

/// Whether digits are as many as a length may have, without a leading zero.
fn may_be_length(digits: &[u8]) -> bool
    ensures { IsTrue result ↔ MayBeLength digits.now }
{
    match digits {
        [] => false,
        [_] => true,
        [b'0', ..] => false,
        _ => digits.len() <= MAX_DIGITS,
    }
}

/// The length that digits stand for, where they are the text of a length: no leading zero, and no length over
/// the limit.
fn length_of(digits: &[u8], most: usize) -> Option<usize>
    requires { most ≤ 99999999 }
    ensures some { IfSome result (λ n. (n ≤ most) × (digits.now ≡ decimal n)) }
    ensures none { IfNone result ((n : ℕ) → n ≤ most → digits.now ≡ decimal n → ⊥) }
{
    if !may_be_length(digits) {
        return None;
    }
    match number(digits) {
        None => None,
        Some(n) => { if n <= most { Some(n) } else { None } }
    }
}

/// The length that a line before a file gives, the line without its LF: at most this limit, which has at most eight digits.
pub fn length_in(line: &[u8], most: usize) -> Option<usize>
    requires { most ≤ 99999999 }
    ensures some { IfSome result (λ n. (n ≤ most) × (line.now ≡ length_line n)) }
    ensures none { IfNone result ((n : ℕ) → n ≤ most → line.now ≡ length_line n → ⊥) }
{
    match line {
        [b'F', b'I', b'L', b'E', b' ', digits @ ..] => length_of(digits, most),
        _ => None,
    }
}
