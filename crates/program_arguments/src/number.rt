//! Numbers among the arguments.

ghost use Rattle.std.specs.Prelude.{◌≡◌, ◌↔◌, ◌≤◌, ◌<◌, ◌^◌, ℕ, IfSome, IfNone, IsTrue};
ghost use Rattle.std.specs.Fmt.{decimal};
ghost use Rattle.program_arguments.specs.Numbers.{IsNumber};

use crate::text::is_word;
use itoa::Buffer;
use ofx_types::Text;

/// The number within these bounds of which a word is the text: decimal digits, without a sign or a leading zero.
///
/// ```rust
/// use ofx_types::Text;
/// use program_arguments::number_within;
///
/// let word = Text::new(rt.alloc(), b"8080", 64).expect(&rt, "a word");
/// assert!(rt; number_within(&word, 1, 65_535) == Some(8080));
/// assert!(rt; number_within(&word, 1, 8_079) == None);
/// let word = Text::new(rt.alloc(), b"08", 64).expect(&rt, "a word");
/// assert!(rt; number_within(&word, 0, 65_535) == None);
/// ```
pub fn number_within(argument: &Text, least: u64, most: u64) -> Option<u64>
    ensures some { IfSome result (IsNumber least most argument.now) }
    ensures none { IfNone result ((n : ℕ) → IsNumber least most argument.now n → ⊥) }
{
    let number = number_of(argument)?;
    if number < least {
        return None;
    }
    if most < number {
        return None;
    }
    Some(number)
}

/// The number of eight bytes of which a word is the text.
fn number_of(argument: &Text) -> Option<u64>
    ensures some { IfSome result (λ n. argument.now ≡ decimal n) }
    ensures none { IfNone result ((n : ℕ) → n < 2 ^ 64 → argument.now ≡ decimal n → ⊥) }
{
    let Ok(text) = str::from_utf8(argument.as_bytes()) else {
        return None;
    };
    let Ok(number) = text.parse::<u64>() else {
        return None;
    };
    if is_text_of(argument, number) {
        Some(number)
    } else {
        None
    }
}

/// Whether a word is the text of a number.
fn is_text_of(argument: &Text, number: u64) -> bool
    ensures { IsTrue result ↔ (argument.now ≡ decimal number) }
{
    is_word(argument, Buffer::new().format(number).as_bytes())
}
