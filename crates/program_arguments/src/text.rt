//! Single words of a command line.

ghost use Rattle.std.specs.Prelude.{◌≡◌, ◌↔◌, IsTrue};

use ofx_types::Text;

/// Whether a word has these bytes.
pub fn is_word(argument: &Text, expected: &[u8]) -> bool
    ensures { IsTrue result ↔ (argument.now ≡ expected.now) }
{
    argument.as_bytes() == expected
}

/// The word at an offset, from 0. None where there is none.
pub fn named(arguments: &[Text], offset: usize) -> Option<&str> {
    str::from_utf8(arguments.get(offset)?.as_bytes()).ok()
}

/// The word at an offset, from 0. Empty where there is none.
pub fn text_at(arguments: &[Text], offset: usize) -> &str {
    named(arguments, offset).unwrap_or("")
}
