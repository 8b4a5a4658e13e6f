//! The arguments of `rehearse`.

ghost use Rattle.std.specs.Prelude.{ℕ, IfSome, IfNone};
ghost use Rattle.bank_arguments.specs.Arguments.{AreSeedArguments};

use ofx_types::Text;
use program_arguments::{is_word, number_within};

/// The seed that the arguments `rehearse` and a number name. None where they have another form.
pub(crate) fn seed_of(arguments: &[Text]) -> Option<u64>
    ensures some { IfSome result (AreSeedArguments arguments.now) }
    ensures none { IfNone result ((n : ℕ) → AreSeedArguments arguments.now n → ⊥) }
{
    match arguments {
        [command, number] => {
            if is_word(command, b"rehearse") {
                number_within(number, 0, u64::MAX)
            } else {
                None
            }
        }
        _ => None,
    }
}
