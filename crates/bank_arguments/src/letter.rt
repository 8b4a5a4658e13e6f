//! The arguments of `mail`.

ghost use Rattle.std.specs.Prelude.{◌≡◌, ◌↔◌, ℕ, List, IfSome, IfNone, IsTrue};
ghost use Rattle.bank_model.specs.Sound.{IsTextWithin};
ghost use Rattle.bank_arguments.specs.Arguments.{AreMailArguments, AskForLetter};

use crate::command::LetterArguments;
use ofx_types::Text;
use program_arguments::is_word;

/// The most bytes of a letter's subject.
const MAX_SUBJECT: usize = 64;

/// Whether a word may be the subject of a letter.
pub(crate) fn is_subject(argument: &Text) -> bool
    ensures { IsTrue result ↔ IsTextWithin 64 argument.now }
{
    let length = argument.as_bytes().len();
    0 < length && length <= MAX_SUBJECT
}

/// What the arguments of `mail` say. None where the arguments have another form.
pub(crate) fn letter_arguments(arguments: &[Text]) -> Option<LetterArguments<'_>>
    ensures some { IfSome result (λ letter. AreMailArguments arguments.now letter.name.now letter.subject.now) }
    ensures none { IfNone result (AskForLetter arguments.now → ⊥) }
{
    match arguments {
        [command, _setup, _records, name, subject] => {
            if is_word(command, b"mail") && is_subject(subject) {
                Some(LetterArguments { name, subject })
            } else {
                None
            }
        }
        _ => None,
    }
}
