//! The arguments of `answer`.

ghost use Rattle.bank_arguments.specs.Arguments.{AreArguments, IsMomentOption};
ghost use Rattle.bank_arguments.specs.Reading.{Reads, IsNamedBy};

use crate::command::AnswerArguments;
use ofx_types::Text;
use ofx_values::laws::one_moment;
use ofx_values::read_moment;
use program_arguments::is_word;

/// The moment that a date names.
fn at_date(date: &[u8]) -> Option<AnswerArguments>
    ensures { Reads (IsNamedBy date.now) result }
{
    one_moment();
    match read_moment(date) {
        Ok(moment) => Some(AnswerArguments { at: Some(moment) }),
        Err(_) => None,
    }
}

/// The moment that the arguments after the records name: `--at` and a date, or nothing.
fn moment_option(arguments: &[Text]) -> Option<AnswerArguments>
    ensures { Reads (IsMomentOption arguments.now) result }
{
    match arguments {
        [] => Some(AnswerArguments { at: None }),
        [option, date] => {
            if is_word(option, b"--at") {
                at_date(date.as_bytes())
            } else {
                None
            }
        }
        _ => None,
    }
}

/// What the arguments of `answer` say. None where the arguments have another form.
pub(crate) fn answer_arguments(arguments: &[Text]) -> Option<AnswerArguments>
    ensures { Reads (AreArguments arguments.now) result }
{
    match arguments {
        [command, _setup, _records, rest @ ..] => {
            if is_word(command, b"answer") {
                moment_option(rest)
            } else {
                None
            }
        }
        _ => None,
    }
}
