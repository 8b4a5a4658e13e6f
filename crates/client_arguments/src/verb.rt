//! The arguments of the commands.

ghost use Rattle.std.specs.Prelude.{◌≡◌};
ghost use Rattle.std.specs.List.{find};
ghost use Rattle.std.specs.Option.{option_map};
ghost use Rattle.std.specs.Str.{bytes_eq};
ghost use Rattle.client_arguments.specs.Arguments.{verb_word};
ghost use Rattle.client_arguments.specs.Reading.{Reads};

use crate::fault::ArgumentsFault;
use ofx_types::Text;

/// A command, by its own word.
#[derive(Clone, Copy, Debug, PartialEq, Eq)]
pub enum Verb {
    /// `sync`
    Sync,
    /// `transfer`
    Transfer,
    /// `modify`
    Modify,
    /// `cancel`
    Cancel,
    /// `repeat`
    Repeat,
    /// `stop`
    Stop,
    /// `mail`
    Mail,
    /// `check`
    Check,
    /// `show`
    Show,
}

/// All commands.
const VERBS: [Verb; 9] = [
    Verb::Sync,
    Verb::Transfer,
    Verb::Modify,
    Verb::Cancel,
    Verb::Repeat,
    Verb::Stop,
    Verb::Mail,
    Verb::Check,
    Verb::Show,
];

/// The word of a command.
fn word_of(verb: Verb) -> &'static [u8]
    ensures { result.now ≡ verb_word verb }
{
    match verb {
        Verb::Sync => b"sync",
        Verb::Transfer => b"transfer",
        Verb::Modify => b"modify",
        Verb::Cancel => b"cancel",
        Verb::Repeat => b"repeat",
        Verb::Stop => b"stop",
        Verb::Mail => b"mail",
        Verb::Check => b"check",
        Verb::Show => b"show",
    }
}

/// The first of these commands whose word this is.
fn verb_among<'v>(argument: &Text, verbs: &'v [Verb]) -> Option<&'v Verb>
    ensures { option_map (λ verb. verb.now) result ≡ find (λ verb. bytes_eq argument.now (verb_word verb)) verbs.now }
{
    verbs
        .iter()
        .find(|verb| argument.as_bytes() == word_of(**verb))
}

/// The command whose word this is.
pub(crate) fn verb_of(argument: &Text) -> Result<Verb, ArgumentsFault>
    ensures { Reads (λ (verb : Verb). argument.now ≡ verb_word verb) result }
{
    match verb_among(argument, &VERBS) {
        Some(verb) => Ok(*verb),
        None => Err(ArgumentsFault::Usage),
    }
}
