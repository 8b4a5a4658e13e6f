//! What is wrong with arguments that have no form: first a path that is none, then a word that is missing, or an option or a word
//! that isn't wanted, and then the first word that isn't in form.

use crate::plan::{MAX_CONNECTIONS, MAX_PORT, MAX_WORKERS};
use crate::topic::{Topic, path_mistake};
use ofx_types::Text;
use ofx_values::read_moment;
use program_arguments::{number_within, text_at};
use std::fmt;

/// What is wrong with words.
#[derive(Clone, Copy)]
pub enum Mistake<'a> {
    /// There is no command.
    NoCommand,
    /// No command has this name.
    Unknown(&'a str),
    /// The word of this name is missing.
    Missing(&'static str),
    /// This word is one too many.
    TooMany(&'a str),
    /// The word of the first name begins with `-`.
    NoPath(&'static str, &'a str),
    /// This is no option of the command.
    NoOption(&'a str),
    /// This is no date.
    NoDate(&'a str),
    /// This is no subject of a letter.
    NoSubject(&'a str),
    /// The word of the first name is no number in form, within these bounds.
    NoNumber(&'static str, &'a str, u64, u64),
}

impl fmt::Display for Mistake<'_> {
    fn fmt<W: fmt::Write>(&self, f: &mut fmt::Formatter<W>) -> fmt::Result {
        match *self {
            Mistake::NoCommand => f.write_str("a command is missing"),
            Mistake::Unknown(argument) => write!(f, "there is no command '{argument}'"),
            Mistake::Missing(name) => write!(f, "{name} is missing"),
            Mistake::TooMany(argument) => write!(f, "'{argument}' is one word too many"),
            Mistake::NoPath(name, argument) => write!(
                f,
                "{name} is '{argument}', which is no path; a file of that name is ./{argument}"
            ),
            Mistake::NoOption(argument) => write!(f, "'{argument}' is no option of this command"),
            Mistake::NoDate(argument) => write!(
                f,
                "DATE is '{argument}', which is no date; one is 20240131 or 20240131120000, perhaps with a zone as [-5:EST]"
            ),
            Mistake::NoSubject(argument) => write!(
                f,
                "SUBJECT is '{argument}', which has not 1 to 64 bytes"
            ),
            Mistake::NoNumber(name, argument, least, most) => write!(
                f,
                "{name} is '{argument}'; it is a number from {least} to {most}"
            ),
        }
    }
}

/// What is wrong with arguments that have no form.
pub(crate) fn mistake_in(arguments: &[Text]) -> Mistake<'_> {
    if arguments.is_empty() {
        return Mistake::NoCommand;
    }
    let name = text_at(arguments, 0);
    match Topic::named(name) {
        None => Mistake::Unknown(name),
        Some(topic) => match path_mistake(arguments) {
            Some(mistake) => mistake,
            None => mistake_of(topic, arguments),
        },
    }
}

/// What is wrong with the arguments of a command, whose paths may be such.
fn mistake_of(topic: Topic, arguments: &[Text]) -> Mistake<'_> {
    let given = arguments.len().saturating_sub(1);
    let needs = topic.needs();
    if let Some(name) = needs.get(given) {
        return Mistake::Missing(name);
    }
    match topic {
        Topic::Answer => option_mistake(arguments),
        Topic::Check => Mistake::TooMany(text_at(arguments, 3)),
        Topic::Mail if given == needs.len() => Mistake::NoSubject(text_at(arguments, 4)),
        Topic::Rehearse if given == needs.len() => {
            Mistake::NoNumber("SEED", text_at(arguments, 1), 0, u64::MAX)
        }
        Topic::Serve if given == needs.len() => number_mistake(arguments),
        _ => Mistake::TooMany(text_at(arguments, needs.len().saturating_add(1))),
    }
}

/// What is wrong with the arguments of `answer` after the records.
fn option_mistake(arguments: &[Text]) -> Mistake<'_> {
    let option = text_at(arguments, 3);
    if option != "--at" {
        return Mistake::NoOption(option);
    }
    if arguments.len() == 4 {
        return Mistake::Missing("DATE");
    }
    let date = text_at(arguments, 4);
    match read_moment(date.as_bytes()) {
        Ok(_) => Mistake::TooMany(text_at(arguments, 5)),
        Err(_) => Mistake::NoDate(date),
    }
}

/// The first of the three numbers of `serve` that isn't in form.
fn number_mistake(arguments: &[Text]) -> Mistake<'_> {
    if !is_within(arguments, 3, 1, MAX_PORT) {
        return Mistake::NoNumber("PORT", text_at(arguments, 3), 1, MAX_PORT);
    }
    if !is_within(arguments, 4, 1, MAX_WORKERS) {
        return Mistake::NoNumber("WORKERS", text_at(arguments, 4), 1, MAX_WORKERS);
    }
    Mistake::NoNumber("CONNECTIONS", text_at(arguments, 5), 0, MAX_CONNECTIONS)
}

/// Whether the word at an offset is a number within bounds.
fn is_within(arguments: &[Text], offset: usize, least: u64, most: u64) -> bool {
    match arguments.get(offset) {
        Some(argument) => number_within(argument, least, most).is_some(),
        None => false,
    }
}
