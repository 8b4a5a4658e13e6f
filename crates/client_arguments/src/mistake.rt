//! What is wrong with arguments that have no form: the first word that is missing, not wanted or not in form, in their order.

use crate::account::{MAX_NUMBER, is_within, kind_of};
use crate::command::{MAX_BODY, MAX_SUBJECT};
use crate::day::day_word;
use crate::number::{MAX_COUNT, MAX_PORT, id_of};
use crate::payment::{amount_of, freq_of};
use crate::reading::{MAX_NAME, MAX_PASS};
use crate::verb::{Verb, verb_of};
use client_saved::is_name;
use ofx_types::Text;
use program_arguments::{number_within, text_at};
use std::fmt;

/// What is wrong with words. Each variant has the number of the word first, counted from 1 after the program's name.
#[derive(Clone, Copy)]
pub enum Mistake<'a> {
    /// The word of this name is missing.
    Missing(usize, &'static str),
    /// This word is one too many.
    TooMany(usize, &'a str),
    /// The word of the first name has another form than the last text says.
    NoForm(usize, &'static str, &'a str, &'static str),
    /// The word of the first name, which isn't shown, has another form than the last text says.
    Secret(usize, &'static str, &'static str),
}

impl fmt::Display for Mistake<'_> {
    fn fmt<W: fmt::Write>(&self, f: &mut fmt::Formatter<W>) -> fmt::Result {
        match *self {
            Mistake::Missing(number, name) => write!(f, "word {number}, {name}, is missing"),
            Mistake::TooMany(number, argument) => {
                write!(f, "word {number}, '{argument}', is one too many")
            }
            Mistake::NoForm(number, name, argument, form) => write!(
                f,
                "word {number}, {name}, is '{argument}'; it has to be {form}"
            ),
            Mistake::Secret(number, name, form) => {
                write!(f, "word {number}, {name}, has to be {form}")
            }
        }
    }
}

/// What a word may be.
#[derive(Clone, Copy)]
enum Kind {
    Port,
    Store,
    Client,
    User,
    Pass,
    Bank,
    Number,
    Account,
    Amount,
    Day,
    Freq,
    Count,
    Id,
    Subject,
    Body,
}

/// The words before the command.
const PARTIES: [Kind; 6] = [
    Kind::Port,
    Kind::Store,
    Kind::Client,
    Kind::User,
    Kind::Pass,
    Kind::Bank,
];

impl Kind {
    /// The word's name, and its form.
    fn texts(self) -> (&'static str, &'static str) {
        match self {
            Kind::Port => ("PORT", "a number from 0 to 65535"),
            Kind::Store => ("STORE", "any word"),
            Kind::Client => ("CLIENT", "1 to 12 letters and digits"),
            Kind::User => ("USER", "1 to 32 bytes"),
            Kind::Pass => ("PASS", "1 to 64 bytes"),
            Kind::Bank => ("BANK", "1 to 32 bytes"),
            Kind::Number => ("NUMBER", "1 to 32 bytes"),
            Kind::Account => ("KIND", "CHECKING, SAVINGS, MONEYMRKT or CREDITLINE"),
            Kind::Amount => ("AMOUNT", "an amount of dollars, as 10.00"),
            Kind::Day => ("DAY", "a date, as 20240131"),
            Kind::Freq => (
                "FREQ",
                "WEEKLY, BIWEEKLY, TWICEMONTHLY, MONTHLY, FOURWEEKS, BIMONTHLY, QUARTERLY, SEMIANNUALLY or ANNUALLY",
            ),
            Kind::Count => ("COUNT", "a number from 0 to 999"),
            Kind::Id => ("ID", "1 to 10 digits"),
            Kind::Subject => ("SUBJECT", "1 to 64 bytes"),
            Kind::Body => ("BODY", "1 to 10000 bytes"),
        }
    }

    /// Whether a word has the form.
    fn has_form(self, argument: &Text) -> bool {
        match self {
            Kind::Port => number_within(argument, 0, MAX_PORT).is_some(),
            Kind::Store => true,
            Kind::Client => is_name(argument),
            Kind::User | Kind::Bank => is_within(argument, MAX_NAME),
            Kind::Pass => is_within(argument, MAX_PASS),
            Kind::Number => is_within(argument, MAX_NUMBER),
            Kind::Account => kind_of(argument).is_ok(),
            Kind::Amount => amount_of(argument).is_ok(),
            Kind::Day => day_word(argument).is_ok(),
            Kind::Freq => freq_of(argument).is_ok(),
            Kind::Count => number_within(argument, 0, MAX_COUNT).is_some(),
            Kind::Id => id_of(argument).is_ok(),
            Kind::Subject => is_within(argument, MAX_SUBJECT),
            Kind::Body => is_within(argument, MAX_BODY),
        }
    }
}

/// The words after a command's own. The last one of `transfer` may be left out.
fn kinds_of(verb: Verb) -> &'static [Kind] {
    match verb {
        Verb::Sync | Verb::Check => &[Kind::Number, Kind::Account],
        Verb::Transfer => &[
            Kind::Number,
            Kind::Account,
            Kind::Number,
            Kind::Account,
            Kind::Amount,
            Kind::Day,
        ],
        Verb::Modify => &[
            Kind::Id,
            Kind::Number,
            Kind::Account,
            Kind::Amount,
            Kind::Day,
        ],
        Verb::Cancel | Verb::Stop => &[Kind::Id],
        Verb::Repeat => &[
            Kind::Number,
            Kind::Account,
            Kind::Number,
            Kind::Account,
            Kind::Amount,
            Kind::Day,
            Kind::Freq,
            Kind::Count,
        ],
        Verb::Mail => &[Kind::Subject, Kind::Body],
        Verb::Show => &[],
    }
}

/// The commands, as a sentence names them.
const COMMANDS: &str =
    "sync, transfer, modify, cancel, repeat, stop, mail, check or show; --help says what each does";

/// The number of the word at this offset, from 1.
fn number_at(offset: usize) -> usize {
    offset.saturating_add(1)
}

/// What is wrong with arguments that have no form.
pub fn mistake_in(arguments: &[Text]) -> Mistake<'_> {
    if let Some(mistake) = mistake_among(arguments, 0, &PARTIES) {
        return mistake;
    }
    let place = PARTIES.len();
    let Some(command) = arguments.get(place) else {
        return Mistake::Missing(number_at(place), "COMMAND");
    };
    let Ok(verb) = verb_of(command) else {
        return Mistake::NoForm(
            number_at(place),
            "COMMAND",
            text_at(arguments, place),
            COMMANDS,
        );
    };
    let kinds = kinds_of(verb);
    match mistake_among(arguments, number_at(place), kinds) {
        Some(mistake) => mistake,
        None => {
            let offset = number_at(place).saturating_add(kinds.len());
            Mistake::TooMany(number_at(offset), text_at(arguments, offset))
        }
    }
}

/// What is wrong with the words of these kinds from an offset on.
fn mistake_among<'a>(arguments: &'a [Text], first: usize, kinds: &[Kind]) -> Option<Mistake<'a>> {
    let mut offset = first;
    for kind in kinds {
        let (name, form) = kind.texts();
        let number = number_at(offset);
        match arguments.get(offset) {
            None => return Some(Mistake::Missing(number, name)),
            Some(argument) => {
                if !kind.has_form(argument) {
                    return Some(match *kind {
                        Kind::Pass => Mistake::Secret(number, name, form),
                        _ => Mistake::NoForm(number, name, text_at(arguments, offset), form),
                    });
                }
            }
        }
        offset = number;
    }
    None
}
