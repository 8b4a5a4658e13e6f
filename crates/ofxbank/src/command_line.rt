//! What a command line asks of the program.

use bank_arguments::{Command, Mistake, Topic, command_of, path_mistake};
use ofx_types::Text;
use program_arguments::text_at;

/// The first words that ask for the version.
pub const VERSION_OPTIONS: [&str; 2] = ["-V", "--version"];

/// What the arguments ask.
#[derive(Clone, Copy)]
pub enum Request<'a> {
    /// Help about the program, or a command.
    Help(Option<Topic>),
    /// `--version`
    Version,
    /// A command.
    Run(Command<'a>),
    /// The arguments have no form.
    Usage(Mistake<'a>),
}

/// What the arguments ask, which are texts.
pub fn request_of(arguments: &[Text]) -> Request<'_> {
    match text_at(arguments, 0) {
        "-V" | "--version" => Request::Version,
        "help" | "-h" | "--help" => help_of(arguments),
        _ => command_or_help(arguments),
    }
}

/// What is asked by a first word that asks for help: about the program, or the command that the next word names.
fn help_of(arguments: &[Text]) -> Request<'_> {
    let name = text_at(arguments, 1);
    match Topic::named(name) {
        Some(topic) => Request::Help(Some(topic)),
        None if arguments.len() > 1 && text_at(arguments, 0) == "help" => {
            Request::Usage(Mistake::Unknown(name))
        }
        None => Request::Help(None),
    }
}

/// What is asked by a first word that may name a command.
fn command_or_help(arguments: &[Text]) -> Request<'_> {
    let mistake = match (command_of(arguments), path_mistake(arguments)) {
        (Ok(command), None) => return Request::Run(command),
        (Ok(_), Some(mistake)) => mistake,
        (Err(mistake), _) => mistake,
    };
    match Topic::named(text_at(arguments, 0)) {
        Some(topic) if asks_for_help(arguments) => Request::Help(Some(topic)),
        _ => Request::Usage(mistake),
    }
}

/// Whether a word after the command asks for help. Arguments that have a form are let be: a letter may be about `--help`.
fn asks_for_help(arguments: &[Text]) -> bool {
    for offset in 1..arguments.len() {
        let argument = text_at(arguments, offset);
        if argument == "-h" || argument == "--help" {
            return true;
        }
    }
    false
}
