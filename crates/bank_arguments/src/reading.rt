//! A command line, read once.

ghost use Rattle.std.specs.Prelude.{◌≡◌, ◌↔◌, ℕ, List, Option, Result, IfOk, IsTrue};
ghost use Rattle.ofx_types.specs.declared.number.Moment.{Moment};
ghost use Rattle.bank_arguments.specs.Arguments.{AreArguments, AreCheckArguments, AreDueArguments, AreMailArguments, AreSeedArguments};
ghost use Rattle.bank_arguments.specs.Plans.{AreServeArguments};
ghost use Rattle.bank_arguments.specs.Reading.{Asks, ReadsCommand, ReadsOther, ReadsNumbered, IsAnswer, IsLetter};
ghost use Rattle.bank_arguments.specs.declared.command.Plan.{Plan as ThePlan};

use crate::answer::answer_arguments;
use crate::command::Command;
use crate::letter::letter_arguments;
use crate::mistake::{Mistake, mistake_in};
use crate::plan::plan_of;
use crate::seed::seed_of;
use ofx_types::Text;
use program_arguments::is_word;

/// What a command line asks for. Where it has no form, what is wrong with it.
///
/// ```rust
/// use bank_arguments::{Command, Plan, command_of};
/// use ofx_types::Text;
///
/// let mut arguments = Vec::new(rt.alloc());
/// for word in "serve setup records 8080 4 0".split(' ') {
///     let word = Text::new(rt.alloc(), word.as_bytes(), 64).expect(&rt, "a word");
///     arguments.push(word).expect(&rt, "room");
/// }
/// let Ok(Command::Serve(plan)) = command_of(&arguments) else {
///     panic!(rt; "the command serve");
/// };
/// assert!(rt; plan == Plan { port: 8080, workers: 4, most: 0 });
/// let mistake = command_of(&arguments[..5]).err().expect(&rt, "a mistake");
/// let reported = format!(in rt.alloc(); "{mistake}").expect(&rt, "room");
/// assert_eq!(rt; reported.as_str(), "CONNECTIONS is missing");
/// ```
pub fn command_of(arguments: &[Text]) -> Result<Command<'_>, Mistake<'_>>
    ensures asks { IfOk result (Asks arguments.now) }
    // Arguments of a command ask for it alone.
    ensures answer { (at : Option Moment) → AreArguments arguments.now at → IsAnswer at result }
    ensures check { AreCheckArguments arguments.now → result ≡ Ok Command.Check }
    ensures due { AreDueArguments arguments.now → result ≡ Ok Command.Due }
    ensures letter { (name subject : List ℕ) → AreMailArguments arguments.now name subject → IsLetter name subject result }
    ensures seed { (seed : ℕ) → AreSeedArguments arguments.now seed → result ≡ Ok (Command.Rehearse seed) }
    ensures plan { (plan : ThePlan) → AreServeArguments arguments.now plan → result ≡ Ok (Command.Serve plan) }
{
    match command_in(arguments) {
        Some(command) => Ok(command),
        None => Err(mistake_in(arguments)),
    }
}

/// What the arguments ask for. None where they have no form.
fn command_in(arguments: &[Text]) -> Option<Command<'_>>
    ensures { ReadsCommand arguments.now result }
{
    match answer_arguments(arguments) {
        Some(found) => Some(Command::Answer(found)),
        None => other_command(arguments),
    }
}

/// The same of arguments that don't ask for frames to be answered.
fn other_command(arguments: &[Text]) -> Option<Command<'_>>
    ensures { ReadsOther arguments.now result }
{
    if are_check_arguments(arguments) {
        return Some(Command::Check);
    }
    if are_due_arguments(arguments) {
        return Some(Command::Due);
    }
    match letter_arguments(arguments) {
        Some(letter) => Some(Command::Mail(letter)),
        None => numbered_command(arguments),
    }
}

/// The same of the commands with numbers.
fn numbered_command(arguments: &[Text]) -> Option<Command<'_>>
    ensures { ReadsNumbered arguments.now result }
{
    match seed_of(arguments) {
        Some(seed) => Some(Command::Rehearse(seed)),
        None => {
            let plan = plan_of(arguments)?;
            Some(Command::Serve(plan))
        }
    }
}

/// Whether the arguments are those of `check`.
fn are_check_arguments(arguments: &[Text]) -> bool
    ensures { IsTrue result ↔ AreCheckArguments arguments.now }
{
    match arguments {
        [command, _setup, rest @ ..] => is_word(command, b"check") && rest.len() <= 1,
        _ => false,
    }
}

/// Whether the arguments are those of `due`.
fn are_due_arguments(arguments: &[Text]) -> bool
    ensures { IsTrue result ↔ AreDueArguments arguments.now }
{
    match arguments {
        [command, _setup, _records] => is_word(command, b"due"),
        _ => false,
    }
}
