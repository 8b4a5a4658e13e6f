//! Commands: what they wish.

ghost use Rattle.std.specs.Prelude.{ℕ, List};
ghost use Rattle.client_arguments.specs.declared.verb.Verb.TheVariants as verbs;
ghost use Rattle.client_arguments.specs.Arguments.{IsWished, IsWishedBy, IsAbout, IsOfId};
ghost use Rattle.client_arguments.specs.Reading.{Reads};

use crate::account::{account_of, is_within};
use crate::day::day_word;
use crate::fault::ArgumentsFault;
use crate::number::id_of;
use crate::payment::{amount_of, repeat_of, transfer_of};
use crate::verb::{Verb, verb_of};
use client_core::Wish;
use ofx_types::{AcctName, Duplicate, Text};

/// The most bytes of a mail's subject.
pub(crate) const MAX_SUBJECT: usize = 64;

/// The most bytes of a mail's body.
pub(crate) const MAX_BODY: usize = 10_000;

/// The account that is all that a command has.
fn about(bank: &Text, arguments: &[Text]) -> Result<AcctName, ArgumentsFault>
    ensures { Reads (IsAbout bank.now arguments.now) result }
{
    match arguments {
        [number, kind] => account_of(bank, number, kind),
        _ => Err(ArgumentsFault::Usage),
    }
}

/// The id that is all that a command has.
fn of_id(arguments: &[Text]) -> Result<u64, ArgumentsFault>
    ensures { Reads (IsOfId arguments.now) result }
{
    match arguments {
        [argument] => id_of(argument),
        _ => Err(ArgumentsFault::Usage),
    }
}

/// The change that the arguments after `modify` say.
fn modify_of(bank: &Text, arguments: &[Text]) -> Result<Wish, ArgumentsFault>
    ensures { Reads (IsWishedBy bank.now verbs.Modify arguments.now) result }
{
    match arguments {
        [argument, number, kind, amount, day] => {
            let id = id_of(argument)?;
            let to = account_of(bank, number, kind)?;
            let amount = amount_of(amount)?;
            let day = day_word(day)?;
            Ok(Wish::Modify(id, to, amount, day))
        }
        _ => Err(ArgumentsFault::Usage),
    }
}

/// The mail that the arguments after `mail` say.
fn mail_of(arguments: &[Text]) -> Result<Wish, ArgumentsFault>
    ensures { (bank : List ℕ) → Reads (IsWishedBy bank verbs.Mail arguments.now) result }
{
    match arguments {
        [subject, body] => {
            if !is_within(subject, MAX_SUBJECT) || !is_within(body, MAX_BODY) {
                return Err(ArgumentsFault::Usage);
            }
            Ok(Wish::Mail(subject.copy()?, body.copy()?))
        }
        _ => Err(ArgumentsFault::Usage),
    }
}

/// The wish to be shown what is kept, which takes no arguments after `show`.
fn show_of(arguments: &[Text]) -> Result<Wish, ArgumentsFault>
    ensures { (bank : List ℕ) → Reads (IsWishedBy bank verbs.Show arguments.now) result }
{
    if arguments.is_empty() {
        Ok(Wish::Show)
    } else {
        Err(ArgumentsFault::Usage)
    }
}

/// What the arguments after `sync` wish.
fn sync_of(bank: &Text, arguments: &[Text]) -> Result<Wish, ArgumentsFault>
    ensures { Reads (IsWishedBy bank.now verbs.Sync arguments.now) result }
{
    Ok(Wish::Sync(about(bank, arguments)?))
}

/// What the arguments after `transfer` wish.
fn transfer_wish(bank: &Text, arguments: &[Text]) -> Result<Wish, ArgumentsFault>
    ensures { Reads (IsWishedBy bank.now verbs.Transfer arguments.now) result }
{
    Ok(Wish::Transfer(transfer_of(bank, arguments)?))
}

/// What the arguments after `repeat` wish.
fn repeat_wish(bank: &Text, arguments: &[Text]) -> Result<Wish, ArgumentsFault>
    ensures { Reads (IsWishedBy bank.now verbs.Repeat arguments.now) result }
{
    let (recur, info) = repeat_of(bank, arguments)?;
    Ok(Wish::Repeat(recur, info))
}

/// What the arguments after `check` wish.
fn check_of(bank: &Text, arguments: &[Text]) -> Result<Wish, ArgumentsFault>
    ensures { Reads (IsWishedBy bank.now verbs.Check arguments.now) result }
{
    Ok(Wish::Check(about(bank, arguments)?))
}

/// What the arguments after `cancel` wish.
fn cancel_of(arguments: &[Text]) -> Result<Wish, ArgumentsFault>
    ensures { (bank : List ℕ) → Reads (IsWishedBy bank verbs.Cancel arguments.now) result }
{
    Ok(Wish::Cancel(of_id(arguments)?))
}

/// What the arguments after `stop` wish.
fn stop_of(arguments: &[Text]) -> Result<Wish, ArgumentsFault>
    ensures { (bank : List ℕ) → Reads (IsWishedBy bank verbs.Stop arguments.now) result }
{
    Ok(Wish::Stop(of_id(arguments)?))
}

/// What a command wishes with these arguments after its own.
fn wish_by(bank: &Text, verb: Verb, arguments: &[Text]) -> Result<Wish, ArgumentsFault>
    ensures { Reads (IsWishedBy bank.now verb arguments.now) result }
{
    match verb {
        Verb::Sync => sync_of(bank, arguments),
        Verb::Transfer => transfer_wish(bank, arguments),
        Verb::Modify => modify_of(bank, arguments),
        Verb::Cancel => cancel_of(arguments),
        Verb::Repeat => repeat_wish(bank, arguments),
        Verb::Stop => stop_of(arguments),
        Verb::Mail => mail_of(arguments),
        Verb::Check => check_of(bank, arguments),
        Verb::Show => show_of(arguments),
    }
}

/// What the arguments of a command wish, at the bank of this id.
pub(crate) fn wish_of(bank: &Text, arguments: &[Text]) -> Result<Wish, ArgumentsFault>
    ensures { Reads (IsWished bank.now arguments.now) result }
{
    match arguments {
        [argument, rest @ ..] => {
            let verb = verb_of(argument)?;
            wish_by(bank, verb, rest)
        }
        [] => Err(ArgumentsFault::Usage),
    }
}
