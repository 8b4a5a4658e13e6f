//! Days among the arguments.

ghost use Rattle.client_arguments.specs.Arguments.{IsDayWord, IsMaybeDay};
ghost use Rattle.client_arguments.specs.Reading.{Reads};

use crate::fault::ArgumentsFault;
use ofx_types::{Day, Text};
use ofx_values::{day_of, read_moment};

/// The number of digits of a day.
const DIGITS: usize = 8;

/// The day that a word names. Eight bytes that are a date have neither a time nor a zone.
pub(crate) fn day_word(argument: &Text) -> Result<Day, ArgumentsFault>
    ensures { Reads (IsDayWord argument.now) result }
{
    if argument.as_bytes().len() != DIGITS {
        return Err(ArgumentsFault::Usage);
    }
    match read_moment(argument.as_bytes()) {
        Ok(moment) => Ok(day_of(moment)),
        Err(_) => Err(ArgumentsFault::Usage),
    }
}

/// The day that comes after all else, if one does.
pub(crate) fn last_day(arguments: &[Text]) -> Result<Option<Day>, ArgumentsFault>
    ensures { Reads (IsMaybeDay arguments.now) result }
{
    match arguments {
        [] => Ok(None),
        [argument] => Ok(Some(day_word(argument)?)),
        _ => Err(ArgumentsFault::Usage),
    }
}
