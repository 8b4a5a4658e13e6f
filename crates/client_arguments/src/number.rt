//! Numbers among the arguments.

ghost use Rattle.client_arguments.specs.Arguments.{IsIdWord, IsCount};
ghost use Rattle.program_arguments.specs.Numbers.{IsNumber};
ghost use Rattle.client_arguments.specs.Reading.{Reads};

use crate::fault::ArgumentsFault;
use ofx_types::Text;
use ofx_values::read_number;
use program_arguments::number_within;

/// The most digits of an id.
const MAX_DIGITS: usize = 10;

/// The most transfers of a series.
pub(crate) const MAX_COUNT: u64 = 999;

/// The greatest port.
pub(crate) const MAX_PORT: u64 = 65_535;

/// The number up to a limit of which a word is the text, without a leading zero.
fn number_up_to(most: u64, argument: &Text) -> Result<u64, ArgumentsFault>
    ensures { Reads (IsNumber 0 most argument.now) result }
{
    match number_within(argument, 0, most) {
        Some(number) => Ok(number),
        None => Err(ArgumentsFault::Usage),
    }
}

/// The port that a word names.
pub(crate) fn port_of(argument: &Text) -> Result<u16, ArgumentsFault>
    ensures { Reads (IsNumber 0 65535 argument.now) result }
{
    let port = number_up_to(MAX_PORT, argument)?;
    Ok(port as u16)
}

/// The number of transfers of a series. None where there is no end.
pub(crate) fn count_of(argument: &Text) -> Result<Option<u32>, ArgumentsFault>
    ensures { Reads (IsCount argument.now) result }
{
    match number_up_to(MAX_COUNT, argument)? {
        0 => Ok(None),
        count => Ok(Some(count as u32)),
    }
}

/// The id that a word names.
pub(crate) fn id_of(argument: &Text) -> Result<u64, ArgumentsFault>
    ensures { Reads (IsIdWord argument.now) result }
{
    match read_number(argument.as_bytes(), MAX_DIGITS) {
        Some(id) => Ok(id),
        None => Err(ArgumentsFault::Usage),
    }
}
