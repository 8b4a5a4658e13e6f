//! Why a command stops whose bank doesn't open from its records.

ghost use Rattle.std.specs.Prelude.{◌≡◌};
ghost use Rattle.bank_opening.specs.RecordsRead as rules;

use crate::stop::{RecordsFault, Stop};
use bank_replay::OpenFault;

/// With what a command stops whose bank doesn't open from its records.
pub fn opening_stop(fault: OpenFault) -> Stop
    ensures { result ≡ rules.opening_stop fault }
{
    match fault {
        OpenFault::Read => Stop::KeeperFailed,
        OpenFault::Record(number, at) => Stop::Records(RecordsFault::NoForm(number, at)),
        OpenFault::Illegal(number) => Stop::Records(RecordsFault::NotLegal(number)),
        OpenFault::OutOfMemory => Stop::NoMemory,
    }
}
