//! Why a run stops whose desk left a piece of work undone.

ghost use Rattle.std.specs.Prelude.{◌≡◌};
ghost use Rattle.bank_session.specs.Stopping as rules;

use bank_desk::DeskFault;
use bank_opening::Stop;

/// With what a run stops after this fault of its desk.
pub fn stop_of(undone: DeskFault) -> Stop
    ensures { result ≡ rules.stop_of undone }
{
    match undone {
        DeskFault::NoMemory => Stop::NoMemory,
        DeskFault::AppendFailed => Stop::KeeperFailed,
    }
}
