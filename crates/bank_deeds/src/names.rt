//! Names of accounts as rows keep them.

ghost use Rattle.std.specs.Prelude.{◌≡◌, IfOk};

use bank_model::Setup;
use ofx_types::{AcctName, Duplicate, OutOfMemory};

/// A copy of an account's name. Where the setup has the account it is a copy of the setup's own, whose bytes it shares, so
/// that a row keeps none of a file's. Takes no memory.
pub(crate) fn own_name(setup: &Setup, name: &AcctName) -> Result<AcctName, OutOfMemory>
    ensures { IfOk result (λ own. own ≡ name.now) }
{
    match setup.accounts.find(name) {
        Some(index) => setup.accounts.items()[index].name.copy(),
        None => name.copy(),
    }
}
