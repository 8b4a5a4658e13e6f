//! The accounts with which a bank opens.

ghost use Rattle.std.specs.Prelude.{◌≡◌, map, IfOk};
ghost use Rattle.bank_model.specs.SetupForm.{IsWithinLimits};
ghost use Rattle.bank_accounts.specs.Sides.{side_of};
ghost use Rattle.bank_core.specs.Opened.{AreOpened};

use bank_accounts::{Account, BookSides};
use bank_model::Setup;
use ofx_types::{AcctId, OutOfMemory};
use std::alloc::Global;

/// The accounts with which a bank opens, numbered from 0, and the book's sides of them.
pub(crate) fn opened_accounts(
    alloc: Global,
    setup: &Setup,
) -> Result<(Vec<Account>, BookSides), OutOfMemory>
    requires { IsWithinLimits setup.now }
    ensures accounts { IfOk result (λ opened. AreOpened setup.now opened.0.items) }
    ensures sides { IfOk result (λ opened. opened.1 ≡ map side_of opened.0.items) }
{
    let lines = setup.accounts.items();
    let mut accounts = Vec::with_capacity(alloc, lines.len())?;
    let mut sides = Vec::with_capacity(alloc, lines.len())?;
    for (index, line) in lines.iter().enumerate() {
        let (account, side) = Account::new(alloc, AcctId(index as u32), line.opening)?;
        accounts.push(account)?;
        sides.push(side)?;
    }
    Ok((accounts, BookSides::from_vec(sides)))
}
