//! Equal copies of a setup and its parts.

use crate::setup::{AccountLine, Setup, User};
use ofx_types::{Duplicate, OutOfMemory};

impl Duplicate for User {
    fn copy(&self) -> Result<User, OutOfMemory> {
        Ok(User {
            name: self.name.copy()?,
            pass: self.pass.copy()?,
        })
    }
}

impl Duplicate for AccountLine {
    fn copy(&self) -> Result<AccountLine, OutOfMemory> {
        Ok(AccountLine {
            name: self.name.copy()?,
            opening: self.opening,
            owners: self.owners.copy()?,
        })
    }
}

impl Duplicate for Setup {
    fn copy(&self) -> Result<Setup, OutOfMemory> {
        Ok(Setup {
            bank: self.bank.copy()?,
            users: self.users.copy()?,
            accounts: self.accounts.copy()?,
            lead: self.lead,
            window: self.window,
            entries: self.entries,
        })
    }
}
