//! What a setup knows of users and accounts.

ghost use Rattle.std.specs.Prelude.{◌≡◌};

use crate::setup::Setup;
use ofx_types::{AcctId, AcctName, Text, UserId};

impl Setup {
    ghost use Rattle.bank_model.specs.SetupForm.{IsWithinLimits};
    ghost use Rattle.bank_model.specs.SetupLookups.{signed_on, user_of, account_of, is_owner};

    /// The user with that name and that password, byte for byte. Takes no memory.
    pub fn signon(&self, name: &Text, pass: &Text) -> Option<UserId>
        requires within { IsWithinLimits self.now }
        ensures { result ≡ signed_on self.now name.now pass.now }
    {
        let index = self.users.find(name)?;
        if self.users.items()[index].pass == *pass {
            Some(UserId(index as u32))
        } else {
            None
        }
    }

    /// The user of that name, byte for byte. Takes no memory.
    pub fn user(&self, name: &Text) -> Option<UserId>
        requires within { IsWithinLimits self.now }
        ensures { result ≡ user_of self.now name.now }
    {
        let index = self.users.find(name)?;
        Some(UserId(index as u32))
    }

    /// The account of that name. Takes no memory.
    pub fn account(&self, name: &AcctName) -> Option<AcctId>
        requires within { IsWithinLimits self.now }
        ensures { result ≡ account_of self.now name.now }
    {
        let index = self.accounts.find(name)?;
        Some(AcctId(index as u32))
    }

    /// Whether the account is the user's. Takes no memory.
    pub fn owns(&self, user: UserId, account: AcctId) -> bool
        ensures { result ≡ is_owner self.now user account }
    {
        match self.accounts.items().get(account.0 as usize) {
            Some(line) => line.owners.contains(&user),
            None => false,
        }
    }
}
