//! What every judge of a deed looks at: whose the source is, where the money goes, how much it is, and when it goes.

ghost use Rattle.std.specs.Prelude.{◌≡◌};
ghost use Rattle.bank_model.specs.SetupForm.{IsWithinLimits};
ghost use Rattle.bank_model.specs.Judging as rules;

use crate::setup::Setup;
use ofx_types::{AcctId, AcctName, Day, UserId, XferInfo};

impl Setup {
    /// Whether the account of this name is the user's.
    ///
    /// Where a deed is in the synchronisation of one account, `only` is that account, and no other counts as the
    /// user's. Takes no memory.
    pub fn is_own(&self, user: UserId, only: Option<AcctId>, name: &AcctName) -> bool
        requires { IsWithinLimits self.now }
        ensures { result ≡ rules.is_own self.now user only name.now }
    {
        match self.account(name) {
            Some(account) => self.owns(user, account) && is_only(only, account),
            None => false,
        }
    }

    /// Whether the destination is an account of the bank, and not the source. Takes no memory.
    pub fn is_destination(&self, info: &XferInfo) -> bool
        requires { IsWithinLimits self.now }
        ensures { result ≡ rules.is_destination self.now info.now }
    {
        self.account(&info.to).is_some() && info.to != info.from
    }
}

/// Whether it is the account that alone counts, where there is such a one.
fn is_only(only: Option<AcctId>, account: AcctId) -> bool
    ensures { result ≡ rules.is_only only account }
{
    match only {
        Some(only) => only.0 == account.0,
        None => true,
    }
}

/// Whether the amount is positive. Takes no memory.
pub fn is_positive(info: &XferInfo) -> bool
    ensures { result ≡ rules.is_positive info.now }
{
    info.amount.0 > 0
}

/// Whether there is a day, and it is after the business day. Takes no memory.
pub fn is_after(due: Option<Day>, day: Day) -> bool
    ensures { result ≡ rules.is_after due day }
{
    match due {
        Some(due) => day.0 < due.0,
        None => false,
    }
}
