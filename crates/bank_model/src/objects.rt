//! The objects that clients synchronise, and the files that ask for nothing but their newest tokens.

ghost use Rattle.std.specs.Prelude.{◌≡◌, ◌<◌, ◌+◌, ◌*◌, true, is_some, length, Some, IfSome};
ghost use Rattle.std.specs.List.{list_all};
ghost use Rattle.std.specs.Option.{option_map};
ghost use Rattle.bank_model.specs.SetupForm.{IsWithinLimits};
ghost use Rattle.bank_model.specs.SetupLookups as lookups;
ghost use Rattle.bank_model.specs.Deeds as deeds;
ghost use Rattle.bank_model.specs.Objects.{account_about, object_named};
ghost use Rattle.bank_model.specs.Polls as polls;

use crate::setup::Setup;
use ofx_types::{AcctId, AcctName, Ask, ObjectId, ObjectName, RequestFile, SyncKind, Text, UserId};

impl Setup {
    /// The object of that name for a user, who is one of the setup's. Of account a the transfers have the number 3a, the
    /// recurring transfers 3a + 1 and the mail about it 3a + 2; after those of all accounts comes each user's other mail.
    /// None exactly where the name has an account that isn't the user's. Takes no memory.
    #[tactic(auto, unfolding(crate::specs::Objects::object_named))]
    pub fn object(&self, user: UserId, name: &ObjectName) -> Option<ObjectId>
        requires within { IsWithinLimits self.now }
        requires known { user.0 < length self.now.users }
        ensures { result ≡ object_named self.now user name.now }
    {
        match name {
            ObjectName::Intra(account) => numbered(self.own_account(user, account), 0),
            ObjectName::RecIntra(account) => numbered(self.own_account(user, account), 1),
            ObjectName::BankMail(account) => numbered(self.own_account(user, account), 2),
            ObjectName::Mail => Some(self.mail_object(user)),
        }
    }

    /// The account of that name, which the setup has. Takes no memory.
    pub fn account_named(&self, name: &AcctName) -> AcctId
        requires within { IsWithinLimits self.now }
        requires there { is_some (lookups.account_of self.now name.now) ≡ true }
        ensures { lookups.account_of self.now name.now ≡ Some result }
    {
        match self.account(name) {
            Some(account) => account,
            None => unreachable!(),
        }
    }

    /// The object of the transfers out of the account of that name, which the setup has. Takes no memory.
    pub fn object_of(&self, source: &AcctName) -> ObjectId
        requires within { IsWithinLimits self.now }
        requires there { is_some (lookups.account_of self.now source.now) ≡ true }
        ensures { result ≡ deeds.object_of self.now source.now }
    {
        ObjectId(3 * self.account_named(source).0)
    }

    /// The object of the recurring transfers out of the account of that name, which the setup has. Takes no memory.
    pub fn model_object_of(&self, source: &AcctName) -> ObjectId
        requires within { IsWithinLimits self.now }
        requires there { is_some (lookups.account_of self.now source.now) ≡ true }
        ensures { result ≡ deeds.model_object_of self.now source.now }
    {
        ObjectId(3 * self.account_named(source).0 + 1)
    }

    /// The object of the mail about the account of that name, which the setup has. Takes no memory.
    pub fn mail_about_object_of(&self, about: &AcctName) -> ObjectId
        requires within { IsWithinLimits self.now }
        requires there { is_some (lookups.account_of self.now about.now) ≡ true }
        ensures { result ≡ deeds.mail_about_object_of self.now about.now }
    {
        ObjectId(3 * self.account_named(about).0 + 2)
    }

    /// The account of a user that an object is about. None where it is about none, or the account isn't the user's. Takes no
    /// memory.
    pub fn account_about(&self, user: UserId, object: &ObjectName) -> Option<AcctId>
        requires within { IsWithinLimits self.now }
        ensures { result ≡ account_about self.now user object.now }
    {
        match object {
            ObjectName::Intra(account)
            | ObjectName::RecIntra(account)
            | ObjectName::BankMail(account) => self.own_account(user, account),
            ObjectName::Mail => None,
        }
    }

    /// The object of a user's other mail, after those of all accounts. The user is one of the setup's. Takes no memory.
    pub fn mail_object(&self, user: UserId) -> ObjectId
        requires within { IsWithinLimits self.now }
        requires known { user.0 < length self.now.users }
        ensures { result ≡ deeds.mail_object self.now user }
    {
        ObjectId(3 * self.accounts.items().len() as u32 + user.0)
    }

    /// The name of a user, who is one of the setup's, lent. Takes no memory.
    pub fn user_name(&self, user: UserId) -> &Text
        requires known { user.0 < length self.now.users }
        ensures { result.now ≡ lookups.user_name self.now user }
    {
        match self.users.items().get(user.0 as usize) {
            Some(user) => &user.name,
            None => unreachable!(),
        }
    }

    /// The account of that name, where it is the user's. Takes no memory.
    pub fn own_account(&self, user: UserId, name: &AcctName) -> Option<AcctId>
        requires within { IsWithinLimits self.now }
        ensures own { result ≡ lookups.own_account self.now user name.now }
        ensures known { IfSome result (λ account. lookups.account_of self.now name.now ≡ Some account) }
    {
        let account = self.account(name)?;
        if self.owns(user, account) {
            return Some(account);
        }
        None
    }
}

/// The object of an account at that index among the account's three.
fn numbered(account: Option<AcctId>, index: u32) -> Option<ObjectId>
    requires account { IfSome account (λ account. account.0 < 1000) }
    requires index { index < 3 }
    ensures { result ≡ option_map (λ account. record { 0 = 3 * account.0 + index }) account }
{
    match account {
        Some(account) => Some(ObjectId(3 * account.0 + index)),
        None => None,
    }
}

/// Whether a file asks for nothing but the newest tokens of objects, and neither has a name nor releases one. Such a file is
/// no event. Takes no memory.
#[tactic(auto, unfolding(crate::specs::Polls::is_poll))]
pub fn is_poll(file: &RequestFile) -> bool
    ensures { result ≡ polls.is_poll file.now }
{
    is_unnamed(file) && are_polls(file.asks.items())
}

/// Whether a file has no name and releases none.
fn is_unnamed(file: &RequestFile) -> bool
    ensures { result ≡ polls.is_unnamed file.now }
{
    file.older.is_none() && file.newer.is_none()
}

/// Whether there are asks, and each asks for the newest token alone.
fn are_polls(asks: &[Ask]) -> bool
    ensures { result ≡ polls.are_polls asks.now }
{
    if asks.is_empty() {
        return false;
    }
    are_all_polls(asks)
}

fn are_all_polls(asks: &[Ask]) -> bool
    ensures { result ≡ list_all polls.is_poll_ask asks.now }
{
    asks.iter().all(|ask| is_poll_ask(ask))
}

/// Whether an ask asks for the newest token alone.
fn is_poll_ask(ask: &Ask) -> bool
    ensures { result ≡ polls.is_poll_ask ask.now }
{
    match ask {
        Ask::Sync(ask) => is_token_only(&ask.kind) && ask.deeds.items().is_empty(),
        Ask::Statement(_, _, _) | Ask::One(_, _) => false,
    }
}

fn is_token_only(kind: &SyncKind) -> bool
    ensures { result ≡ polls.is_token_only kind.now }
{
    match kind {
        SyncKind::TokenOnly => true,
        SyncKind::After(_) | SyncKind::Refresh => false,
    }
}
