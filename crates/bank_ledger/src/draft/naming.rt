//! Accounts by their names, the objects in whose histories entries are, and the uid of what the bank does by itself.

ghost use Rattle.std.specs.Prelude.{◌≡◌, ◌<◌, Some, true, is_some, codes, length, IfOk};
ghost use Rattle.bank_model.specs.SetupLookups.{account_of};
ghost use Rattle.bank_model.specs.Deeds as deeds;

use crate::draft::Draft;
use ofx_types::{AcctId, AcctName, ObjectId, OutOfMemory, TrnUid, UserId};

impl Draft<'_> {
    /// The account of that name, which the setup has.
    pub fn account_named(&self, name: &AcctName) -> AcctId
        requires { is_some (account_of self.now.setup name.now) ≡ true }
        ensures { account_of self.now.setup name.now ≡ Some result }
    {
        self.setup.account_named(name)
    }

    /// The object of the transfers out of the account of that name.
    pub fn object_of(&self, source: &AcctName) -> ObjectId
        requires { is_some (account_of self.now.setup source.now) ≡ true }
        ensures { result ≡ deeds.object_of self.now.setup source.now }
    {
        self.setup.object_of(source)
    }

    /// The object of the recurring transfers out of the account of that name.
    pub fn model_object_of(&self, source: &AcctName) -> ObjectId
        requires { is_some (account_of self.now.setup source.now) ≡ true }
        ensures { result ≡ deeds.model_object_of self.now.setup source.now }
    {
        self.setup.model_object_of(source)
    }

    /// The object of the mail about the account of that name.
    pub fn mail_about_object_of(&self, about: &AcctName) -> ObjectId
        requires { is_some (account_of self.now.setup about.now) ≡ true }
        ensures { result ≡ deeds.mail_about_object_of self.now.setup about.now }
    {
        self.setup.mail_about_object_of(about)
    }

    /// The object of a user's other mail.
    pub fn mail_object_of(&self, user: UserId) -> ObjectId
        requires { user.0 < length self.now.setup.users }
        ensures { result ≡ deeds.mail_object self.now.setup user }
    {
        self.setup.mail_object(user)
    }
}

/// The uid of what the bank does by itself.
pub fn own_uid() -> Result<TrnUid, OutOfMemory>
    ensures { IfOk result (λ uid. uid ≡ codes "0") }
{
    match TrnUid::new(b"0".as_slice()) {
        Ok(uid) => Ok(uid),
        Err(_) => unreachable!(),
    }
}
