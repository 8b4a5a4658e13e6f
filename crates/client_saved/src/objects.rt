//! Objects that are the same, and stores of an object among others.

ghost use Rattle.std.specs.Prelude.{◌≡◌};
ghost use Rattle.ofx_types.specs.AccountForm.{same_account};
ghost use Rattle.client_saved.specs.Bounds.{same_object, has_store};

use client_store::Store;
use ofx_types::{AcctName, ObjectName};

fn is_same_account(account: &AcctName, other: &AcctName) -> bool
    ensures { result ≡ same_account account.now other.now }
{
    account == other
}

/// Whether two names are one object's.
pub fn is_same_object(object: &ObjectName, other: &ObjectName) -> bool
    ensures { result ≡ same_object object.now other.now }
{
    match (object, other) {
        (ObjectName::Intra(one), ObjectName::Intra(two)) => is_same_account(one, two),
        (ObjectName::RecIntra(one), ObjectName::RecIntra(two)) => is_same_account(one, two),
        (ObjectName::BankMail(one), ObjectName::BankMail(two)) => is_same_account(one, two),
        (ObjectName::Mail, ObjectName::Mail) => true,
        _ => false,
    }
}

/// Whether one of the stores is the object's.
pub fn has_store(object: &ObjectName, stores: &[Store]) -> bool
    ensures { result ≡ has_store object.now stores.now }
{
    stores
        .iter()
        .any(|store| is_same_object(store.object(), object))
}
