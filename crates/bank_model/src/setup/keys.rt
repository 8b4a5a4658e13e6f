//! The keys under which a setup's users, accounts and owners are found.

ghost use Rattle.std.specs.Prelude.{◌≡◌, ◌==◌};
ghost use Rattle.std.specs.Str.{bytes_eq};
ghost use Rattle.std.specs.Ordering.{nat_cmp, on, ordering_then, then_cmp};
ghost use Rattle.std.specs.Cmp.Lexicographic.{slice_cmp};
ghost use Rattle.std.specs.Cmp.Rules.{comparing};
ghost use Rattle.std.proofs.Common.{rules};
ghost use Rattle.ofx_types.specs.AccountForm.{same_account};
ghost use Rattle.bank_model.specs.SetupKeys.{kind_number, name_ties, account_ties, number_ties};

use crate::directory::Keyed;
use crate::setup::{AccountLine, User};
use ofx_types::{AcctName, Text, UserId};
use std::cmp::Ordering;

/// A user is found by name.
impl Keyed for User {
    type Key = Text;

    ghost key_of = { λ user. user.name };

    ghost order = { slice_cmp nat_cmp };

    ghost has_key = { λ user name. bytes_eq user.name name };

    fn key(&self) -> &Text {
        &self.name
    }

    fn compare(&self, name: &Text) -> Ordering {
        compare_bytes(self.name.as_bytes(), name.as_bytes())
    }

    ghost total = { Prim.search (comparing, rules) };

    ghost ties = { λ user name. name_ties user.name name };
}

/// An account is found by number, kind and bank. The lines of a setup are of one bank, which is compared last.
impl Keyed for AccountLine {
    type Key = AcctName;

    ghost key_of = { λ line. line.name };

    ghost order = { then_cmp (on (λ name. name.number) (slice_cmp nat_cmp)) (then_cmp (on (λ name. kind_number name.kind) nat_cmp) (on (λ name. name.bank) (slice_cmp nat_cmp))) };

    ghost has_key = { λ line name. same_account line.name name };

    fn key(&self) -> &AcctName {
        &self.name
    }

    fn compare(&self, name: &AcctName) -> Ordering {
        match compare_bytes(self.name.number.as_bytes(), name.number.as_bytes()) {
            Ordering::Equal => compare_at_number(&self.name, name),
            other => other,
        }
    }

    ghost total = { Prim.search (comparing, rules) };

    ghost ties = { λ line name. account_ties line.name name };
}

/// An owner is found by the user's number.
impl Keyed for UserId {
    type Key = UserId;

    ghost key_of = { λ owner. owner };

    ghost order = { on (λ owner. owner.0) nat_cmp };

    ghost has_key = { λ owner user. owner.0 == user.0 };

    fn key(&self) -> &UserId {
        self
    }

    fn compare(&self, user: &UserId) -> Ordering {
        self.0.cmp(&user.0)
    }

    ghost total = { Prim.search (comparing, rules) };

    ghost ties = { λ owner user. number_ties owner.0 user.0 };
}

/// How an account's name compares with another of its number: by kind, and then by bank.
fn compare_at_number(one: &AcctName, name: &AcctName) -> Ordering
    ensures { result ≡ ordering_then (nat_cmp (kind_number one.now.kind) (kind_number name.now.kind)) (slice_cmp nat_cmp one.now.bank name.now.bank) }
{
    match one.kind.number().cmp(&name.kind.number()) {
        Ordering::Equal => compare_bytes(one.bank.as_bytes(), name.bank.as_bytes()),
        other => other,
    }
}

/// How bytes compare, which are few: by the first that differs, and then by length.
fn compare_bytes(one: &[u8], other: &[u8]) -> Ordering
    ensures { result ≡ slice_cmp nat_cmp one.now other.now }
{
    match one.partial_cmp(&other) {
        Some(order) => order,
        None => unreachable!(),
    }
}
