//! The names by which used uids and kept replies are found: a user, and the bytes of a uid.

ghost use Rattle.std.specs.Prelude.{◌≡◌, ◌≤◌, length, take};
ghost use Rattle.once_records.specs.Names.{name_of};

use ofx_types::UserId;
use std::hash::{Hash, Hasher};
use std::marker::Model;

/// The most bytes of a uid.
const MAX_BYTES: usize = 36;

/// A user's name for a deed or a file.
#[derive(PartialEq, Eq, Hash, Drop)]
pub(crate) struct Name {
    user: u32,
    uid: UidBytes,
}

impl Name {
    /// The user's name of these bytes. Takes no memory.
    pub(crate) fn new(user: UserId, uid: &[u8]) -> Name
        requires { length uid.now ≤ 36 }
        ensures { result ≡ name_of user uid.now }
    {
        Name {
            user: user.0,
            uid: UidBytes::new(uid),
        }
    }
}

/// The bytes of a uid, which lie in it.
#[derive(Drop)]
pub(crate) struct UidBytes {
    bytes: [u8; MAX_BYTES],
    size: u8,
}

impl Model for UidBytes {
    ghost use Rattle.std.specs.Prelude.{ℕ, ◌≤◌, List, take};

    ghost Value = { List ℕ };

    ghost view = { λ u. take u.size u.bytes };

    ghost invariant = { λ u. u.size ≤ 36 };
}

impl UidBytes {
    fn new(uid: &[u8]) -> UidBytes
        requires { length uid.now ≤ 36 }
        ensures { result ≡ uid.now }
    {
        let mut bytes = [0; MAX_BYTES];
        bytes[..uid.len()].copy_from_slice(uid);
        UidBytes {
            bytes,
            size: uid.len() as u8,
        }
    }

    fn as_bytes(&self) -> &[u8]
        ensures { result.now ≡ self.now }
    {
        &self.bytes[..self.size as usize]
    }
}

impl PartialEq for UidBytes {
    ghost use Rattle.std.specs.Prelude.{bytes_eq};
    ghost use Rattle.std.specs.Cmp.{partial_equiv_from_equiv};
    ghost use Rattle.std.specs.Cmp.Lexicographic.{nat_list_eq_equiv};

    ghost eq = { bytes_eq };

    ghost laws = { partial_equiv_from_equiv nat_list_eq_equiv };

    fn eq(&self, other: &UidBytes) -> bool {
        self.as_bytes() == other.as_bytes()
    }
}

impl Eq for UidBytes {
    ghost use Rattle.std.specs.Cmp.Lexicographic.{nat_list_eq_equiv};

    ghost laws = { nat_list_eq_equiv };
}

impl Hash for UidBytes {
    ghost use Rattle.std.specs.Hash as fed;
    ghost use Rattle.std.specs.Cmp.Rules.{hashing};
    ghost use Rattle.std.proofs.Common.{rules};

    ghost hash_input = { λ uid. fed.slice fed.u8 uid };

    ghost respects_eq = { Prim.search (hashing, rules) };

    fn hash<H: Hasher>(&self, state: &mut H) {
        self.as_bytes().hash(state);
    }
}
