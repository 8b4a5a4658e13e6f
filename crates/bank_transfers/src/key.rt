//! The key by which the postings of an account are found.

ghost use Rattle.std.specs.Prelude.{◌≡◌};
ghost use Rattle.bank_transfers.specs.Chain as chain;

use ofx_types::AcctName;

/// A number made of the account's number. Accounts of different names may have the same one.
pub(crate) fn key_of(name: &AcctName) -> u64
    ensures { result ≡ chain.key_of name.now }
{
    let mut key = 0u64;
    for byte in name.number.as_bytes() {
        key = key.wrapping_mul(257).wrapping_add(*byte as u64);
    }
    key
}
