//! The salted password.

ghost use Rattle.std.specs.Prelude.{◌≡◌, ◌≤◌};
ghost use Rattle.scram_sha256.specs.Salted.{xor, salted};

use crate::hmac::Keyed;

/// What a password and a salt come to after so many rounds.
pub fn salted_password(password: &[u8], salt: &[u8], rounds: u32) -> [u8; 32]
    requires { 1 ≤ rounds }
    ensures { result ≡ salted password.now salt.now rounds }
{
    let key = Keyed::new(password);
    let mut last = key.of_both(salt, &[0, 0, 0, 1]);
    let mut total = last;
    for _ in 1..rounds {
        last = key.of(&last);
        total = xored(&total, &last);
    }
    total
}

/// Each byte of the one with that of the other.
pub(crate) fn xored(one: &[u8; 32], other: &[u8; 32]) -> [u8; 32]
    ensures { result ≡ xor one.now other.now }
{
    let mut both = [0; 32];
    for i in 0..32 {
        both[i] = one[i] ^ other[i];
    }
    both
}
