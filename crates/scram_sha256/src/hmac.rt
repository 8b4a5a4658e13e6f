//! HMAC over SHA-256.

ghost use Rattle.std.specs.Prelude.{◌≡◌, ◌≤◌, ◌++◌, ℕ, List, length};
ghost use Rattle.sha2.specs.Hashers.{Holds256};
ghost use Rattle.sha2.specs.Sha256.{sha256};
ghost use Rattle.scram_sha256.specs.Hmac.{short_key, padded, inner_block, outer_block, hmac};
ghost use Rattle.scram_sha256.specs.Keyed.{IsKeyed};

use sha2::{Digest, Sha256};

/// The length of a block of SHA-256.
const BLOCK: usize = 64;

/// A key whose two blocks are hashed already, so that a text costs only its own.
#[derive(Drop)]
pub struct Keyed {
    inner: Sha256,
    outer: Sha256,
}

impl Keyed {
    /// The key.
    #[tactic(auto, unfolding(crate::specs::Hmac::short_key))]
    pub fn new(key: &[u8]) -> Keyed
        ensures { IsKeyed key.now result }
    {
        if key.len() > BLOCK {
            let digest = Sha256::digest(key);
            return Keyed {
                inner: begun(0x36, &digest),
                outer: begun(0x5c, &digest),
            };
        }
        Keyed {
            inner: begun(0x36, key),
            outer: begun(0x5c, key),
        }
    }

    /// The code that authenticates a text.
    pub fn of(&self, text: &[u8]) -> [u8; 32]
        ensures { (key : List ℕ) → IsKeyed key self.now → result ≡ hmac key text.now }
    {
        let mut inner = copy(&self.inner);
        inner.update(text);
        ended(copy(&self.outer), inner)
    }

    /// The code that authenticates two texts as one.
    pub fn of_both(&self, text: &[u8], more: &[u8]) -> [u8; 32]
        ensures { (key : List ℕ) → IsKeyed key self.now → result ≡ hmac key (text.now ++ more.now) }
    {
        let mut inner = copy(&self.inner);
        inner.update(text);
        inner.update(more);
        ended(copy(&self.outer), inner)
    }
}

/// The code that authenticates a text under a key.
pub fn hmac_sha256(key: &[u8], text: &[u8]) -> [u8; 32]
    ensures { result ≡ hmac key.now text.now }
{
    Keyed::new(key).of(text)
}

/// A hasher that has taken in the block of a key with this pad.
fn begun(pad: u8, key: &[u8]) -> Sha256
    requires { length key.now ≤ 64 }
    ensures { Holds256 result (padded pad key.now) }
{
    let mut hasher = Sha256::new();
    for b in key {
        hasher.update(&[*b ^ pad]);
    }
    for _ in key.len()..BLOCK {
        hasher.update(&[pad]);
    }
    hasher
}

/// A hasher that has taken in the same.
fn copy(hasher: &Sha256) -> Sha256
    ensures { result ≡ hasher.now }
{
    hasher.clone().unwrap()
}

/// The digest of the outer block and the inner digest.
fn ended(mut outer: Sha256, inner: Sha256) -> [u8; 32]
    ensures { (block text : List ℕ) → Holds256 outer block → Holds256 inner text → result ≡ sha256 (block ++ sha256 text) }
{
    let digest = inner.finalize();
    outer.update(&digest);
    outer.finalize()
}
