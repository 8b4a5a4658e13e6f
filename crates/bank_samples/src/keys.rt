//! Keys of hashes, the same in each test.

use std::hash::RandomState;
use std::io;
use std::random::RandomSource;

/// A source of bytes that are all the same.
struct Fives;

impl RandomSource for Fives {
    fn fill_bytes(&self, buf: &mut [u8]) -> io::Result<()> {
        buf.fill(5);
        Ok(())
    }
}

/// Keys of hashes.
pub fn keys() -> io::Result<RandomState> {
    RandomState::new(&Fives)
}
