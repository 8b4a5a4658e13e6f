//! The bytes of a link that were read and not answered yet.

ghost use Rattle.std.specs.Prelude.{◌≡◌, ◌+◌, ◌-◌, ◌≤◌, [], ◌++◌, length, vec_len, vec_capacity, take, drop, IfOk, IfErr, OnErr};
ghost use Rattle.std.specs.Io.KnownBytes.{Keeps, IsAtEnd, prepend_known};
ghost use Rattle.http_link.specs.Incoming.{IsDry, GrowsOn};

use crate::served::ServeError;
use ofx_ports::{Failed, Link};
use std::alloc::Global;
use std::marker::Model;

/// How many bytes one read gives at most.
const CHUNK: usize = 16_384;

/// Bytes that were read, in order. They have as much room as they ever needed.
#[derive(Drop)]
pub struct Incoming {
    bytes: Vec<u8>,
}

impl Model for Incoming {
    ghost use Rattle.std.specs.Prelude.{ℕ, List};

    ghost Value = { List ℕ };

    ghost view = { λ i. i.bytes.items };
}

impl Incoming {
    /// Nothing read yet. It takes no memory.
    pub fn new(alloc: Global) -> Incoming
        ensures { result ≡ [] }
    {
        Incoming {
            bytes: Vec::new(alloc),
        }
    }

    /// The bytes that have come.
    pub fn bytes(&self) -> &[u8]
        ensures { result.now ≡ self.now }
    {
        &self.bytes
    }

    /// Uses up the first bytes.
    pub fn consume(&mut self, count: usize)
        requires { count ≤ length self.old }
        ensures { self.new ≡ drop count self.old }
    {
        let end = self.bytes.len();
        shift(&mut self.bytes, count, end);
        self.bytes.truncate(end - count);
    }

    /// Reads more bytes after those that have come, and answers how many: 0 where the link has ended. Room for them is made
    /// first, so that none is lost.
    ///
    /// `ReadFault`, `OutOfMemory`.
    pub fn read_more<L: Link>(&mut self, link: &mut L) -> Result<usize, ServeError>
        ensures kept { Keeps (prepend_known self.old (L.left link.old)) (prepend_known self.new (L.left link.new)) }
        ensures grown { GrowsOn self.old self.new }
        ensures count { IfOk result (λ n. length self.new ≡ length self.old + n) }
        ensures end { IfOk result (λ n. n ≡ 0 → IsAtEnd (L.left link.new)) }
        ensures dry { IfErr result (IsDry (L.read_faults link.old) (L.read_faults link.new)) }
        ensures refused { OnErr result (self.new ≡ self.old) }
        ensures reads { L.read_faults link.old ≤ L.read_faults link.new }
        ensures unwritten { Keeps (L.held link.old) (L.held link.new) }
        ensures writes { L.write_faults link.new ≡ L.write_faults link.old }
    {
        self.bytes.reserve(CHUNK)?;
        let mut chunk = [0u8; CHUNK];
        match link.read(&mut chunk) {
            Ok(count) => {
                append(&mut self.bytes, &chunk[..count]);
                Ok(count)
            }
            Err(Failed) => Err(ServeError::ReadFault),
        }
    }
}

/// Moves the bytes from one offset up to another to the start.
fn shift(buffer: &mut [u8], start: usize, end: usize)
    requires ordered { start ≤ end }
    requires within { end ≤ length buffer.old }
    ensures bytes { take (end - start) buffer.new ≡ take (end - start) (drop start buffer.old) }
    ensures size { length buffer.new ≡ length buffer.old }
{
    buffer.copy_within(start..end, 0);
}

/// Puts bytes after others, where there is room for them.
fn append(bytes: &mut Vec<u8>, more: &[u8])
    requires { vec_len bytes.old + length more.now ≤ vec_capacity bytes.old }
    ensures { bytes.new.items ≡ bytes.old.items ++ more.now }
{
    if bytes.extend_from_slice(more).is_err() {
        unreachable!();
    }
}
