//! A source that reads from memory.

ghost use Rattle.std.specs.Prelude.{◌≡◌, ℕ, ◌<◌, ◌≤◌, min, List, Some, length, take, IfOk, IsErr, is_err};
ghost use Rattle.std.specs.Io.KnownBytes.{ReadConsumes};
ghost use Rattle.ofx_ports.specs.Faults.{CountsFaults};
ghost use Rattle.ofx_ports.specs.Calls.{fails_next, after_call};

use super::schedule::Schedule;
use crate::fault::Failed;
use crate::source::Source;
use ofx_types::OutOfMemory;
use std::alloc::Global;
use std::marker::Model;

/// Bytes in memory that are read in order.
#[derive(Debug, Drop)]
pub struct MemSource {
    bytes: Vec<u8>,
    at: usize,
    most: usize,
    schedule: Schedule,
}

impl Model for MemSource {
    ghost use Rattle.std.specs.Prelude.{◌≤◌, ◌<◌, drop, length};
    ghost use Rattle.ofx_ports.specs.States.{SourceState};

    ghost Value = { SourceState };

    ghost view = { λ s. record { left = drop s.at s.bytes.items; most = s.most; calls = s.schedule } };

    ghost invariant = { λ s. (s.at ≤ length s.bytes.items) × (0 < s.most) };
}

impl MemSource {
    ghost use Rattle.std.specs.Prelude.{[], ◌-◌, ◌^◌};
    ghost use Rattle.ofx_ports.specs.Calls.{Calls};
    ghost use Rattle.ofx_ports.specs.States.{SourceState};

    /// A source with these bytes left, whose reads give as many as there is room for and never fail.
    pub fn new(alloc: Global, bytes: &[u8]) -> Result<MemSource, OutOfMemory>
        ensures { IfOk result (λ s. s ≡ record {
          left = bytes.now;
          most = usize.MAX;
          calls = record { failing = []; made = 0; faults = 0 };
        }) }
    {
        Ok(MemSource {
            bytes: bytes.to_vec(alloc)?,
            at: 0,
            most: usize::MAX,
            schedule: Schedule::without_faults(alloc),
        })
    }

    /// A source with these bytes left, whose reads give at most `most` bytes. The reads of the numbers in `failing`
    /// fail, counted from 1.
    pub fn failing(
        alloc: Global,
        bytes: &[u8],
        most: usize,
        failing: &[u64],
    ) -> Result<MemSource, OutOfMemory>
        requires { 0 < most }
        ensures { IfOk result (λ s. s ≡ record {
          left = bytes.now;
          most = most;
          calls = record { failing = failing.now; made = 0; faults = 0 };
        }) }
    {
        Ok(MemSource {
            bytes: bytes.to_vec(alloc)?,
            at: 0,
            most,
            schedule: Schedule::new(alloc, failing)?,
        })
    }

    /// The bytes that were not read yet.
    pub fn left(&self) -> &[u8]
        ensures { result.now ≡ self.now.left }
    {
        &self.bytes[self.at..]
    }

    /// The number of reads so far, with those that failed.
    pub fn calls(&self) -> u64
        ensures { result ≡ self.now.calls.made }
    {
        self.schedule.made()
    }
}

impl Source for MemSource {
    ghost left = { λ s. Some s.left };

    ghost faults = { λ s. s.calls.faults };

    fn read(&mut self, into: &mut [u8]) -> Result<usize, Failed>
        requires { 0 < length into.old }
        ensures count { IfOk result (λ n. n ≤ length into.new) }
        ensures bytes { ReadConsumes (Some self.old.left) (Some self.new.left) result into.new }
        ensures faults { CountsFaults self.old.calls.faults self.new.calls.faults (IsErr result) }

        // A read fails where its number is one of those that fail, and otherwise gives as many bytes as it may.
        ensures fails { is_err result ≡ fails_next self.old.calls }
        ensures gives { IfOk result (λ n. n ≡ min (min (length self.old.left) (length into.old)) self.old.most) }
        ensures calls { self.new.calls ≡ after_call self.old.calls (is_err result) }
        ensures most { self.new.most ≡ self.old.most }
    {
        if self.schedule.start() {
            self.schedule.fail();
            return Err(Failed);
        }
        let rest = &self.bytes[self.at..];
        let count = rest.len().min(into.len()).min(self.most);
        copy_prefix(rest, into, count);
        self.at += count;
        Ok(count)
    }
}

// Copies the first `count` bytes to the start of `into`.
fn copy_prefix(from: &[u8], into: &mut [u8], count: usize)
    requires given { count ≤ length from.now }
    requires room { count ≤ length into.old }
    ensures { take count into.new ≡ take count from.now }
{
    into[..count].copy_from_slice(&from[..count]);
}
