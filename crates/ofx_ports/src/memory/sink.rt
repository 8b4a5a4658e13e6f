//! A sink that writes to memory.

ghost use Rattle.std.specs.Prelude.{◌≡◌, ◌||◌, nat_lt, ℕ, ◌+◌, ◌<◌, ◌≤◌, min, List, Some, length, IfOk, IsErr, is_err};
ghost use Rattle.std.specs.Io.KnownBytes.{WriteAppends};
ghost use Rattle.ofx_ports.specs.Faults.{CountsFaults};
ghost use Rattle.ofx_ports.specs.Calls.{fails_next, after_call};

use super::schedule::Schedule;
use crate::fault::Failed;
use crate::sink::Sink;
use ofx_types::OutOfMemory;
use std::alloc::Global;
use std::marker::Model;

/// Bytes in memory that are written in order. Its room is fixed from the start.
#[derive(Debug, Drop)]
pub struct MemSink {
    bytes: Vec<u8>,
    room: usize,
    most: usize,
    schedule: Schedule,
}

impl Model for MemSink {
    ghost use Rattle.std.specs.Prelude.{◌≤◌, ◌<◌, length, vec_capacity};
    ghost use Rattle.ofx_ports.specs.States.{SinkState};

    ghost Value = { SinkState };

    ghost view = { λ s. record { held = s.bytes.items; room = s.room; most = s.most; calls = s.schedule } };

    ghost invariant = { λ s. (length s.bytes.items ≤ s.room) × (s.room ≤ vec_capacity s.bytes) × (0 < s.most) };
}

impl MemSink {
    ghost use Rattle.std.specs.Prelude.{[]};
    ghost use Rattle.ofx_ports.specs.Calls.{Calls};
    ghost use Rattle.ofx_ports.specs.States.{SinkState};

    /// An empty sink with room for this many bytes, whose writes take all that they are given while there is room.
    pub fn new(alloc: Global, room: usize) -> Result<MemSink, OutOfMemory>
        ensures { IfOk result (λ s. s ≡ record {
          held = [];
          room = room;
          most = usize.MAX;
          calls = record { failing = []; made = 0; faults = 0 };
        }) }
    {
        Ok(MemSink {
            bytes: Vec::with_capacity(alloc, room)?,
            room,
            most: usize::MAX,
            schedule: Schedule::without_faults(alloc),
        })
    }

    /// An empty sink with room for this many bytes, whose writes take at most `most` bytes. The writes of the numbers
    /// in `failing` fail, counted from 1.
    pub fn failing(
        alloc: Global,
        room: usize,
        most: usize,
        failing: &[u64],
    ) -> Result<MemSink, OutOfMemory>
        requires { 0 < most }
        ensures { IfOk result (λ s. s ≡ record {
          held = [];
          room = room;
          most = most;
          calls = record { failing = failing.now; made = 0; faults = 0 };
        }) }
    {
        Ok(MemSink {
            bytes: Vec::with_capacity(alloc, room)?,
            room,
            most,
            schedule: Schedule::new(alloc, failing)?,
        })
    }

    /// The bytes written so far.
    pub fn held(&self) -> &[u8]
        ensures { result.now ≡ self.now.held }
    {
        &self.bytes
    }

    /// The number of writes so far, with those that failed.
    pub fn calls(&self) -> u64
        ensures { result ≡ self.now.calls.made }
    {
        self.schedule.made()
    }
}

impl Sink for MemSink {
    ghost held = { λ s. Some s.held };

    ghost faults = { λ s. s.calls.faults };

    fn write(&mut self, bytes: &[u8]) -> Result<usize, Failed>
        requires { 0 < length bytes.now }
        ensures count { IfOk result (λ n. (0 < n) × (n ≤ length bytes.now)) }
        ensures bytes { WriteAppends (Some self.old.held) (Some self.new.held) result bytes.now }
        ensures faults { CountsFaults self.old.calls.faults self.new.calls.faults (IsErr result) }

        // A write fails where its number is one of those that fail, or where what it would take passes the room.
        ensures fails { is_err result ≡ (fails_next self.old.calls
            || nat_lt self.old.room (length self.old.held + min (length bytes.now) self.old.most)) }
        ensures takes { IfOk result (λ n. n ≡ min (length bytes.now) self.old.most) }
        ensures calls { self.new.calls ≡ after_call self.old.calls (is_err result) }
        ensures most { self.new.most ≡ self.old.most }
        ensures room { self.new.room ≡ self.old.room }
    {
        let fails = self.schedule.start();
        let count = bytes.len().min(self.most);
        if fails || self.room - self.bytes.len() < count {
            self.schedule.fail();
            return Err(Failed);
        }
        self.bytes.extend_from_slice(&bytes[..count]).unwrap();
        Ok(count)
    }
}
