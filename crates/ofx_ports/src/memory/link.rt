//! A link in memory.

ghost use Rattle.std.specs.Prelude.{◌≡◌, ◌||◌, nat_lt, ℕ, ◌+◌, ◌<◌, ◌≤◌, min, List, Some, length, IfOk, IsErr, is_err};
ghost use Rattle.std.specs.Io.KnownBytes.{Keeps, ReadConsumes, WriteAppends};
ghost use Rattle.ofx_ports.specs.Faults.{CountsFaults};
ghost use Rattle.ofx_ports.specs.Calls.{fails_next, after_call};

use super::sink::MemSink;
use super::source::MemSource;
use crate::fault::Failed;
use crate::link::Link;
use crate::sink::Sink;
use crate::source::Source;
use ofx_types::OutOfMemory;
use std::alloc::Global;
use std::marker::Model;

/// A peer in memory: what it sends is fixed from the start, and it takes what it is sent while it has room. Its reads
/// and its writes are counted apart, and those of given numbers fail.
#[derive(Debug, Drop)]
pub struct MemLink {
    incoming: MemSource,
    outgoing: MemSink,
}

impl Model for MemLink {
    ghost use Rattle.ofx_ports.specs.States.{LinkState};

    ghost Value = { LinkState };

    ghost view = { λ l. record { incoming = l.incoming; outgoing = l.outgoing } };
}

impl MemLink {
    ghost use Rattle.std.specs.Prelude.{[], ◌-◌, ◌^◌};
    ghost use Rattle.ofx_ports.specs.States.{LinkState};

    /// A link whose peer sends these bytes and takes as many as there is room for. None of its calls fails.
    pub fn new(alloc: Global, bytes: &[u8], room: usize) -> Result<MemLink, OutOfMemory>
        ensures incoming { IfOk result (λ l. l.incoming ≡ record {
          left = bytes.now;
          most = usize.MAX;
          calls = record { failing = []; made = 0; faults = 0 };
        }) }
        ensures outgoing { IfOk result (λ l. l.outgoing ≡ record {
          held = [];
          room = room;
          most = usize.MAX;
          calls = record { failing = []; made = 0; faults = 0 };
        }) }
    {
        Ok(MemLink {
            incoming: MemSource::new(alloc, bytes)?,
            outgoing: MemSink::new(alloc, room)?,
        })
    }

    /// A link that reads from this source and writes to this sink.
    pub fn of(incoming: MemSource, outgoing: MemSink) -> MemLink
        ensures { result ≡ record { incoming = incoming; outgoing = outgoing } }
    {
        MemLink { incoming, outgoing }
    }

    /// The bytes that were not read yet.
    pub fn left(&self) -> &[u8]
        ensures { result.now ≡ self.now.incoming.left }
    {
        self.incoming.left()
    }

    /// The bytes written so far.
    pub fn held(&self) -> &[u8]
        ensures { result.now ≡ self.now.outgoing.held }
    {
        self.outgoing.held()
    }
}

impl Link for MemLink {
    ghost left = { λ l. Some l.incoming.left };

    ghost held = { λ l. Some l.outgoing.held };

    ghost read_faults = { λ l. l.incoming.calls.faults };

    ghost write_faults = { λ l. l.outgoing.calls.faults };

    fn read(&mut self, into: &mut [u8]) -> Result<usize, Failed>
        requires { 0 < length into.old }
        ensures count { IfOk result (λ n. n ≤ length into.new) }
        ensures bytes { ReadConsumes (Some self.old.incoming.left) (Some self.new.incoming.left) result into.new }
        ensures faults { CountsFaults self.old.incoming.calls.faults self.new.incoming.calls.faults (IsErr result) }

        // A read does what the source's read does, and nothing to the sink.
        ensures fails { is_err result ≡ fails_next self.old.incoming.calls }
        ensures gives { IfOk result (λ n. n ≡ min (min (length self.old.incoming.left) (length into.old)) self.old.incoming.most) }
        ensures calls { self.new.incoming.calls ≡ after_call self.old.incoming.calls (is_err result) }
        ensures most { self.new.incoming.most ≡ self.old.incoming.most }
        ensures outgoing { self.new.outgoing ≡ self.old.outgoing }
    {
        self.incoming.read(into)
    }

    fn write(&mut self, bytes: &[u8]) -> Result<usize, Failed>
        requires { 0 < length bytes.now }
        ensures count { IfOk result (λ n. (0 < n) × (n ≤ length bytes.now)) }
        ensures bytes { WriteAppends (Some self.old.outgoing.held) (Some self.new.outgoing.held) result bytes.now }
        ensures faults { CountsFaults self.old.outgoing.calls.faults self.new.outgoing.calls.faults (IsErr result) }

        // A write does what the sink's write does, and nothing to the source.
        ensures fails { is_err result ≡ (fails_next self.old.outgoing.calls
            || nat_lt self.old.outgoing.room (length self.old.outgoing.held + min (length bytes.now) self.old.outgoing.most)) }
        ensures takes { IfOk result (λ n. n ≡ min (length bytes.now) self.old.outgoing.most) }
        ensures calls { self.new.outgoing.calls ≡ after_call self.old.outgoing.calls (is_err result) }
        ensures most { self.new.outgoing.most ≡ self.old.outgoing.most }
        ensures room { self.new.outgoing.room ≡ self.old.outgoing.room }
        ensures incoming { self.new.incoming ≡ self.old.incoming }
    {
        self.outgoing.write(bytes)
    }
}
