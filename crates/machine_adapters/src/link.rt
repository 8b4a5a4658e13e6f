//! A link over a TCP stream.

ghost use Rattle.std.specs.Prelude.{◌≡◌, ℕ, ◌<◌, ◌≤◌, None, length, IfOk, IsErr};
ghost use Rattle.ofx_ports.specs.Faults.{CountsFaults};
ghost use Rattle.machine_adapters.specs.Adapters.{link_read_faults, link_write_faults};

use crate::limits::LinkLimits;
use crate::stream::TimedStream;
use ofx_ports::{Failed, Link};
use std::io::{Read, Write};
use std::net::OpenStream;
use std::os::fd::RawFd;
use std::rt;

/// A connection over TCP that came in at a listener. It sends what is written at once (Nagle's algorithm is off).
///
/// A read or a write is a fault of the link where it waits for 30 seconds. A read is one too where the part of a request to
/// which it belongs has taken longer than its limit; with a write the time of the next request begins. Where no byte of a
/// request has come for a second, and others wait to be let in, a read is a fault as well. A peer that reads slowly isn't
/// given up: each write that takes some bytes waits anew for the rest.
///
/// A call that a signal cuts short is made again, up to 64 times.
#[derive(Drop)]
pub struct SocketLink<S, C> {
    stream: Option<TimedStream<S, C>>,
    // whether the peer may still send: neither its end was read nor did a call fail
    is_live: bool,
    read_faults: u64,
    write_faults: u64,
}

impl<S: Read + Write + OpenStream + Drop, C: rt::Clock + Drop> SocketLink<S, C> {
    /// A link over this stream, which came in at this listener. Where its waits can't be limited, each call fails.
    pub(crate) fn over(stream: S, clock: C, listener: RawFd, limits: LinkLimits) -> SocketLink<S, C>
        ensures reads { link_read_faults result ≡ 0 }
        ensures writes { link_write_faults result ≡ 0 }
    {
        SocketLink {
            stream: TimedStream::over(stream, clock, listener, limits),
            is_live: true,
            read_faults: 0,
            write_faults: 0,
        }
    }

    /// Closes the link so that its peer gets what was written last. Where the peer is still sending, this takes at most 2
    /// seconds and 1 MiB of what it sends, and less where others wait to be let in. Where the peer's end was read or a call
    /// failed, the link is closed at once.
    pub fn close(self) {
        let SocketLink {
            stream,
            is_live,
            read_faults: _,
            write_faults: _,
        } = self;
        if is_live && let Some(stream) = stream {
            stream.linger();
        }
    }
}

impl<S: Read + Write + OpenStream + Drop + Send, C: rt::Clock + Drop + Send> Link
    for SocketLink<S, C> {
    ghost left = { λ _. None };

    ghost held = { λ _. None };

    ghost read_faults = { link_read_faults };

    ghost write_faults = { link_write_faults };

    fn read(&mut self, into: &mut [u8]) -> Result<usize, Failed> {
        if let Some(stream) = &mut self.stream
            && let Some(count) = stream.read(into)
        {
            self.is_live = count > 0;
            return Ok(count);
        }
        self.is_live = false;
        self.read_faults = self.read_faults.saturating_add(1);
        Err(Failed)
    }

    fn write(&mut self, bytes: &[u8]) -> Result<usize, Failed> {
        if let Some(stream) = &mut self.stream
            && let Some(count) = stream.write(bytes)
        {
            return Ok(count);
        }
        self.is_live = false;
        self.write_faults = self.write_faults.saturating_add(1);
        Err(Failed)
    }
}
