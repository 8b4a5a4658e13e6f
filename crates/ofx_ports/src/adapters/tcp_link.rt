//! A link over a TCP stream.

ghost use Rattle.std.specs.Prelude.{◌≡◌, ℕ, ◌<◌, ◌≤◌, None, length, IfOk, IfSome, IsErr};
ghost use Rattle.ofx_ports.specs.Faults.{CountsFaults};
ghost use Rattle.ofx_ports.specs.Adapters.{link_read_faults, link_write_faults};

use super::reader::read_retrying;
use super::writer::write_retrying;
use crate::fault::Failed;
use crate::link::Link;
use std::io::{Read, Write};
use std::net::{Net, OpenStream, Shutdown, SocketAddr, TcpStream};
use std::time::{Duration, Instant};
use std::{io, rt};

/// A connection over TCP. It sends what is written at once (Nagle's algorithm is off). A read that waits longer than its limit
/// for a byte, or a write that waits longer for room for one, is a fault of the link, so that a peer that falls silent holds
/// nobody for ever. Each write that takes some bytes waits anew for the rest: a peer that reads slowly isn't given up.
///
/// A call that a signal cuts short is made again, up to 64 times.
#[derive(Drop)]
pub struct TcpLink<S> {
    stream: Option<S>,
    // whether the peer may still send: neither its end was read nor did a call fail
    is_live: bool,
    read_faults: u64,
    write_faults: u64,
}

/// How many seconds a read or a write of a link may wait, where nothing else is said.
pub const LINK_SECONDS: u64 = 30;

/// How many seconds the end of a link waits in all for what its peer still sends.
const LINGER_SECONDS: u64 = 2;

/// How many bytes the end of a link reads and drops at most.
const MAX_DROPPED: usize = 1_048_576;

impl<S: Read + Write + OpenStream + Drop> TcpLink<S> {
    /// A link over what was to be a stream, whose calls wait no longer than the limit, which isn't zero. Where it couldn't be
    /// opened, or the limit couldn't be set, each call fails.
    pub fn over(opened: io::Result<S>, limit: Duration) -> TcpLink<S>
        ensures reads { link_read_faults result ≡ 0 }
        ensures writes { link_write_faults result ≡ 0 }
    {
        TcpLink {
            stream: opened.ok().filter(|stream| is_limited(stream, limit)),
            is_live: true,
            read_faults: 0,
            write_faults: 0,
        }
    }

    /// Closes the link so that its peer gets what was written last, also where it is still sending: a connection that is
    /// closed with bytes unread is reset, and its peer may lose what was on the way. So it says that nothing more comes, and
    /// reads and drops what does come until the peer ends too, for 2 seconds and up to 1 MiB. Where the peer's end was read
    /// or a call failed, the link is closed at once.
    pub(super) fn linger<C: rt::Clock>(self, clock: &C) {
        let TcpLink {
            stream,
            is_live,
            read_faults: _,
            write_faults: _,
        } = self;
        if is_live
            && let Some(mut stream) = stream
            && stream.shutdown(Shutdown::Write).is_ok()
            && let Ok(start) = Instant::now(clock)
        {
            drop_incoming(&mut stream, clock, start);
        }
    }
}

/// A link to this port of the machine itself (127.0.0.1). Connecting waits no longer than the limit, which isn't zero, and
/// neither does a call. Where nobody answers, each call fails.
pub fn connect<R: Net>(rt: &R, port: u16, limit: Duration) -> TcpLink<R::Stream>
where
    R::Stream: Read + Write + OpenStream + Drop,
    ensures reads { link_read_faults result ≡ 0 }
    ensures writes { link_write_faults result ≡ 0 }
{
    let address = SocketAddr::from(([127, 0, 0, 1], port));
    TcpLink::over(TcpStream::connect_timeout(rt, &address, limit), limit)
}

// Reads what comes in and drops it, until it ends, a read fails, or one of the limits is reached.
fn drop_incoming<S: Read + OpenStream, C: rt::Clock>(stream: &mut S, clock: &C, start: Instant) {
    let mut bytes = [0u8; 4096];
    let mut dropped = 0usize;
    while dropped < MAX_DROPPED {
        match read_within(stream, clock, start, &mut bytes) {
            Some(count) if count > 0 => dropped += count,
            _ => return,
        }
    }
}

// Reads once, and waits no longer than what is left of the time. None where the time is over or the read fails.
fn read_within<S: Read + OpenStream, C: rt::Clock>(
    stream: &mut S,
    clock: &C,
    start: Instant,
    into: &mut [u8],
) -> Option<usize>
    ensures { IfSome result (λ n. n ≤ length into.new) }
{
    let limit = Duration::from_secs(LINGER_SECONDS);
    let left = limit.checked_sub(start.elapsed(clock).ok()?)?;
    stream.set_read_timeout(Some(left)).ok()?;
    stream.read(into).ok()
}

/// Whether the stream now sends at once and waits no longer than the limit.
fn is_limited<S: OpenStream>(stream: &S, limit: Duration) -> bool {
    stream.set_nodelay(true).is_ok()
        && stream.set_read_timeout(Some(limit)).is_ok()
        && stream.set_write_timeout(Some(limit)).is_ok()
}

impl<S: Read + Write + OpenStream + Drop + Send> Link for TcpLink<S> {
    ghost left = { λ _. None };

    ghost held = { λ _. None };

    ghost read_faults = { link_read_faults };

    ghost write_faults = { link_write_faults };

    fn read(&mut self, into: &mut [u8]) -> Result<usize, Failed> {
        if let Some(stream) = &mut self.stream
            && let Ok(count) = read_retrying(stream, into)
        {
            self.is_live = count > 0;
            return Ok(count);
        }
        self.is_live = false;
        self.read_faults = self.read_faults.saturating_add(1);
        Err(Failed)
    }

    fn write(&mut self, bytes: &[u8]) -> Result<usize, Failed> {
        if let Some(stream) = &mut self.stream
            && let Ok(count) = write_retrying(stream, bytes)
        {
            return Ok(count);
        }
        self.is_live = false;
        self.write_faults = self.write_faults.saturating_add(1);
        Err(Failed)
    }
}
