//! A link to the bank over TCP, which connects anew for the next request where a connection has ended.

ghost use Rattle.std.specs.Prelude.{◌≡◌, ℕ, ◌<◌, ◌≤◌, None, length, IfOk, IfSome, IsErr};
ghost use Rattle.ofx_ports.specs.Faults.{CountsFaults};
ghost use Rattle.client_adapters.specs.Adapters.{link_read_faults, link_write_faults};

use crate::reply_head::ReplyHead;
use ofx_ports::{Failed, LINK_SECONDS, Link};
use std::io::{ErrorKind, Read, Write};
use std::net::{SocketAddr, TcpStream};
use std::time::Duration;

/// How often a call that a signal cut short is made again before it counts as a fault.
const TRIES: u32 = 64;

/// A link to the bank at a port of this machine (127.0.0.1). A read that waits for 30 seconds for a byte, or a write that waits
/// as long for room for one, is a fault of the link.
///
/// A request goes out on one connection, and so does the reply to it. Where the reply's head said that the connection ends after
/// it, or the bank's side has ended it meanwhile, the next write connects anew. Nothing is written a second time: what a
/// connection took before it failed isn't written on another one.
///
/// ```rust
/// use client_adapters::BankLink;
/// use ofx_ports::{Link, listen};
/// use std::io::{Read, Write};
/// use std::net::OpenListener;
///
/// let listener = listen(&rt, 0).expect(&rt, "a listener");
/// let port = listener.local_addr().expect(&rt, "an address").port();
/// let mut link = BankLink::to(rt, port);
/// for text in [b"one", b"two"] {
///     // The bank's side ends each connection after its reply, and the next request comes on another one.
///     assert!(rt; link.write(text) == Ok(3));
///     let (mut stream, _) = listener.accept().expect(&rt, "a connection");
///     let mut bytes = [0u8; 3];
///     stream.read(&mut bytes).expect(&rt, "a request");
///     assert!(rt; bytes == *text);
///     stream
///         .write(b"HTTP/1.1 200 OK\r\nConnection: close\r\n\r\n")
///         .expect(&rt, "a reply");
///     let mut reply = [0u8; 64];
///     assert!(rt; link.read(&mut reply) == Ok(38));
/// }
/// ```
#[derive(Drop)]
pub struct BankLink {
    rt: HostRuntime,
    port: u16,
    stream: Option<TcpStream>,
    // what came since the last write
    reply: ReplyHead,
    read_faults: u64,
    write_faults: u64,
}

impl BankLink {
    /// A link to this port, which is connected to at once. Where nobody answers, each call fails.
    pub fn to(rt: HostRuntime, port: u16) -> BankLink
        ensures reads { link_read_faults result ≡ 0 }
        ensures writes { link_write_faults result ≡ 0 }
    {
        BankLink {
            rt,
            port,
            stream: connected(&rt, port),
            reply: ReplyHead::new(),
            read_faults: 0,
            write_faults: 0,
        }
    }

    /// A link to nobody, each call of which fails.
    pub fn to_nobody(rt: HostRuntime) -> BankLink
        ensures reads { link_read_faults result ≡ 0 }
        ensures writes { link_write_faults result ≡ 0 }
    {
        BankLink {
            rt,
            port: 0,
            stream: None,
            reply: ReplyHead::new(),
            read_faults: 0,
            write_faults: 0,
        }
    }

    /// Whether somebody answered when it connected last.
    pub fn is_connected(&self) -> bool {
        self.stream.is_some()
    }

    /// Whether a write failed.
    pub fn has_write_faults(&self) -> bool {
        self.write_faults > 0
    }

    // Connects anew where a reply has come and no other one will come on this connection.
    fn follow_up(&mut self)
        ensures reads { self.new.read_faults ≡ self.old.read_faults }
        ensures writes { self.new.write_faults ≡ self.old.write_faults }
    {
        if !self.reply.is_empty() {
            if self.reply.is_last() || has_ended(&self.stream) {
                self.stream = None;
                self.stream = connected(&self.rt, self.port);
            }
            self.reply = ReplyHead::new();
        }
    }
}

/// A connection to this port, which sends at once and whose calls wait no longer than the limit. None where nobody answers.
fn connected(rt: &HostRuntime, port: u16) -> Option<TcpStream> {
    let limit = Duration::from_secs(LINK_SECONDS);
    let address = SocketAddr::from(([127, 0, 0, 1], port));
    let stream = TcpStream::connect_timeout(rt, &address, limit).ok()?;
    stream.set_nodelay(true).ok()?;
    stream.set_read_timeout(Some(limit)).ok()?;
    stream.set_write_timeout(Some(limit)).ok()?;
    Some(stream)
}

/// Whether the peer has ended the connection, so far as has come by now.
fn has_ended(stream: &Option<TcpStream>) -> bool {
    match stream {
        Some(stream) => stream.set_nonblocking(true).is_err()
            || is_at_end(stream)
            || stream.set_nonblocking(false).is_err(),
        None => false,
    }
}

/// Whether nothing more will come, of a stream on which nothing is waited for.
fn is_at_end(stream: &TcpStream) -> bool {
    let mut next = [0u8; 1];
    match stream.peek(&mut next) {
        Ok(count) => count == 0,
        Err(fault) => !matches!(fault.kind(), ErrorKind::WouldBlock),
    }
}

/// Reads once, and again where a signal cut the read short.
fn read_once(stream: &mut TcpStream, into: &mut [u8]) -> Option<usize>
    ensures { IfSome result (λ n. n ≤ length into.new) }
{
    for _ in 0..TRIES {
        match stream.read(into) {
            Ok(count) => return Some(count),
            Err(fault) => {
                if !matches!(fault.kind(), ErrorKind::Interrupted) {
                    return None;
                }
            }
        }
    }
    None
}

/// Writes once, and again where a signal cut the write short. The answer is the number of bytes taken, at least one.
fn write_once(stream: &mut TcpStream, bytes: &[u8]) -> Option<usize>
    ensures { IfSome result (λ n. (0 < n) × (n ≤ length bytes.now)) }
{
    for _ in 0..TRIES {
        match stream.write(bytes) {
            Ok(0) => return None,
            Ok(count) => return Some(count),
            Err(fault) => {
                if !matches!(fault.kind(), ErrorKind::Interrupted) {
                    return None;
                }
            }
        }
    }
    None
}

impl Link for BankLink {
    ghost left = { λ _. None };

    ghost held = { λ _. None };

    ghost read_faults = { link_read_faults };

    ghost write_faults = { link_write_faults };

    fn read(&mut self, into: &mut [u8]) -> Result<usize, Failed> {
        if let Some(stream) = &mut self.stream
            && let Some(count) = read_once(stream, into)
        {
            self.reply.take(&into[..count]);
            return Ok(count);
        }
        self.read_faults = self.read_faults.saturating_add(1);
        Err(Failed)
    }

    fn write(&mut self, bytes: &[u8]) -> Result<usize, Failed> {
        self.follow_up();
        if let Some(stream) = &mut self.stream
            && let Some(count) = write_once(stream, bytes)
        {
            return Ok(count);
        }
        self.write_faults = self.write_faults.saturating_add(1);
        Err(Failed)
    }
}
