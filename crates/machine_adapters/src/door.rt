//! Where links come in at a TCP listener.

use crate::limits::LinkLimits;
use crate::link::SocketLink;
use libc::{EBADF, EINVAL, ENOTSOCK};
use std::io::{ErrorKind, Read, Write};
use std::net::{OpenListener, OpenStream};
use std::os::fd::AsRawFd;
use std::time::Duration;
use std::{io, rt, thread};

/// How often the next connection is awaited where one went away before it was let in.
const TRIES: u32 = 64;

/// How many milliseconds pass before a connection is awaited again after a fault that may pass.
const PAUSE_MILLIS: u64 = 200;

/// Why no link could be had, with the system's number of the error, 0 where there is none.
#[derive(Clone, Copy)]
pub enum AcceptFault {
    /// What is in the way may pass: too many files are open, memory is short, or the network says so.
    Passing(i32),
    /// The listener has failed, and no link will come in at it.
    Ended(i32),
}

/// The connections that come in at a listener, as links whose waits are limited.
///
/// ```rust
/// use machine_adapters::{BODY_SECONDS, HEAD_SECONDS, LinkLimits, SocketDoor};
/// use ofx_ports::{Link, connect, listen};
/// use std::time::Duration;
///
/// // A doorway at a free port of this machine, and a client that comes in.
/// let listener = listen(&rt, 0).expect(&rt, "a listener");
/// let port = listener.local_addr().expect(&rt, "an address").port();
/// let limits = LinkLimits::of_seconds(HEAD_SECONDS, BODY_SECONDS);
/// let door = SocketDoor::at(rt, listener, limits);
/// let mut client = connect(&rt, port, Duration::from_secs(5));
/// let Ok(mut link) = door.accept() else {
///     panic!(rt; "a link");
/// };
/// assert!(rt; client.write(b"hello") == Ok(5));
/// let mut bytes = [0u8; 5];
/// assert!(rt; link.read(&mut bytes) == Ok(5) && bytes == *b"hello");
/// // Where the client has gone, the link is closed at once.
/// drop(client);
/// link.close();
/// ```
#[derive(Drop)]
pub struct SocketDoor<T, C> {
    clock: C,
    listener: T,
    limits: LinkLimits,
}

impl<T: OpenListener + AsRawFd + Drop, C: rt::Clock + Copy + Drop> SocketDoor<T, C>
where
    T::Stream: Read + Write + OpenStream + Drop,
{
    /// A doorway at this listener. Its links read the time from this runtime, and have these limits.
    pub fn at(clock: C, listener: T, limits: LinkLimits) -> SocketDoor<T, C> {
        SocketDoor {
            clock,
            listener,
            limits,
        }
    }

    /// Awaits a connection, and lets it in. Where one went away before that, the next one is awaited, up to 64 times.
    pub fn accept(&self) -> Result<SocketLink<T::Stream, C>, AcceptFault> {
        for _ in 0..TRIES {
            match self.listener.accept() {
                Ok((stream, _peer)) => return Ok(self.link_over(stream)),
                Err(fault) => {
                    if !matches!(
                        fault.kind(),
                        ErrorKind::Interrupted | ErrorKind::ConnectionAborted
                    ) {
                        return Err(fault_of(&fault));
                    }
                }
            }
        }
        Err(AcceptFault::Passing(0))
    }

    /// Lets some time pass, after which a fault may be over.
    pub fn pause(&self) {
        thread::sleep(&self.clock, Duration::from_millis(PAUSE_MILLIS));
    }

    fn link_over(&self, stream: T::Stream) -> SocketLink<T::Stream, C> {
        SocketLink::over(stream, self.clock, self.listener.as_raw_fd(), self.limits)
    }
}

/// Which fault an error of the system is. All but those of the listener itself may pass.
fn fault_of(error: &io::Error) -> AcceptFault {
    let number = error.raw_os_error().unwrap_or(0);
    match number {
        EBADF | EINVAL | ENOTSOCK => AcceptFault::Ended(number),
        _ => AcceptFault::Passing(number),
    }
}
