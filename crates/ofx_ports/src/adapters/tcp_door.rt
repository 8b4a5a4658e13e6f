//! A doorway over a TCP listener.

ghost use Rattle.std.specs.Prelude.{◌≡◌, None};
ghost use Rattle.ofx_ports.specs.Adapters.{door_faults, door_closings};

use super::TRIES;
use super::tcp_link::TcpLink;
use crate::doorway::Doorway;
use crate::fault::Failed;
use std::io::{ErrorKind, Read, Write};
use std::net::{Net, OpenListener, OpenStream, SocketAddr, TcpListener};
use std::time::Duration;
use std::{io, rt};

/// The connections that come in at a listener, as links whose calls wait no longer than a limit. It is never closed. A link
/// that comes back is closed once its peer has ended too, so that a peer which is still sending gets the last reply; this
/// takes at most 2 seconds and 1 MiB of what the peer sends.
///
/// Where a peer went away before it was let in, or a signal cut the call short, the next one is awaited, up to 64 times.
#[derive(Drop)]
pub struct TcpDoor<T, R> {
    clock: R,
    listener: T,
    limit: Duration,
    faults: u64,
    closings: u64,
}

impl<T: OpenListener + Drop, R: rt::Clock + Drop> TcpDoor<T, R> {
    /// A doorway at this listener, whose links' calls wait no longer than the limit, which isn't zero. It reads the time from
    /// this runtime.
    pub fn at(clock: R, listener: T, limit: Duration) -> TcpDoor<T, R>
        ensures faults { door_faults result ≡ 0 }
        ensures closings { door_closings result ≡ 0 }
    {
        TcpDoor {
            clock,
            listener,
            limit,
            faults: 0,
            closings: 0,
        }
    }
}

/// A listener at this port of the machine itself (127.0.0.1). A port that was in use a moment ago can be bound at once.
/// Port 0 is any one that is free.
pub fn listen<R: Net>(rt: &R, port: u16) -> io::Result<R::Listener> {
    TcpListener::bind(rt, SocketAddr::from(([127, 0, 0, 1], port)))
}

impl<T: OpenListener + Drop + Send, R: rt::Clock + Drop + Send> Doorway<TcpLink<T::Stream>>
    for TcpDoor<T, R>
where
    T::Stream: Read + Write + OpenStream + Drop + Send,
{
    ghost given = { λ _. None };

    ghost back = { λ _. None };

    ghost faults = { door_faults };

    ghost closings = { door_closings };

    fn accept(&mut self) -> Result<Option<TcpLink<T::Stream>>, Failed> {
        for _ in 0..TRIES {
            match self.listener.accept() {
                Ok((stream, _peer)) => return Ok(Some(TcpLink::over(Ok(stream), self.limit))),
                Err(fault) => {
                    if !matches!(
                        fault.kind(),
                        ErrorKind::Interrupted | ErrorKind::ConnectionAborted
                    ) {
                        break;
                    }
                }
            }
        }
        self.faults = self.faults.saturating_add(1);
        Err(Failed)
    }

    fn ended(&mut self, link: TcpLink<T::Stream>) {
        link.linger(&self.clock);
    }
}
