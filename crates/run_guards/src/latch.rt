//! A listener that is shut where nothing more may be kept in the file of records.

use libc::net::{SHUT_RDWR, shutdown};
use std::net::TcpListener;
use std::os::fd::AsRawFd;
use std::sync::atomic::{AtomicBool, AtomicI32, Ordering};

/// Where there is no listener yet.
const NONE: i32 = -1;

/// Shuts a listener. Threads share it.
#[derive(Drop)]
pub struct Latch {
    listener: AtomicI32,
    is_shut: AtomicBool,
}

impl Latch {
    /// One that has no listener yet.
    pub fn new() -> Latch {
        Latch {
            listener: AtomicI32::new(NONE),
            is_shut: AtomicBool::new(false),
        }
    }

    /// Gives it this listener, which has to live as long as it may be shut.
    pub fn hold(&self, listener: &TcpListener) {
        self.listener.store(listener.as_raw_fd(), Ordering::SeqCst);
    }

    /// Shuts the listener: from now on each accept at it fails, also one that waits, and at each copy of it.
    pub fn shut(&self) {
        self.is_shut.store(true, Ordering::SeqCst);
        let listener = self.listener.load(Ordering::SeqCst);
        if listener != NONE {
            shutdown(listener, SHUT_RDWR);
        }
    }

    /// Whether it was shut.
    pub fn is_shut(&self) -> bool {
        self.is_shut.load(Ordering::SeqCst)
    }
}
