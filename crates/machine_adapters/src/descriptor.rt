//! Whether a descriptor can be read or written without a wait.

use libc::net::{POLLIN, POLLOUT, poll};
use libc::types::pollfd;
use std::os::fd::RawFd;

/// Whether there is something to read, of a listener whether somebody waits to be let in.
pub(crate) fn is_readable(descriptor: RawFd) -> bool {
    ready_count(descriptor, POLLIN) > 0
}

/// Whether the error stream takes a line without a wait: a file always does, a pipe or a socket doesn't where it is full of
/// what nobody has read.
///
/// It is told of at most 4,096 bytes, in which a line has to fit.
pub fn error_stream_has_room() -> bool {
    ready_count(libc::STDERR_FILENO, POLLOUT) != 0
}

/// 1 where the descriptor is ready for this event, or has failed, and 0 where it isn't. Below 0 where that can't be found out.
fn ready_count(descriptor: RawFd, event: i16) -> i32 {
    let mut asked = [pollfd {
        fd: descriptor,
        events: event,
        revents: 0,
    }];
    poll(&mut asked, 0)
}
