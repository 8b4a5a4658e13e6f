//! The client's request, written to a link.

ghost use Rattle.std.specs.Prelude.{◌≡◌, ◌≤◌, ◌++◌, length, vec_capacity, OnOk, OnErr, IsErr};
ghost use Rattle.std.specs.Io.KnownBytes.{Keeps, Appends};
ghost use Rattle.ofx_ports.specs.Faults.{CountsFaults};
ghost use Rattle.ofx_ports.specs.Writes.{AppendsPart};
ghost use Rattle.http_front.specs.HeadText.{post_head};
ghost use Rattle.http_link.specs.Responses.{request_of};

use crate::reply::{write_all, write_both};
use http_front::write_post;
use ofx_ports::{Failed, Link};

/// Puts the head of a request into `room`, in which there is room for it.
fn put_post(size: usize, room: &mut Vec<u8>)
    requires { 512 ≤ vec_capacity room.old }
    ensures { room.new.items ≡ post_head size }
{
    room.clear();
    if write_post(size as u64, room).is_err() {
        unreachable!();
    }
}

/// Writes the client's request. Its head is put together in `room`, which has room for it, so that no memory is needed. Where
/// there is memory for the body beside it, both are written together.
pub fn post<L: Link>(room: &mut Vec<u8>, link: &mut L, body: &[u8]) -> Result<(), Failed>
    requires { 512 ≤ vec_capacity room.old }
    ensures whole { OnOk result (Appends (L.held link.old) (L.held link.new) (request_of body.now)) }
    ensures part { OnErr result (AppendsPart (L.held link.old) (L.held link.new) (request_of body.now)) }
    ensures faults { CountsFaults (L.write_faults link.old) (L.write_faults link.new) (IsErr result) }
    ensures unread { Keeps (L.left link.old) (L.left link.new) }
    ensures reads { L.read_faults link.new ≡ L.read_faults link.old }
{
    put_post(body.len(), room);
    match room.extend_from_slice(body) {
        Ok(()) => write_all(link, room),
        Err(_) => write_both(link, room, body),
    }
}
