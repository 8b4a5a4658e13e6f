//! Replies, written to a link.

ghost use Rattle.std.specs.Prelude.{◌≡◌, ◌≤◌, ◌++◌, length, take, vec_capacity, OnOk, OnErr, IsErr};
ghost use Rattle.std.specs.Io.KnownBytes.{Keeps, Appends};
ghost use Rattle.ofx_ports.specs.Faults.{CountsFaults};
ghost use Rattle.http_front.specs.HeadText.{IsReplyCode, reply_head};
ghost use Rattle.http_link.specs.Replies.{refusal_code, refusal_body, reply_of};
ghost use Rattle.ofx_ports.specs.Writes.{AppendsPart};

use crate::refusal::Refusal;
use http_front::write_head;
use ofx_ports::{Failed, Link};

impl Refusal {
    /// The code of the reply.
    pub fn code(self) -> u16
        ensures code { result ≡ refusal_code self }
        ensures is_code { IsReplyCode result }
    {
        match self {
            Refusal::BadHead => 400,
            Refusal::NotPost => 405,
            Refusal::NotFound => 404,
            Refusal::NoLength => 411,
            Refusal::TooLarge => 413,
        }
    }

    /// The body of the reply.
    pub fn body(self) -> &'static [u8]
        ensures { result.now ≡ refusal_body self }
    {
        match self {
            Refusal::BadHead => b"bad head\n",
            Refusal::NotPost => b"post only\n",
            Refusal::NotFound => b"not found\n",
            Refusal::NoLength => b"length needed\n",
            Refusal::TooLarge => b"too large\n",
        }
    }
}

/// Writes all of the bytes, in as many calls as the link takes. Where a write fails a prefix of them is written.
pub(crate) fn write_all<L: Link>(link: &mut L, bytes: &[u8]) -> Result<(), Failed>
    ensures whole { OnOk result (Appends (L.held link.old) (L.held link.new) bytes.now) }
    ensures part { OnErr result (AppendsPart (L.held link.old) (L.held link.new) bytes.now) }
    ensures faults { CountsFaults (L.write_faults link.old) (L.write_faults link.new) (IsErr result) }
    ensures unread { Keeps (L.left link.old) (L.left link.new) }
    ensures reads { L.read_faults link.new ≡ L.read_faults link.old }
{
    let mut done = 0;
    while done < bytes.len() {
        done += link.write(&bytes[done..])?;
    }
    Ok(())
}

/// Writes a head and then a body.
pub(crate) fn write_both<L: Link>(link: &mut L, head: &[u8], body: &[u8]) -> Result<(), Failed>
    ensures whole { OnOk result (Appends (L.held link.old) (L.held link.new) (head.now ++ body.now)) }
    ensures part { OnErr result (AppendsPart (L.held link.old) (L.held link.new) (head.now ++ body.now)) }
    ensures faults { CountsFaults (L.write_faults link.old) (L.write_faults link.new) (IsErr result) }
    ensures unread { Keeps (L.left link.old) (L.left link.new) }
    ensures reads { L.read_faults link.new ≡ L.read_faults link.old }
{
    write_all(link, head)?;
    write_all(link, body)
}

/// Puts the head of a reply into `room`, in which there is room for it.
fn put_head(code: u16, size: usize, closes: bool, room: &mut Vec<u8>)
    requires code { IsReplyCode code }
    requires room { 512 ≤ vec_capacity room.old }
    ensures { room.new.items ≡ reply_head code size closes }
{
    room.clear();
    if write_head(code, size as u64, closes, room).is_err() {
        unreachable!();
    }
}

/// Writes a reply. Its head is put together in `room`, which has room for it, so that no memory is needed. Where there is memory
/// for the body beside it, both are written together.
pub fn send<L: Link>(
    room: &mut Vec<u8>,
    link: &mut L,
    code: u16,
    body: &[u8],
    closes: bool,
) -> Result<(), Failed>
    requires code { IsReplyCode code }
    requires room { 512 ≤ vec_capacity room.old }
    ensures whole { OnOk result (Appends (L.held link.old) (L.held link.new) (reply_of code body.now closes)) }
    ensures part { OnErr result (AppendsPart (L.held link.old) (L.held link.new) (reply_of code body.now closes)) }
    ensures faults { CountsFaults (L.write_faults link.old) (L.write_faults link.new) (IsErr result) }
    ensures unread { Keeps (L.left link.old) (L.left link.new) }
    ensures reads { L.read_faults link.new ≡ L.read_faults link.old }
{
    put_head(code, body.len(), closes, room);
    match room.extend_from_slice(body) {
        Ok(()) => write_all(link, room),
        Err(_) => write_both(link, room, body),
    }
}
