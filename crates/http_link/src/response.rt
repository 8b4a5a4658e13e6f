//! The next reply of a link, read whole, as a client reads it.

ghost use Rattle.std.specs.Prelude.{◌≡◌, ◌-◌, ◌<◌, ◌≤◌, ℕ, List, length, Some, true, IfOk, IfErr, IfSome, IfNone};
ghost use Rattle.std.specs.Io.KnownBytes.{Keeps, prepend_known};
ghost use Rattle.http_link.specs.Responses.{HasReplyHead, HoldsReply, HasNoReply, is_unusable, call_fault};

use crate::incoming::Incoming;
use crate::request::read_body;
use crate::served::ServeError;
use http_front::{HeadFault, ReplyHead, read_response};
use ofx_ports::Link;

/// The most bytes of a reply's body.
const MAX_BODY: u64 = 67_108_864;

/// A whole reply at the start of the bytes that have come.
#[derive(Clone, Copy)]
pub struct Response {
    /// The status code, below 1,000.
    pub code: u16,
    /// The number of bytes of its head. The body comes after them.
    pub head: usize,
    /// The number of bytes of head and body.
    pub size: usize,
}

/// Why no reply came.
#[derive(Clone, Copy, PartialEq, Eq)]
pub enum CallFault {
    /// A read of the link failed.
    ReadFault,
    /// The reply's head has no form, no usable length, or a length over 67,108,864.
    BadHead,
    /// The link ended so many bytes into the reply.
    Cut(u64),
    /// Memory was refused for the bytes that are read.
    OutOfMemory,
}

/// Why no reply came, where no more bytes could be read.
fn call_fault(error: ServeError) -> CallFault
    ensures { result ≡ call_fault error }
{
    match error {
        ServeError::Cut(count) => CallFault::Cut(count),
        ServeError::OutOfMemory => CallFault::OutOfMemory,
        ServeError::ReadFault | ServeError::WriteFault => CallFault::ReadFault,
    }
}

/// The number of bytes of a reply with this head. None where its length isn't usable.
fn size_of(head: &ReplyHead) -> Option<usize>
    requires { head.now.size ≤ 8192 }
    ensures size { IfSome result (λ size. (head.now.size ≤ size) × (size - head.now.size ≤ 67108864) × (head.now.length ≡ Some (size - head.now.size))) }
    ensures none { IfNone result (is_unusable head.now.length ≡ true) }
{
    match head.length {
        None => None,
        Some(length) => {
            if length > MAX_BODY {
                None
            } else {
                Some(head.size + length as usize)
            }
        }
    }
}

/// Reads on until a reply's head comes first.
fn reply_head<L: Link>(incoming: &mut Incoming, link: &mut L) -> Result<ReplyHead, CallFault>
    ensures kept { Keeps (prepend_known incoming.old (L.left link.old)) (prepend_known incoming.new (L.left link.new)) }
    ensures head { IfOk result (λ head. (0 < head.size) × (head.size ≤ 8192) × (head.size ≤ length incoming.new) × ((rest : List ℕ) × HasReplyHead incoming.new head rest)) }
    ensures none { IfErr result (HasNoReply incoming.new (L.left link.new) (L.read_faults link.old) (L.read_faults link.new)) }
    ensures reads { L.read_faults link.old ≤ L.read_faults link.new }
    ensures unwritten { Keeps (L.held link.old) (L.held link.new) }
    ensures writes { L.write_faults link.new ≡ L.write_faults link.old }
{
    loop {
        match read_response(incoming.bytes()) {
            Ok(head) => return Ok(head),
            Err(HeadFault::Bad) => return Err(CallFault::BadHead),
            Err(HeadFault::NotYet) => match incoming.read_more(link) {
                Ok(0) => return Err(CallFault::Cut(incoming.bytes().len() as u64)),
                Ok(_) => {}
                Err(error) => return Err(call_fault(error)),
            },
        }
    }
}

/// Reads the body after the head that comes first.
fn reply_body<L: Link>(
    incoming: &mut Incoming,
    link: &mut L,
    head: ReplyHead,
) -> Result<Response, CallFault>
    requires head { (rest : List ℕ) × HasReplyHead incoming.old head rest }
    requires within { head.size ≤ length incoming.old }
    requires short { head.size ≤ 8192 }
    ensures kept { Keeps (prepend_known incoming.old (L.left link.old)) (prepend_known incoming.new (L.left link.new)) }
    ensures answer { IfOk result (HoldsReply incoming.new) }
    ensures none { IfErr result (HasNoReply incoming.new (L.left link.new) (L.read_faults link.old) (L.read_faults link.new)) }
    ensures reads { L.read_faults link.old ≤ L.read_faults link.new }
    ensures unwritten { Keeps (L.held link.old) (L.held link.new) }
    ensures writes { L.write_faults link.new ≡ L.write_faults link.old }
{
    match size_of(&head) {
        None => Err(CallFault::BadHead),
        Some(size) => match read_body(incoming, link, size) {
            Ok(()) => Ok(Response {
                code: head.code,
                head: head.size,
                size,
            }),
            Err(error) => Err(call_fault(error)),
        },
    }
}

/// Reads the next reply whole. Its bytes stay before those that have come until they are used up.
///
/// `BadHead`, `Cut(n)` with the number of bytes of the reply that came, `ReadFault` where a read of the link failed, or
/// `OutOfMemory`.
pub fn next_reply<L: Link>(incoming: &mut Incoming, link: &mut L) -> Result<Response, CallFault>
    ensures kept { Keeps (prepend_known incoming.old (L.left link.old)) (prepend_known incoming.new (L.left link.new)) }
    ensures answer { IfOk result (HoldsReply incoming.new) }
    ensures none { IfErr result (HasNoReply incoming.new (L.left link.new) (L.read_faults link.old) (L.read_faults link.new)) }
    ensures reads { L.read_faults link.old ≤ L.read_faults link.new }
    ensures unwritten { Keeps (L.held link.old) (L.held link.new) }
    ensures writes { L.write_faults link.new ≡ L.write_faults link.old }
{
    let head = reply_head(incoming, link)?;
    reply_body(incoming, link, head)
}
