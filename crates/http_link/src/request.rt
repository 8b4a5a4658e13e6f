//! The next request of a link, read whole.

ghost use Rattle.std.specs.Prelude.{◌≡◌, ◌-◌, ◌<◌, ◌≤◌, ℕ, List, length, Some, None, IfOk, IfErr, OnOk};
ghost use Rattle.std.specs.Io.KnownBytes.{Keeps, prepend_known};
ghost use Rattle.http_link.specs.Requests.{HasHead, head_refusal};
ghost use Rattle.http_link.specs.Incoming.{GrowsOn, IsPrefix, LinkEnds, IsNext, HasNoNext, HasNoBody};

use crate::incoming::Incoming;
use crate::refusal::Refusal;
use crate::served::ServeError;
use http_front::{Head, HeadFault, read_request};
use ofx_ports::Link;

/// The most bytes of a body.
const MAX_BODY: u64 = 262_144;

/// What the bytes that have come begin with.
#[derive(Clone, Copy)]
enum Prefix {
    /// Nothing, and the link has ended.
    End,
    /// No head, whatever comes.
    Bad,
    /// A head that tells this.
    Told(Head),
}

/// What comes next on a link.
#[derive(Clone, Copy)]
pub enum Next {
    /// Nothing: the link has ended where the last request had.
    End,
    /// A request that its head refuses, and its number of bytes.
    Refused(Refusal, usize),
    /// A whole request: what its head tells, and the number of bytes of head and body.
    Whole(Head, usize),
}

/// The number of bytes of a request with this head, or why the head refuses it. The refusals are tried in this order.
fn size_of(head: &Head) -> Result<usize, Refusal>
    requires { head.now.size ≤ 8192 }
    ensures refused { IfErr result (λ refusal. head_refusal head.now ≡ Some refusal) }
    ensures size { IfOk result (λ size. (head_refusal head.now ≡ None) × (head.now.size ≤ size) × (size - head.now.size ≤ 262144)
        × (head.now.length ≡ Some (size - head.now.size))) }
{
    if !head.method_is_post {
        return Err(Refusal::NotPost);
    }
    if !head.path_is_ofx {
        return Err(Refusal::NotFound);
    }
    match head.length {
        None => Err(Refusal::NoLength),
        Some(length) => {
            if length > MAX_BODY {
                Err(Refusal::TooLarge)
            } else {
                Ok(head.size + length as usize)
            }
        }
    }
}

/// Reads on until a head comes first, or none can come.
fn read_head<L: Link>(incoming: &mut Incoming, link: &mut L) -> Result<Prefix, ServeError>
    ensures kept { Keeps (prepend_known incoming.old (L.left link.old)) (prepend_known incoming.new (L.left link.new)) }
    ensures prefix { IfOk result (IsPrefix incoming.new (L.left link.new)) }
    ensures none { IfErr result (HasNoNext incoming.new (L.left link.new) (L.read_faults link.old) (L.read_faults link.new)) }
    ensures reads { L.read_faults link.old ≤ L.read_faults link.new }
    ensures unwritten { Keeps (L.held link.old) (L.held link.new) }
    ensures writes { L.write_faults link.new ≡ L.write_faults link.old }
{
    loop {
        match read_request(incoming.bytes()) {
            Ok(head) => return Ok(Prefix::Told(head)),
            Err(HeadFault::Bad) => return Ok(Prefix::Bad),
            Err(HeadFault::NotYet) => {
                if incoming.read_more(link)? == 0 {
                    return link_end(incoming.bytes().len());
                }
            }
        }
    }
}

/// What a link that has ended after so many bytes of a head is.
fn link_end(count: usize) -> Result<Prefix, ServeError>
    ensures { LinkEnds count result }
{
    if count == 0 {
        Ok(Prefix::End)
    } else {
        Err(ServeError::Cut(count as u64))
    }
}

/// Reads on until so many bytes have come.
pub(crate) fn read_body<L: Link>(
    incoming: &mut Incoming,
    link: &mut L,
    size: usize,
) -> Result<(), ServeError>
    ensures kept { Keeps (prepend_known incoming.old (L.left link.old)) (prepend_known incoming.new (L.left link.new)) }
    ensures grown { GrowsOn incoming.old incoming.new }
    ensures whole { OnOk result (size ≤ length incoming.new) }
    ensures none { IfErr result (HasNoBody size incoming.new (L.left link.new) (L.read_faults link.old) (L.read_faults link.new)) }
    ensures reads { L.read_faults link.old ≤ L.read_faults link.new }
    ensures unwritten { Keeps (L.held link.old) (L.held link.new) }
    ensures writes { L.write_faults link.new ≡ L.write_faults link.old }
{
    while incoming.bytes().len() < size {
        if incoming.read_more(link)? == 0 {
            return Err(ServeError::Cut(incoming.bytes().len() as u64));
        }
    }
    Ok(())
}

/// Reads the next request whole, unless its head refuses it.
///
/// ```rust
/// use http_link::{Incoming, Next, next_request};
/// use ofx_ports::MemLink;
///
/// let bytes = b"POST /ofx HTTP/1.1\r\nContent-Length: 5\r\n\r\nhello";
/// let mut link = MemLink::new(rt.alloc(), bytes, 1024).expect(&rt, "a link");
/// let mut incoming = Incoming::new(rt.alloc());
/// let Ok(Next::Whole(head, size)) = next_request(&mut incoming, &mut link) else {
///     panic!(rt; "a whole request");
/// };
/// assert_eq!(rt; size - head.size, 5);
/// // The bytes of a request stay until they are used up. The link ends after it.
/// incoming.consume(size);
/// let Ok(Next::End) = next_request(&mut incoming, &mut link) else {
///     panic!(rt; "no more requests");
/// };
/// ```
pub fn next_request<L: Link>(incoming: &mut Incoming, link: &mut L) -> Result<Next, ServeError>
    ensures kept { Keeps (prepend_known incoming.old (L.left link.old)) (prepend_known incoming.new (L.left link.new)) }
    ensures next { IfOk result (IsNext incoming.new (L.left link.new)) }
    ensures none { IfErr result (HasNoNext incoming.new (L.left link.new) (L.read_faults link.old) (L.read_faults link.new)) }
    ensures reads { L.read_faults link.old ≤ L.read_faults link.new }
    ensures unwritten { Keeps (L.held link.old) (L.held link.new) }
    ensures writes { L.write_faults link.new ≡ L.write_faults link.old }
{
    match read_head(incoming, link)? {
        Prefix::End => Ok(Next::End),
        Prefix::Bad => Ok(Next::Refused(Refusal::BadHead, incoming.bytes().len())),
        Prefix::Told(head) => next_body(incoming, link, head),
    }
}

/// Reads the body after the head that comes first, unless the head refuses the request.
fn next_body<L: Link>(incoming: &mut Incoming, link: &mut L, head: Head) -> Result<Next, ServeError>
    requires head { (rest : List ℕ) × HasHead incoming.old head rest }
    requires within { head.size ≤ length incoming.old }
    requires some { 0 < head.size }
    requires short { head.size ≤ 8192 }
    ensures kept { Keeps (prepend_known incoming.old (L.left link.old)) (prepend_known incoming.new (L.left link.new)) }
    ensures next { IfOk result (IsNext incoming.new (L.left link.new)) }
    ensures none { IfErr result (HasNoNext incoming.new (L.left link.new) (L.read_faults link.old) (L.read_faults link.new)) }
    ensures reads { L.read_faults link.old ≤ L.read_faults link.new }
    ensures unwritten { Keeps (L.held link.old) (L.held link.new) }
    ensures writes { L.write_faults link.new ≡ L.write_faults link.old }
{
    match size_of(&head) {
        Err(refusal) => Ok(Next::Refused(refusal, head.size)),
        Ok(size) => {
            read_body(incoming, link, size)?;
            Ok(Next::Whole(head, size))
        }
    }
}
