//! The head of a reply, in the bytes that have come so far.

ghost use Rattle.std.specs.Prelude.{◌≡◌, ◌<◌, ◌≤◌, ◌↔◌, ℕ, List, Err, Ok, IfOk, IsTrue, length};
ghost use Rattle.httparse.specs.Grammar.{ResponseHead};
ghost use Rattle.httparse.specs.Spans.{IsResponseWithin, IsResponseAt};
ghost use Rattle.http_front.specs.Heads.{BeginsResponse, BeginsNoResponse, AwaitsResponse, head_of_response, Judges};

use crate::fields::usable_length;
use crate::head::{FIELDS_IN_ALL, HeadFault, MAX_BYTES, MAX_FIELDS, ReplyHead};
use httparse::Status;
use httparse::spans::{EMPTY_HEADER_SPAN, HeaderSpan, ResponseSpans, parse_response};

/// What the reply's head at the start of the bytes says. It takes no memory.
pub fn read_response(buf: &[u8]) -> Result<ReplyHead, HeadFault>
    // A head is reported only where one at the start of the bytes is taken, and says what that one says.
    ensures head { IfOk result (λ head. (h : ResponseHead) × (rest : List ℕ) × BeginsResponse buf.now h rest × (head ≡ head_of_response h)) }
    ensures within { IfOk result (λ head. (0 < head.size) × (head.size ≤ length buf.now) × (head.size ≤ 8192)) }
    // Such a head is reported.
    ensures found { (h : ResponseHead) (rest : List ℕ) → BeginsResponse buf.now h rest → result ≡ Ok (head_of_response h) }
    // `NotYet` comes exactly where more bytes are awaited.
    ensures not_yet { (result ≡ Err HeadFault.NotYet) ↔ AwaitsResponse buf.now }
    // `Bad` comes exactly where neither is so.
    ensures bad { (result ≡ Err HeadFault.Bad) ↔ (BeginsNoResponse buf.now × ¬ (AwaitsResponse buf.now)) }
{
    judge(buf)
}

/// The same, by its cases.
fn judge(buf: &[u8]) -> Result<ReplyHead, HeadFault>
    ensures { Judges (λ (h : ResponseHead). (rest : List ℕ) × BeginsResponse buf.now h rest) head_of_response (AwaitsResponse buf.now) result }
{
    let mut fields = [EMPTY_HEADER_SPAN; MAX_FIELDS];
    match parse_response(buf, &mut fields) {
        Ok(Status::Complete(spans)) if spans.len <= MAX_BYTES => Ok(head_of(buf, spans, &fields)),
        Ok(Status::Partial) if buf.len() < MAX_BYTES => Err(HeadFault::NotYet),
        Err(_) if awaits(buf) => Err(HeadFault::NotYet),
        _ => Err(HeadFault::Bad),
    }
}

/// What the head at these offsets says.
fn head_of(buf: &[u8], spans: ResponseSpans, fields: &[HeaderSpan]) -> ReplyHead
    requires { IsResponseWithin buf.now fields.now spans }
    ensures { (h : ResponseHead) → IsResponseAt buf.now fields.now spans h → result ≡ head_of_response h }
{
    ReplyHead {
        code: spans.code,
        length: usable_length(buf, &fields[..spans.headers]),
        size: spans.len,
    }
}

/// Whether more of a head is awaited, however many fields it has. It has a large table of its own on the stack.
#[cold]
#[inline(never)]
fn awaits(buf: &[u8]) -> bool
    ensures { IsTrue result ↔ AwaitsResponse buf.now }
{
    if buf.len() >= MAX_BYTES {
        return false;
    }
    let mut fields = [EMPTY_HEADER_SPAN; FIELDS_IN_ALL];
    match parse_response(buf, &mut fields) {
        Ok(Status::Complete(_)) => false,
        Ok(Status::Partial) => true,
        Err(_) => false,
    }
}
