//! The head of a request, in the bytes that have come so far.

ghost use Rattle.std.specs.Prelude.{◌≡◌, ◌<◌, ◌≤◌, ◌↔◌, ◌++◌, ℕ, List, Err, Ok, IfOk, IfSome, IfNone, IsTrue, length, position};
ghost use Rattle.std.specs.List.{list_all};
ghost use Rattle.httparse.specs.Grammar.{RequestHead, EndsInTarget, LineEnd, print_end, is_uri_byte};
ghost use Rattle.httparse.specs.Spans.{IsRequestWithin, IsRequestAt};
ghost use Rattle.http_front.specs.Targets.{is_space, BeginsNoLine, HoldsAfterBlank, OpensTarget};
ghost use Rattle.http_front.specs.Heads.{BeginsRequest, BeginsNoRequest, AwaitsRequest, head_of_request, Judges};

use crate::fields::{says_close, usable_length};
use crate::head::{FIELDS_IN_ALL, Head, HeadFault, MAX_BYTES, MAX_FIELDS};
use httparse::spans::{EMPTY_HEADER_SPAN, HeaderSpan, RequestSpans, parse_request};
use httparse::{Status, is_token, is_uri_token};

/// What the request's head at the start of the bytes says. It takes no memory.
///
/// ```rust
/// use http_front::{HeadFault, read_request};
///
/// let bytes = b"POST /ofx HTTP/1.1\r\nContent-Length: 5\r\n\r\nhello";
/// let Ok(head) = read_request(bytes) else {
///     panic!(rt; "a head");
/// };
/// assert!(rt; head.method_is_post && head.path_is_ofx && head.length == Some(5));
/// assert_eq!(rt; bytes.len() - head.size, 5);
/// // More bytes may make these a head.
/// assert!(rt; read_request(b"POST /ofx HT").err() == Some(HeadFault::NotYet));
/// ```
pub fn read_request(buf: &[u8]) -> Result<Head, HeadFault>
    // A head is reported only where one at the start of the bytes is taken, and says what that one says.
    ensures head { IfOk result (λ head. (h : RequestHead) × (rest : List ℕ) × BeginsRequest buf.now h rest × (head ≡ head_of_request h)) }
    ensures within { IfOk result (λ head. (0 < head.size) × (head.size ≤ length buf.now) × (head.size ≤ 8192)) }
    // Such a head is reported.
    ensures found { (h : RequestHead) (rest : List ℕ) → BeginsRequest buf.now h rest → result ≡ Ok (head_of_request h) }
    // `NotYet` comes exactly where more bytes are awaited.
    ensures not_yet { (result ≡ Err HeadFault.NotYet) ↔ AwaitsRequest buf.now }
    // `Bad` comes exactly where neither is so.
    ensures bad { (result ≡ Err HeadFault.Bad) ↔ (BeginsNoRequest buf.now × ¬ (AwaitsRequest buf.now)) }
{
    judge(buf)
}

/// The same, by its cases.
fn judge(buf: &[u8]) -> Result<Head, HeadFault>
    ensures { Judges (λ (h : RequestHead). (rest : List ℕ) × BeginsRequest buf.now h rest) head_of_request (AwaitsRequest buf.now) result }
{
    let mut fields = [EMPTY_HEADER_SPAN; MAX_FIELDS];
    match parse_request(buf, &mut fields) {
        Ok(Status::Complete(spans)) if spans.len <= MAX_BYTES => Ok(head_of(buf, spans, &fields)),
        Ok(Status::Partial) if buf.len() < MAX_BYTES => Err(HeadFault::NotYet),
        Err(_) if awaits(buf) => Err(HeadFault::NotYet),
        _ => Err(HeadFault::Bad),
    }
}

/// What the head at these offsets says.
fn head_of(buf: &[u8], spans: RequestSpans, fields: &[HeaderSpan]) -> Head
    requires { IsRequestWithin buf.now fields.now spans }
    ensures { (h : RequestHead) → IsRequestAt buf.now fields.now spans h → result ≡ head_of_request h }
{
    let fields = &fields[..spans.headers];
    Head {
        method_is_post: spans.method.of(buf) == b"POST".as_slice(),
        path_is_ofx: spans.path.of(buf) == b"/ofx".as_slice(),
        length: usable_length(buf, fields),
        last: spans.version == 0 || says_close(buf, fields),
        size: spans.len,
    }
}

/// Whether more of a head is awaited, however many fields it has. It has a large table of its own on the stack.
#[cold]
#[inline(never)]
fn awaits(buf: &[u8]) -> bool
    ensures { IsTrue result ↔ AwaitsRequest buf.now }
{
    if buf.len() >= MAX_BYTES {
        return false;
    }
    let mut fields = [EMPTY_HEADER_SPAN; FIELDS_IN_ALL];
    match parse_request(buf, &mut fields) {
        Ok(Status::Complete(_)) => false,
        Ok(Status::Partial) => true,
        Err(_) => ends_in_target(buf),
    }
}

/// Whether the bytes end within the request target. The parser doesn't promise to refuse no such bytes.
fn ends_in_target(buf: &[u8]) -> bool
    ensures { IsTrue result ↔ EndsInTarget buf.now }
{
    opens_target(after_empty_lines(buf))
}

/// Whether the bytes are a method, a space, and then only bytes of a target.
fn opens_target(line: &[u8]) -> bool
    ensures { IsTrue result ↔ OpensTarget line.now }
{
    match space_in(line) {
        Some(end) => is_token(&line[..end]) && are_target_bytes(&line[end + 1..]),
        None => false,
    }
}

fn space_in(line: &[u8]) -> Option<usize>
    ensures { result ≡ position is_space line.now }
{
    line.iter().position(|b| *b == b' ')
}

fn are_target_bytes(bytes: &[u8]) -> bool
    ensures { result ≡ list_all is_uri_byte bytes.now }
{
    bytes.iter().all(|b| is_uri_token(*b))
}

/// The bytes after all empty lines at the start.
fn after_empty_lines(buf: &[u8]) -> &[u8]
    ensures split { HoldsAfterBlank buf.now result.now }
    ensures all { BeginsNoLine result.now }
{
    let mut rest = buf;
    while let Some(tail) = after_empty_line(rest) {
        rest = tail;
    }
    rest
}

/// The bytes after the empty line at the start, if there is one.
fn after_empty_line(text: &[u8]) -> Option<&[u8]>
    ensures split { IfSome result (λ rest. (end : LineEnd) × (text.now ≡ print_end end ++ rest.now)) }
    ensures none { IfNone result (BeginsNoLine text.now) }
{
    match text {
        [b'\n', rest @ ..] => Some(rest),
        [b'\r', b'\n', rest @ ..] => Some(rest),
        _ => None,
    }
}
