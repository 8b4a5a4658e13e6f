//! Connections over links in memory: requests that are cut and refused, calls that fail one at a time, and calls of one byte.

mod counters;
mod office;

use crate::same::same;
use crate::sample::{self, put, request};
use bank_connection::{ServeError, Served, serve_link};
use office::BookOffice;
use ofx_ports::{MemClock, MemLink, MemSink, MemSource};
use ofx_types::Moment;
use std::alloc::Global;
use std::process::Abort;

/// 31 January 2024, 12:00:00.
const NOON: Moment = Moment(1_706_702_400);

/// More room than the replies of three exchanges need.
const ROOM: usize = 8_192;

/// The bytes of the first line of a frame of the sample's files.
const FRAME_HEAD: usize = 9;

/// How a connection ended, and what was written.
type Outcome = (Result<Served, ServeError>, Vec<u8>);

/// What becomes of a link, over a bank of the sample's setup whose clock is at noon.
fn served_over(rt: &impl Abort, alloc: Global, incoming: MemSource, outgoing: MemSink) -> Outcome {
    let mut office = BookOffice::open(rt, alloc);
    served_by(rt, alloc, &mut office, incoming, outgoing)
}

/// The same by the office of that bank.
fn served_by(
    rt: &impl Abort,
    alloc: Global,
    office: &mut BookOffice,
    incoming: MemSource,
    outgoing: MemSink,
) -> Outcome {
    let mut clock = at_noon(rt, alloc);
    let mut link = MemLink::of(incoming, outgoing);
    let served = serve_link(alloc, office, &mut link, &mut clock);
    (served, link.held().to_vec(alloc).expect(rt, "room"))
}

/// A clock that is at noon.
pub fn at_noon(rt: &impl Abort, alloc: Global) -> MemClock {
    MemClock::new(alloc, &[NOON]).expect(rt, "a clock")
}

/// A source of these bytes.
fn source(rt: &impl Abort, alloc: Global, bytes: &[u8]) -> MemSource {
    MemSource::new(alloc, bytes).expect(rt, "a source")
}

/// A sink with room for so many bytes.
fn sink(rt: &impl Abort, alloc: Global, room: usize) -> MemSink {
    MemSink::new(alloc, room).expect(rt, "a sink")
}

/// What becomes of a link whose peer sends these bytes.
fn served(rt: &impl Abort, alloc: Global, bytes: &[u8]) -> Outcome {
    served_over(rt, alloc, source(rt, alloc, bytes), sink(rt, alloc, ROOM))
}

/// A file after the head of a request of this version.
pub fn posted(rt: &impl Abort, alloc: Global, version: &str, file: &[u8]) -> Vec<u8> {
    let head = format!(in alloc;
        "POST /ofx HTTP/{version}\r\nContent-Length: {}\r\n\r\n",
        file.len()
    );
    headed(rt, alloc, &head.expect(rt, "a head"), file)
}

/// Bytes after their head.
fn headed(rt: &impl Abort, alloc: Global, head: &str, body: &[u8]) -> Vec<u8> {
    let mut bytes = Vec::new(alloc);
    put(rt, &mut bytes, head.as_bytes());
    put(rt, &mut bytes, body);
    bytes
}

/// Bytes, so many times.
fn times(rt: &impl Abort, alloc: Global, bytes: &[u8], count: usize) -> Vec<u8> {
    let mut all = Vec::new(alloc);
    for _ in 0..count {
        put(rt, &mut all, bytes);
    }
    all
}

/// The sample's request in this version.
pub fn sample_request(rt: &impl Abort, alloc: Global, version: &str) -> Vec<u8> {
    let framed = request(rt, alloc);
    posted(rt, alloc, version, framed.get(FRAME_HEAD..).unwrap_or(b""))
}

/// The sample's request, so many times.
pub fn sample_times(rt: &impl Abort, alloc: Global, count: usize) -> Vec<u8> {
    times(rt, alloc, &sample_request(rt, alloc, "1.1"), count)
}

/// A reply of this code and phrase, with a body.
fn reply(
    rt: &impl Abort,
    alloc: Global,
    line: &str,
    kind: &str,
    body: &[u8],
    ending: &str,
) -> Vec<u8> {
    let head = format!(in alloc;
        "HTTP/1.1 {line}\r\nContent-Type: {kind}\r\nContent-Length: {}\r\nConnection: {ending}\r\n\r\n",
        body.len()
    );
    headed(rt, alloc, &head.expect(rt, "a head"), body)
}

/// The reply to the sample's request.
pub fn sample_reply(rt: &impl Abort, alloc: Global, ending: &str) -> Vec<u8> {
    let framed = sample::reply(rt, alloc);
    reply(
        rt,
        alloc,
        "200 OK",
        "application/x-ofx",
        framed.get(FRAME_HEAD..).unwrap_or(b""),
        ending,
    )
}

/// The reply to a request that the bank couldn't keep.
fn keeper_failed(rt: &impl Abort, alloc: Global) -> Vec<u8> {
    reply(
        rt,
        alloc,
        "503 Service Unavailable",
        "text/plain",
        b"keeper failed\n",
        "keep-alive",
    )
}

/// The replies to the sample's request, so many times, after which the connection goes on.
fn sample_replies(rt: &impl Abort, alloc: Global, count: usize) -> Vec<u8> {
    times(rt, alloc, &sample_reply(rt, alloc, "keep-alive"), count)
}

/// Heads that are refused, and the first line and the body of the reply.
const REFUSED: &[(&str, &str, &str)] = &[
    ("\0", "400 Bad Request", "bad head\n"),
    (
        "GET /ofx HTTP/1.1\r\n\r\n",
        "405 Method Not Allowed\r\nAllow: POST",
        "post only\n",
    ),
    (
        "GET /x HTTP/1.1\r\n\r\n",
        "405 Method Not Allowed\r\nAllow: POST",
        "post only\n",
    ),
    ("POST /x HTTP/1.1\r\n\r\n", "404 Not Found", "not found\n"),
    (
        "POST /ofx HTTP/1.1\r\n\r\n",
        "411 Length Required",
        "length needed\n",
    ),
    (
        "POST /ofx HTTP/1.1\r\nContent-Length: 262145\r\n\r\n",
        "413 Payload Too Large",
        "too large\n",
    ),
];

#[test]
fn heads_are_refused_in_their_order(rt: HostRuntime) {
    let alloc = rt.alloc();
    for (head, line, body) in REFUSED {
        let (end, written) = served(&rt, alloc, head.as_bytes());
        same(&rt, end, Ok(Served::Closed(1)));
        assert!(rt; written == reply(&rt, alloc, line, "text/plain", body.as_bytes(), "close"));
    }
}

/// How a connection ends whose peer sends these bytes.
fn end_of(rt: &impl Abort, alloc: Global, bytes: &[u8]) -> Result<Served, ServeError> {
    let (end, _written) = served(rt, alloc, bytes);
    end
}

#[test]
fn a_link_ends_between_requests_or_within_one(rt: HostRuntime) {
    let alloc = rt.alloc();
    let bytes = sample_times(&rt, alloc, 1);
    same(&rt, end_of(&rt, alloc, b""), Ok(Served::End(0)));
    for size in [1, 5, bytes.len().saturating_sub(1)] {
        let part = bytes.get(..size).unwrap_or(b"");
        let cut = ServeError::Cut(size as u64);
        same(&rt, end_of(&rt, alloc, part), Err(cut));
    }
    same(&rt, end_of(&rt, alloc, &bytes), Ok(Served::End(1)));
}

#[test]
fn calls_of_one_byte_change_nothing(rt: HostRuntime) {
    let alloc = rt.alloc();
    let bytes = sample_times(&rt, alloc, 2);
    let incoming = MemSource::failing(alloc, &bytes, 1, &[]).expect(&rt, "a source");
    let outgoing = MemSink::failing(alloc, ROOM, 1, &[]).expect(&rt, "a sink");
    let (end, written) = served_over(&rt, alloc, incoming, outgoing);
    same(&rt, end, Ok(Served::End(2)));
    assert!(rt; written == sample_replies(&rt, alloc, 2));
}

#[test]
fn each_failing_read_ends_the_connection(rt: HostRuntime) {
    let alloc = rt.alloc();
    let bytes = sample_times(&rt, alloc, 3);
    let text = sample_replies(&rt, alloc, 3);
    // Nine reads give the requests, and one more shows the end.
    for number in 1..11 {
        let incoming = MemSource::failing(alloc, &bytes, 200, &[number]).expect(&rt, "a source");
        let (end, written) = served_over(&rt, alloc, incoming, sink(&rt, alloc, ROOM));
        same(&rt, end, Err(ServeError::ReadFault));
        assert!(rt; text.starts_with(&written));
    }
}

#[test]
fn each_failing_write_ends_the_connection(rt: HostRuntime) {
    let alloc = rt.alloc();
    let bytes = sample_times(&rt, alloc, 3);
    let text = sample_replies(&rt, alloc, 3);
    let size = text.len() as u64 / 3;
    // Three writes for each reply.
    for number in 1..10 {
        let outgoing = MemSink::failing(alloc, ROOM, 400, &[number]).expect(&rt, "a sink");
        let (end, written) = served_over(&rt, alloc, source(&rt, alloc, &bytes), outgoing);
        same(&rt, end, Err(ServeError::WriteFault));
        assert!(rt; text.starts_with(&written));
        same(
            &rt,
            written.len() as u64,
            (number - 1) / 3 * size + (number - 1) % 3 * 400,
        );
    }
}

#[test]
fn the_hundredth_reply_is_the_last(rt: HostRuntime) {
    let alloc = rt.alloc();
    let bytes = times(&rt, alloc, &posted(&rt, alloc, "1.1", b"X"), 101);
    let outgoing = sink(&rt, alloc, 20_000);
    let (end, written) = served_over(&rt, alloc, source(&rt, alloc, &bytes), outgoing);
    same(&rt, end, Ok(Served::Closed(100)));
    let last = reply(
        &rt,
        alloc,
        "400 Bad Request",
        "text/plain",
        b"bad file at 1\n",
        "close",
    );
    assert!(rt; written.ends_with(&last));
}
