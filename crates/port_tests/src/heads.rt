//! Heads of HTTP messages: each public call once, and tables of heads, with what is read of them, where they are cut, and those
//! that are bad.

ghost use Rattle.http_front.specs.HeadText.{IsReplyCode};

use http_front::{
    HEAD_ROOM, Head, HeadFault, ReplyHead, read_request, read_response, write_head, write_post,
};
use std::alloc::Global;
use std::process::Abort;

const HEAD: &[u8; 58] = b"POST /ofx HTTP/1.1\r\nHost: localhost\r\nContent-Length: 5\r\n\r\n";

/// The parts one after another.
fn joined(rt: &impl Abort, alloc: Global, parts: &[&[u8]]) -> Vec<u8> {
    let mut bytes = Vec::new(alloc);
    for part in parts {
        bytes.extend_from_slice(part).expect(rt, "room");
    }
    bytes
}

/// These bytes are read as this head, or for this fault as none.
fn reads(rt: &impl Abort, bytes: &[u8], wanted: Result<Head, HeadFault>) {
    assert!(rt; read_request(bytes) == wanted);
}

/// These bytes are read as this head of a reply, or for this fault as none.
fn reads_reply(rt: &impl Abort, bytes: &[u8], wanted: Result<ReplyHead, HeadFault>) {
    assert!(rt; read_response(bytes) == wanted);
}

/// The head of a request for the bank's path, by its body's length, whether it is the last one, and its own size.
fn reported(length: Option<u64>, last: bool, size: usize) -> Head {
    Head {
        method_is_post: true,
        path_is_ofx: true,
        length,
        last,
        size,
    }
}

#[test]
fn a_head_is_reported_once_it_is_whole(rt: HostRuntime) {
    for size in 0..HEAD.len() {
        reads(&rt, &HEAD[..size], Err(HeadFault::NotYet));
    }
    reads(&rt, HEAD, Ok(reported(Some(5), false, 58)));
    let followed = joined(&rt, rt.alloc(), &[HEAD, b"hello\0\r\n"]);
    reads(&rt, &followed, Ok(reported(Some(5), false, 58)));
}

/// First lines: whether the method is POST, the target is the bank's path, and the connection ends.
const FIRST_LINES: &[(&[u8], bool, bool, bool)] = &[
    (b"GET /ofx HTTP/1.1\r\n", false, true, false),
    (b"HEAD /ofx HTTP/1.1\r\n", false, true, false),
    (b"post /ofx HTTP/1.1\r\n", false, true, false),
    (b"POST /x HTTP/1.1\r\n", true, false, false),
    (b"POST /ofx?x HTTP/1.1\r\n", true, false, false),
    (b"POST /ofx/ HTTP/1.1\r\n", true, false, false),
    (b"POST /OFX HTTP/1.1\r\n", true, false, false),
    (b"POST http://h/ofx HTTP/1.1\r\n", true, false, false),
    (b"POST /\xc3\xa9 HTTP/1.1\r\n", true, false, false),
    (b"POST /ofx HTTP/1.0\r\n", true, true, true),
    (b"\r\n\n\r\nPOST /ofx HTTP/1.1\n", true, true, false),
];

#[test]
fn first_lines_are_reported(rt: HostRuntime) {
    for (line, method_is_post, path_is_ofx, last) in FIRST_LINES {
        let head = joined(&rt, rt.alloc(), &[line, b"Content-Length: 5\r\n\r\n"]);
        let reported = Head {
            method_is_post: *method_is_post,
            path_is_ofx: *path_is_ofx,
            length: Some(5),
            last: *last,
            size: head.len(),
        };
        reads(&rt, &head, Ok(reported));
    }
}

/// Fields: the length of the body that they state, and whether the connection ends.
const FIELDS: &[(&[u8], Option<u64>, bool)] = &[
    (b"", None, false),
    (b"Content-Length: 262145\r\n", Some(262_145), false),
    (b"content-LENGTH:7\r\n", Some(7), false),
    (b"Content-Length: \t 7 \t\r\n", Some(7), false),
    (b"Content-Length: 000000012\n", Some(12), false),
    (b"Content-Length: 999999999\r\n", Some(999_999_999), false),
    (b"Content-Length: 0000000012\r\n", None, false),
    (b"Content-Length:\r\n", None, false),
    (b"Content-Length: +5\r\n", None, false),
    (b"Content-Length: 5 5\r\n", None, false),
    (b"Content-Length: 5, 5\r\n", None, false),
    (b"Content-Length: 0x5\r\n", None, false),
    (b"Content-Length: 5\r\nContent-Length: 5\r\n", None, false),
    (b"Content-Length: 5\r\nContent-Length: x\r\n", None, false),
    (
        b"Content-Length: 5\r\ntransfer-encoding: chunked\r\n",
        None,
        false,
    ),
    (b"Transfer-Encoding:\r\nContent-Length: 5\r\n", None, false),
    (
        b"Content-Length: 5\r\nExpect: 100-continue\r\n",
        Some(5),
        false,
    ),
    (b"Content-Lengths: 5\r\n", None, false),
    (b"Content-Length: 5\r\nConnection: close\r\n", Some(5), true),
    (b"connection: CLOSE\r\nContent-Length: 5\r\n", Some(5), true),
    (
        b"Connection: keep-alive\r\nConnection: close\r\n",
        None,
        true,
    ),
    (
        b"Content-Length: 5\r\nConnection: close, TE\r\n",
        Some(5),
        false,
    ),
    (
        b"Content-Length: 5\r\nConnection: closed\r\n",
        Some(5),
        false,
    ),
    (b"Content-Length: 5\r\nX: close\r\n", Some(5), false),
];

#[test]
fn fields_are_reported(rt: HostRuntime) {
    for (fields, length, last) in FIELDS {
        let head = joined(
            &rt,
            rt.alloc(),
            &[b"POST /ofx HTTP/1.1\r\n", fields, b"\r\n"],
        );
        reads(&rt, &head, Ok(reported(*length, *last, head.len())));
    }
}

/// Bytes that begin with no head, and why.
const HEADLESS: &[(&[u8], HeadFault)] = &[
    (b"\x01", HeadFault::Bad),
    (b" POST", HeadFault::Bad),
    (b"\rP", HeadFault::Bad),
    (b"\r", HeadFault::NotYet),
    (b"POST  ", HeadFault::Bad),
    (b"POST\r\n", HeadFault::Bad),
    (b"POST /\xff", HeadFault::NotYet),
    (b"POST /\xff ", HeadFault::Bad),
    (b"POST /ofx\r\n", HeadFault::Bad),
    (b"POST /ofx HTTP/1.2", HeadFault::Bad),
    (b"POST /ofx HTTP/2", HeadFault::Bad),
    (b"POST /ofx HTTP/1.1 ", HeadFault::Bad),
    (b"POST /ofx HTTP/1.1\r\n A: b", HeadFault::Bad),
    (b"POST /ofx HTTP/1.1\r\nA : b", HeadFault::Bad),
    (b"POST /ofx HTTP/1.1\r\nA: b\r\n c", HeadFault::Bad),
    (b"POST /ofx HTTP/1.1\r\nA: b\0", HeadFault::Bad),
    (b"POST /ofx HTTP/1.1\r\nA: b\rc", HeadFault::Bad),
    (b"POST /ofx HTTP/1.1\r\nA\r\n", HeadFault::Bad),
    (b"POST /ofx HTTP/1.1\r\n: b", HeadFault::Bad),
    (b"POST /ofx HTTP/1.1\r\n\rx", HeadFault::Bad),
    (b"POST /ofx HTTP/1.1\r\nA: \xff\r", HeadFault::NotYet),
];

#[test]
fn heads_without_a_form_are_bad(rt: HostRuntime) {
    for (bytes, fault) in HEADLESS {
        reads(&rt, bytes, Err(*fault));
    }
}

/// Sizes of a head, how many of its bytes have come, and what is read of them.
const SIZES: &[(usize, usize, Option<HeadFault>)] = &[
    (8192, 8192, None),
    (8192, 8191, Some(HeadFault::NotYet)),
    (8193, 8193, Some(HeadFault::Bad)),
    (8193, 8192, Some(HeadFault::Bad)),
    (8193, 8191, Some(HeadFault::NotYet)),
];

/// A head of so many bytes, with one long field.
fn long(rt: &impl Abort, alloc: Global, size: usize) -> Vec<u8> {
    let mut head = joined(rt, alloc, &[b"POST /ofx HTTP/1.1\r\nA: "]);
    for _ in 27..size {
        head.push(b'a').expect(rt, "room");
    }
    head.extend_from_slice(b"\r\n\r\n").expect(rt, "room");
    head
}

#[test]
fn a_head_has_at_most_8192_bytes(rt: HostRuntime) {
    for (size, kept, fault) in SIZES {
        let mut head = long(&rt, rt.alloc(), *size);
        head.truncate(*kept);
        assert!(rt; read_request(&head).err() == *fault);
    }
}

/// Numbers of fields, how a head ends after them, and what is read.
const CROWDS: &[(usize, &[u8], Option<HeadFault>)] = &[
    (64, b"\n", None),
    (64, b"", Some(HeadFault::NotYet)),
    (65, b"\n", Some(HeadFault::Bad)),
    (65, b"", Some(HeadFault::NotYet)),
    (65, b"\0", Some(HeadFault::Bad)),
    (2723, b"\n", Some(HeadFault::Bad)),
    (2723, b" ", Some(HeadFault::Bad)),
    (2724, b"", Some(HeadFault::NotYet)),
    (2724, b"A", Some(HeadFault::Bad)),
];

/// A first line and so many fields, and what comes after them.
fn crowded(rt: &impl Abort, alloc: Global, first: &[u8], fields: usize, end: &[u8]) -> Vec<u8> {
    let mut head = joined(rt, alloc, &[first]);
    for _ in 0..fields {
        head.extend_from_slice(b"A:\n").expect(rt, "room");
    }
    head.extend_from_slice(end).expect(rt, "room");
    head
}

#[test]
fn a_head_has_at_most_64_fields(rt: HostRuntime) {
    for (fields, end, fault) in CROWDS {
        let head = crowded(&rt, rt.alloc(), b"POST /ofx HTTP/1.1\n", *fields, end);
        assert!(rt; read_request(&head).err() == *fault);
    }
    let reply = crowded(&rt, rt.alloc(), b"HTTP/1.1 200 OK\n", 65, b"");
    reads_reply(&rt, &reply, Err(HeadFault::NotYet));
    let reply = crowded(&rt, rt.alloc(), b"HTTP/1.1 200 OK\n", 65, b"\n");
    reads_reply(&rt, &reply, Err(HeadFault::Bad));
}

/// Heads of replies, with the code and the body's length that they give.
const REPLIES: &[(&[u8], u16, Option<u64>)] = &[
    (
        b"HTTP/1.1 200 OK\r\nContent-Length: 12\r\n\r\n",
        200,
        Some(12),
    ),
    (b"HTTP/1.0 503\n\n", 503, None),
    (b"HTTP/1.1 099 \xff\r\nCONTENT-length: 007\n\n", 99, Some(7)),
    (
        b"HTTP/1.1 200 OK\r\nTransfer-Encoding: chunked\r\n\r\n",
        200,
        None,
    ),
];

/// Bytes that begin with no head of a reply.
const NO_REPLIES: &[&[u8]] = &[
    b"HTTP/1.1 20 OK",
    b"HTTP/1.1 200x",
    b"HTTP/3",
    b"POST",
    b"HTTP/1.1 200 O\0",
];

#[test]
fn replies_are_reported(rt: HostRuntime) {
    for (head, code, length) in REPLIES {
        let reported = ReplyHead {
            code: *code,
            length: *length,
            size: head.len(),
        };
        reads_reply(&rt, head, Ok(reported));
        for size in 0..head.len() {
            reads_reply(&rt, &head[..size], Err(HeadFault::NotYet));
        }
    }
    for bytes in NO_REPLIES {
        reads_reply(&rt, bytes, Err(HeadFault::Bad));
    }
}

/// The codes of replies, whether the connection ends, and the lines that are written.
const WRITTEN: &[(u16, bool, &[u8], &[u8])] = &[
    (
        200,
        false,
        b"HTTP/1.1 200 OK\r\nContent-Type: application/x-ofx\r\n",
        b"keep-alive",
    ),
    (
        400,
        true,
        b"HTTP/1.1 400 Bad Request\r\nContent-Type: text/plain\r\n",
        b"close",
    ),
    (
        404,
        true,
        b"HTTP/1.1 404 Not Found\r\nContent-Type: text/plain\r\n",
        b"close",
    ),
    (
        405,
        true,
        b"HTTP/1.1 405 Method Not Allowed\r\nAllow: POST\r\nContent-Type: text/plain\r\n",
        b"close",
    ),
    (
        411,
        true,
        b"HTTP/1.1 411 Length Required\r\nContent-Type: text/plain\r\n",
        b"close",
    ),
    (
        413,
        true,
        b"HTTP/1.1 413 Payload Too Large\r\nContent-Type: text/plain\r\n",
        b"close",
    ),
    (
        500,
        true,
        b"HTTP/1.1 500 Internal Server Error\r\nContent-Type: text/plain\r\n",
        b"close",
    ),
    (
        503,
        false,
        b"HTTP/1.1 503 Service Unavailable\r\nContent-Type: text/plain\r\n",
        b"keep-alive",
    ),
];

/// The head of a reply of 1,234 bytes is written so, after what is there there, and is read as what was written.
fn check_head(rt: &impl Abort, alloc: Global, code: u16, last: bool, text: &[u8])
    requires { IsReplyCode code }
{
    let mut written = joined(rt, alloc, &[b"before"]);
    write_head(code, 1234, last, &mut written).expect(rt, "room");
    let wanted = joined(rt, alloc, &[b"before", text]);
    assert!(rt; written.as_slice() == wanted.as_slice());
    let reported = ReplyHead {
        code,
        length: Some(1234),
        size: text.len(),
    };
    reads_reply(rt, text, Ok(reported));
}

#[test]
fn the_heads_of_replies_are_written(rt: HostRuntime) {
    for (code, last, first, end) in WRITTEN {
        let text = joined(
            &rt,
            rt.alloc(),
            &[
                first,
                b"Content-Length: 1234\r\nConnection: ",
                end,
                b"\r\n\r\n",
            ],
        );
        match *code {
            200 | 400 | 404 | 405 | 411 | 413 | 500 | 503 => {
                check_head(&rt, rt.alloc(), *code, *last, &text);
            }
            _ => panic!(rt; "a code of a reply"),
        }
    }
}

#[test]
fn the_head_of_a_post_is_written(rt: HostRuntime) {
    let mut written = Vec::with_capacity(rt.alloc(), HEAD_ROOM).expect(&rt, "room");
    write_post(u64::MAX, &mut written).expect(&rt, "room");
    let text = b"\
        POST /ofx HTTP/1.1\r\n\
        Host: localhost\r\n\
        Content-Type: application/x-ofx\r\n\
        Content-Length: 18446744073709551615\r\n\
        \r\n";
    assert!(rt; written.as_slice() == text.as_slice());
}
