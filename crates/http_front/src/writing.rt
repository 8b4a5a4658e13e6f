//! The heads that are written: a reply's, and that of the client's request.

ghost use Rattle.std.specs.Prelude.{◌≡◌, ◌+◌, ◌≤◌, ◌++◌, IsOk, OnOk, OnErr, length, vec_len, vec_capacity};
ghost use Rattle.http_front.specs.HeadText as text;
ghost use Rattle.http_front.specs.HeadText.{IsReplyCode, field_line, status_line, allowed, reply_head, post_head};

use http::StatusCode;
use itoa::Buffer;
use ofx_types::OutOfMemory;

/// More bytes than a written head has. Where there is room for so many, writing one takes no memory.
pub const HEAD_ROOM: usize = 512;

/// Appends the head of a reply: its code, the length of its body, and whether the connection ends after it.
///
/// After `OutOfMemory` nothing is appended. Where `out` has room for 512 bytes, no memory is taken.
pub fn write_head(code: u16, length: u64, last: bool, out: &mut Vec<u8>) -> Result<(), OutOfMemory>
    requires { IsReplyCode code }
    ensures written { OnOk result (out.new.items ≡ out.old.items ++ reply_head code length last) }
    ensures refused { OnErr result (out.new.items ≡ out.old.items) }
    ensures room { vec_len out.old + 512 ≤ vec_capacity out.old → IsOk result }
{
    out.reserve(HEAD_ROOM)?;
    append_head(code, length, last, out);
    Ok(())
}

/// Appends the head of the client's request, of a body of this length.
///
/// After `OutOfMemory` nothing is appended. Where `out` has room for 512 bytes, no memory is taken.
pub fn write_post(length: u64, out: &mut Vec<u8>) -> Result<(), OutOfMemory>
    ensures written { OnOk result (out.new.items ≡ out.old.items ++ post_head length) }
    ensures refused { OnErr result (out.new.items ≡ out.old.items) }
    ensures room { vec_len out.old + 512 ≤ vec_capacity out.old → IsOk result }
{
    out.reserve(HEAD_ROOM)?;
    append_post(length, out);
    Ok(())
}

/// Appends the head of a reply, for which there is room.
fn append_head(code: u16, length: u64, last: bool, out: &mut Vec<u8>)
    requires is_code { IsReplyCode code }
    requires room { vec_len out.old + 512 ≤ vec_capacity out.old }
    ensures { out.new.items ≡ out.old.items ++ reply_head code length last }
{
    let mut digits = Buffer::new();
    append_status_line(code, out);
    append_allowed(code, out);
    append_field(b"Content-Type", media_type(code), out);
    append_field(b"Content-Length", digits.format(length).as_bytes(), out);
    append_field(b"Connection", ending(last), out);
    append(b"\r\n", out);
}

/// Appends the first line of a reply, for which there is room.
fn append_status_line(code: u16, out: &mut Vec<u8>)
    requires is_code { IsReplyCode code }
    requires room { vec_len out.old + 100 ≤ vec_capacity out.old }
    ensures items { out.new.items ≡ out.old.items ++ status_line code }
    ensures len { vec_len out.new ≤ vec_len out.old + 100 }
    ensures capacity { vec_capacity out.old ≤ vec_capacity out.new }
{
    let mut digits = Buffer::new();
    append(b"HTTP/1.1 ", out);
    append(digits.format(code).as_bytes(), out);
    append(b" ", out);
    append(phrase(code).as_bytes(), out);
    append(b"\r\n", out);
}

/// Appends the methods that are allowed, where the code wants them. There is room.
fn append_allowed(code: u16, out: &mut Vec<u8>)
    requires { vec_len out.old + 13 ≤ vec_capacity out.old }
    ensures items { out.new.items ≡ out.old.items ++ allowed code }
    ensures len { vec_len out.new ≤ vec_len out.old + 13 }
    ensures capacity { vec_capacity out.old ≤ vec_capacity out.new }
{
    if code == 405 {
        append_field(b"Allow", b"POST", out);
    }
}

/// Appends the head of the client's request, for which there is room.
fn append_post(length: u64, out: &mut Vec<u8>)
    requires room { vec_len out.old + 512 ≤ vec_capacity out.old }
    ensures { out.new.items ≡ out.old.items ++ post_head length }
{
    let mut digits = Buffer::new();
    append(b"POST /ofx HTTP/1.1\r\n", out);
    append_field(b"Host", b"localhost", out);
    append_field(b"Content-Type", b"application/x-ofx", out);
    append_field(b"Content-Length", digits.format(length).as_bytes(), out);
    append(b"\r\n", out);
}

/// The phrase of a reply's code.
fn phrase(code: u16) -> &'static str
    requires { IsReplyCode code }
    ensures phrase { result.now ≡ text.phrase code }
    ensures short { length result.now ≤ 40 }
{
    match StatusCode::from_u16(code) {
        Ok(status) => status.canonical_reason().unwrap_or(""),
        Err(_) => "",
    }
}

/// The media type of a reply's body.
fn media_type(code: u16) -> &'static [u8]
    ensures type_ { result.now ≡ text.media_type code }
    ensures short { length result.now ≤ 40 }
{
    if code == 200 {
        b"application/x-ofx"
    } else {
        b"text/plain"
    }
}

/// What the Connection field says.
fn ending(last: bool) -> &'static [u8]
    ensures word { result.now ≡ text.ending last }
    ensures short { length result.now ≤ 40 }
{
    if last { b"close" } else { b"keep-alive" }
}

/// Appends a field's line, for which there is room.
fn append_field(name: &[u8], value: &[u8], out: &mut Vec<u8>)
    requires { vec_len out.old + length name.now + length value.now + 4 ≤ vec_capacity out.old }
    ensures items { out.new.items ≡ out.old.items ++ field_line name.now value.now }
    ensures len { vec_len out.new ≡ vec_len out.old + length name.now + length value.now + 4 }
    ensures capacity { vec_capacity out.old ≤ vec_capacity out.new }
{
    append(name, out);
    append(b": ", out);
    append(value, out);
    append(b"\r\n", out);
}

/// Appends bytes for which there is room.
fn append(bytes: &[u8], out: &mut Vec<u8>)
    requires { vec_len out.old + length bytes.now ≤ vec_capacity out.old }
    ensures items { out.new.items ≡ out.old.items ++ bytes.now }
    ensures len { vec_len out.new ≡ vec_len out.old + length bytes.now }
    ensures capacity { vec_capacity out.old ≤ vec_capacity out.new }
{
    if out.extend_from_slice(bytes).is_err() {
        unreachable!();
    }
}
