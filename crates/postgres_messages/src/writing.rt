//! The messages of a client, written.

ghost use Rattle.std.specs.Prelude.{◌≡◌, ◌++◌, ◌&&◌, nat_lt, length, map, option_to_list, OnOk};
ghost use Rattle.std.specs.List.{flat_map, list_all};
ghost use Rattle.postgres_messages.specs.Fields.{u16_bytes, u32_bytes, text_bytes};
ghost use Rattle.postgres_messages.specs.Requests.{setting_bytes, session_bytes, startup_bytes, sign_on_bytes, parse_bytes, sized_bytes, bind_bytes, execute_bytes, array_head, array_bytes, request_body, request_kind, with_kind, request_bytes, is_sized, has_form, is_within, is_writable};
ghost use Rattle.postgres_messages.specs.Requests as requests;
ghost use Rattle.postgres_messages.specs.Writes.{Puts, request_of};

use crate::fields::zero_in;
use crate::reading::MAX_LENGTH;
use crate::request::{FrontendMessage, WriteFault};
use std::alloc::{AllocError, Global};

/// The version 3.0 of the protocol.
const VERSION: u32 = 196_608;

/// Appends a message.
///
/// - `Unwritable` exactly where a text has a zero byte, the message would be longer than 64 MiB, or it has 65,536 values or types
///   or more.
/// - `OutOfMemory`.
///
/// After a refusal the bytes that were there are still the first.
///
/// ```rust
/// use postgres_messages::{FrontendMessage, put_message};
///
/// let mut bytes = Vec::new(rt.alloc());
/// let bind = FrontendMessage::Bind {
///     name: b"last",
///     values: &[b"\0\0\0\x01"],
/// };
/// put_message(rt.alloc(), bind, &mut bytes).expect(&rt, "room");
/// put_message(rt.alloc(), FrontendMessage::Sync, &mut bytes).expect(&rt, "room");
/// let wanted = b"B\0\0\0\x1c\0last\0\0\x01\0\x01\0\x01\0\0\0\x04\0\0\0\x01\0\x01\0\x01S\0\0\0\x04";
/// assert!(rt; bytes.as_slice() == wanted.as_slice());
/// ```
pub fn put_message(
    alloc: Global,
    message: FrontendMessage,
    out: &mut Vec<u8>,
) -> Result<(), WriteFault>
    ensures { let r = request_of message.entry in Puts (is_writable r) (request_bytes r) out.old.items out.new.items result }
{
    let mut body = Vec::new(alloc);
    put_body(message, &mut body)?;
    put_framed(kind_of(message), &body, out)
}

/// The kind of a message. The first one has none.
fn kind_of(message: FrontendMessage) -> Option<u8>
    ensures { result ≡ request_kind (request_of message.entry) }
{
    match message {
        FrontendMessage::Startup { .. } => None,
        FrontendMessage::SignOn(_) | FrontendMessage::Reply(_) => Some(b'p'),
        FrontendMessage::Parse { .. } => Some(b'P'),
        FrontendMessage::Bind { .. } => Some(b'B'),
        FrontendMessage::Execute => Some(b'E'),
        FrontendMessage::Sync => Some(b'S'),
        FrontendMessage::Terminate => Some(b'X'),
    }
}

/// Appends a message of this kind and body.
fn put_framed(kind: Option<u8>, body: &[u8], out: &mut Vec<u8>) -> Result<(), WriteFault>
    ensures { Puts (is_within body.now) (with_kind kind body.now) out.old.items out.new.items result }
{
    if body.len() + 4 > MAX_LENGTH as usize {
        return Err(WriteFault::Unwritable);
    }
    push_kind(kind, out)?;
    out.extend_from_slice(&(body.len() as u32 + 4).to_be_bytes())?;
    out.extend_from_slice(body)?;
    Ok(())
}

fn push_kind(kind: Option<u8>, out: &mut Vec<u8>) -> Result<(), AllocError>
    ensures { OnOk result (out.new.items ≡ out.old.items ++ option_to_list kind) }
{
    if let Some(byte) = kind {
        out.push(byte)?;
    }
    Ok(())
}

/// Appends the body of a message.
fn put_body(message: FrontendMessage, out: &mut Vec<u8>) -> Result<(), WriteFault>
    ensures { let r = request_of message.entry in Puts (has_form r) (request_body r) out.old.items out.new.items result }
{
    match message {
        FrontendMessage::Startup { user, database } => put_startup(user, database, out),
        FrontendMessage::SignOn(first) => put_sign_on(first, out),
        FrontendMessage::Reply(last) => {
            out.extend_from_slice(last)?;
            Ok(())
        }
        FrontendMessage::Parse { name, sql, types } => put_parse(name, sql, types, out),
        FrontendMessage::Bind { name, values } => put_bind(name, values, out),
        FrontendMessage::Execute => {
            out.extend_from_slice(&[0, 0, 0, 0, 0])?;
            Ok(())
        }
        FrontendMessage::Sync | FrontendMessage::Terminate => Ok(()),
    }
}

fn put_startup(user: &[u8], database: &[u8], out: &mut Vec<u8>) -> Result<(), WriteFault>
    ensures { Puts (requests.is_text user.now && requests.is_text database.now) (startup_bytes user.now database.now) out.old.items out.new.items result }
{
    if !is_text(user) || !is_text(database) {
        return Err(WriteFault::Unwritable);
    }
    out.extend_from_slice(&VERSION.to_be_bytes())?;
    push_setting(b"user", user, out)?;
    push_setting(b"database", database, out)?;
    push_session(out)?;
    out.extend_from_slice(&[0])?;
    Ok(())
}

/// Appends what a session sets for itself, beside its user and database.
fn push_session(out: &mut Vec<u8>) -> Result<(), AllocError>
    ensures { OnOk result (out.new.items ≡ out.old.items ++ session_bytes) }
{
    push_setting(b"application_name", b"ofxbank", out)?;
    push_setting(b"default_transaction_isolation", b"read committed", out)?;
    push_setting(b"client_min_messages", b"notice", out)?;
    push_setting(b"synchronous_commit", b"on", out)?;
    Ok(())
}

fn put_sign_on(first: &[u8], out: &mut Vec<u8>) -> Result<(), WriteFault>
    ensures { Puts (is_sized first.now) (sign_on_bytes first.now) out.old.items out.new.items result }
{
    push_text(b"SCRAM-SHA-256", out)?;
    put_sized(first, out)
}

fn put_parse(name: &[u8], sql: &[u8], types: &[u32], out: &mut Vec<u8>) -> Result<(), WriteFault>
    ensures { Puts (requests.is_text name.now && requests.is_text sql.now && nat_lt (length types.now) 65536) (parse_bytes name.now sql.now types.now) out.old.items out.new.items result }
{
    if !is_text(name) || !is_text(sql) || types.len() > u16::MAX as usize {
        return Err(WriteFault::Unwritable);
    }
    push_text(name, out)?;
    push_text(sql, out)?;
    push_u16(types.len() as u16, out)?;
    push_types(types, out)?;
    Ok(())
}

fn push_types(types: &[u32], out: &mut Vec<u8>) -> Result<(), AllocError>
    ensures { OnOk result (out.new.items ≡ out.old.items ++ flat_map u32_bytes types.now) }
{
    for number in types {
        out.extend_from_slice(&number.to_be_bytes())?;
    }
    Ok(())
}

fn put_bind(name: &[u8], values: &[&[u8]], out: &mut Vec<u8>) -> Result<(), WriteFault>
    ensures { let vs = map (λ v. v.now) values.now in Puts (requests.is_text name.now && nat_lt (length vs) 65536 && list_all is_sized vs) (bind_bytes name.now vs) out.old.items out.new.items result }
{
    if !is_text(name) || values.len() > u16::MAX as usize {
        return Err(WriteFault::Unwritable);
    }
    out.extend_from_slice(&[0])?;
    push_text(name, out)?;
    push_u16(1, out)?;
    push_u16(1, out)?;
    push_u16(values.len() as u16, out)?;
    put_values(values, out)?;
    push_u16(1, out)?;
    push_u16(1, out)?;
    Ok(())
}

/// Appends values, each with its size.
fn put_values(values: &[&[u8]], out: &mut Vec<u8>) -> Result<(), WriteFault>
    ensures { let vs = map (λ v. v.now) values.now in Puts (list_all is_sized vs) (flat_map sized_bytes vs) out.old.items out.new.items result }
{
    for value in values {
        put_sized(value, out)?;
    }
    Ok(())
}

fn put_sized(value: &[u8], out: &mut Vec<u8>) -> Result<(), WriteFault>
    ensures { Puts (is_sized value.now) (sized_bytes value.now) out.old.items out.new.items result }
{
    if value.len() >= u32::MAX as usize {
        return Err(WriteFault::Unwritable);
    }
    out.extend_from_slice(&(value.len() as u32).to_be_bytes())?;
    out.extend_from_slice(value)?;
    Ok(())
}

/// Appends records as the value that is an array of them.
///
/// - `Unwritable` exactly where a record has 2^32 - 1 bytes or more, or there are 2^32 records or more.
/// - `OutOfMemory`.
pub fn put_array(records: &[&[u8]], out: &mut Vec<u8>) -> Result<(), WriteFault>
    ensures { let rs = map (λ r. r.now) records.now in Puts (nat_lt (length rs) 4294967296 && list_all is_sized rs) (array_bytes rs) out.old.items out.new.items result }
{
    if records.len() > u32::MAX as usize {
        return Err(WriteFault::Unwritable);
    }
    push_array_head(records.len() as u32, out)?;
    put_values(records, out)
}

/// Appends what precedes the records of an array.
#[tactic(auto, unfolding(crate::specs::Requests::array_head))]
fn push_array_head(count: u32, out: &mut Vec<u8>) -> Result<(), AllocError>
    ensures { OnOk result (out.new.items ≡ out.old.items ++ array_head count) }
{
    push_u32(1, out)?;
    push_u32(0, out)?;
    push_u32(17, out)?;
    push_u32(count, out)?;
    push_u32(1, out)?;
    Ok(())
}

fn push_u16(number: u16, out: &mut Vec<u8>) -> Result<(), AllocError>
    ensures { OnOk result (out.new.items ≡ out.old.items ++ u16_bytes number) }
{
    out.extend_from_slice(&number.to_be_bytes())
}

fn push_u32(number: u32, out: &mut Vec<u8>) -> Result<(), AllocError>
    ensures { OnOk result (out.new.items ≡ out.old.items ++ u32_bytes number) }
{
    out.extend_from_slice(&number.to_be_bytes())
}

fn push_text(text: &[u8], out: &mut Vec<u8>) -> Result<(), AllocError>
    ensures { OnOk result (out.new.items ≡ out.old.items ++ text_bytes text.now) }
{
    out.extend_from_slice(text)?;
    out.push(0)?;
    Ok(())
}

#[tactic(auto, unfolding(crate::specs::Requests::setting_bytes))]
fn push_setting(name: &[u8], value: &[u8], out: &mut Vec<u8>) -> Result<(), AllocError>
    ensures { OnOk result (out.new.items ≡ out.old.items ++ setting_bytes name.now value.now) }
{
    push_text(name, out)?;
    push_text(value, out)
}

/// Whether no byte is zero.
fn is_text(text: &[u8]) -> bool
    ensures { result ≡ requests.is_text text.now }
{
    zero_in(text).is_none()
}
