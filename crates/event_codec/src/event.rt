//! Events and their moments as records.

ghost use Rattle.std.specs.Prelude.{◌≡◌, ◌≢◌, ◌≤◌, ◌++◌, ◌⊎◌, [], length, IfOk, IfErr, OnOk, IsErrAnd};
ghost use Rattle.std.specs.Io.{StartsWith};
ghost use Rattle.ofx_types.specs.Calendar.{IsMoment};
ghost use Rattle.ofx_types.specs.declared.number.Moment.{Moment};
ghost use Rattle.bank_model.specs.Sound.{IsSound, IsTextWithin};
ghost use Rattle.bank_model.specs.declared.event.Event.{Event};
ghost use Rattle.record_fields.specs.declared.fault.RecordFault.{RecordFault};
ghost use Rattle.record_fields.specs.Answers.{ReadsField, ReadsRecord};
ghost use Rattle.record_fields.specs.FieldCoding.{u32_bytes, u64_bytes, text_bytes};
ghost use Rattle.event_codec.specs.Coding.{kind_of_event, file_bytes, event_bytes};
ghost use Rattle.bank_model.specs.Events.{without_signon};
ghost use Rattle.event_codec.specs.Reading.{IsRecordFault, version_at, file_event_at, post_at, spawn_at, letter_at, event_of, kind_at, after_version, record_read};
ghost use Rattle.event_codec.specs.Records.{Codes, IsWritten, IsWithinBounds, IsShort, IsTyped};

use crate::ask::{get_asks, put_asks};
use bank_model::Event;
use ofx_types::{Moment, OutOfMemory, RequestFile, Text, UserId};
use record_fields::{
    RecordFault, get_file_uid, get_filled_text, get_id, get_moment, get_u8, get_u16, get_u32,
    put_file_uid, put_i64, put_text, put_u8, put_u16, put_u32, put_u64,
};
use std::alloc::Global;

/// The record of an event at a moment of the years 1900 to 9999.
///
/// ```rust
/// use bank_model::Event;
/// use event_codec::{RecordFault, read_event, write_event};
/// use ofx_types::Moment;
///
/// let alloc = rt.alloc();
/// // The transfer 1 is posted at noon of 31 January 2024.
/// let noon = Moment(1_706_702_400);
/// let record = write_event(alloc, &Event::Post(1), noon).expect(&rt, "room");
/// let Ok((Event::Post(1), at)) = read_event(alloc, &record) else {
///     panic!(rt; "the same event");
/// };
/// assert!(rt; at == noon);
/// // The first byte is the version of the coding.
/// assert!(rt; read_event(alloc, b"\x02").err() == Some(RecordFault::Version(2)));
/// ```
#[tactic(auto, unfolding(crate::specs::Coding::coded))]
pub fn write_event(alloc: Global, event: &Event, at: Moment) -> Result<Vec<u8>, OutOfMemory>
    requires moment { IsMoment at.0 }
    requires within { IsWithinBounds event.now }
    ensures { IfOk result (λ rec. IsWritten rec.items at event.now) }
{
    let mut out = Vec::new(alloc);
    put_u8(&1, &mut out)?;
    put_u8(&kind_of(event), &mut out)?;
    put_i64(&at.0, &mut out)?;
    put_event(event, &mut out)?;
    Ok(out)
}

fn kind_of(event: &Event) -> u8
    ensures { result ≡ kind_of_event event.now }
{
    match event {
        Event::File(_, _) => 1,
        Event::Post(_) => 2,
        Event::Spawn(_, _) => 3,
        Event::Letter(_, _, _) => 4,
    }
}

#[tactic(auto, unfolding(crate::specs::Coding::event_bytes))]
fn put_event(event: &Event, out: &mut Vec<u8>) -> Result<(), OutOfMemory>
    requires { IsWithinBounds event.now }
    ensures bytes { OnOk result (out.new.items ≡ out.old.items ++ event_bytes event.now) }
    ensures typed { OnOk result (IsTyped event.now) }
    ensures kept { StartsWith out.new.items out.old.items }
{
    match event {
        Event::File(user, file) => put_file_of(*user, file, out),
        Event::Post(id) => put_u64(id, out),
        Event::Spawn(model, offset) => put_spawn(*model, *offset, out),
        Event::Letter(user, subject, body) => put_letter(*user, subject, body, out),
    }
}

fn put_file_of(user: UserId, file: &RequestFile, out: &mut Vec<u8>) -> Result<(), OutOfMemory>
    requires { IsSound file.now }
    ensures bytes { OnOk result (out.new.items ≡ out.old.items ++ (u32_bytes user.0 ++ file_bytes file.now)) }
    ensures typed { OnOk result (IsShort user.0) }
    ensures kept { StartsWith out.new.items out.old.items }
{
    put_u32(&user.0, out)?;
    put_file(file, out)
}

fn put_spawn(model: u64, offset: u32, out: &mut Vec<u8>) -> Result<(), OutOfMemory>
    ensures bytes { OnOk result (out.new.items ≡ out.old.items ++ (u64_bytes model ++ u32_bytes offset)) }
    ensures typed { OnOk result (IsShort offset) }
    ensures kept { StartsWith out.new.items out.old.items }
{
    put_u64(&model, out)?;
    put_u32(&offset, out)
}

fn put_letter(
    user: UserId,
    subject: &Text,
    body: &Text,
    out: &mut Vec<u8>,
) -> Result<(), OutOfMemory>
    requires subject { IsTextWithin 64 subject.now }
    requires body { IsTextWithin 10000 body.now }
    ensures bytes { OnOk result (out.new.items
        ≡ out.old.items ++ (u32_bytes user.0 ++ text_bytes subject.now ++ text_bytes body.now)) }
    ensures typed { OnOk result (IsShort user.0) }
    ensures kept { StartsWith out.new.items out.old.items }
{
    put_u32(&user.0, out)?;
    put_text(subject, out)?;
    put_text(body, out)
}

#[tactic(auto, unfolding(crate::specs::Coding::file_bytes))]
fn put_file(file: &RequestFile, out: &mut Vec<u8>) -> Result<(), OutOfMemory>
    requires { IsSound file.now }
    ensures bytes { OnOk result (out.new.items ≡ out.old.items ++ file_bytes file.now) }
    ensures kept { StartsWith out.new.items out.old.items }
{
    put_u16(&file.version, out)?;
    put_file_uid(&file.older, out)?;
    put_file_uid(&file.newer, out)?;
    put_asks(&file.asks, out)
}

/// The event that a record codes, and its moment.
///
/// `Version(n)` exactly where the first byte n isn't 1. Otherwise `Bad(at)` where no event has this coding: the fields are
/// looked at from the left, and the first without a form begins at `at`, or all have one and more bytes follow from `at` on.
pub fn read_event(alloc: Global, rec: &[u8]) -> Result<(Event, Moment), RecordFault>
    // What is found is coded by the record.
    ensures found { IfOk result (λ found. Codes rec.now found.1 found.0) }
    // The name and the password of a file's user aren't in the record: they are empty.
    ensures nameless { IfOk result (λ found. found.0 ≡ without_signon found.0) }
    // What the record codes is found, unless memory is refused.
    ensures only { (at : Moment) (event : Event) → Codes rec.now at event → ReadsRecord result (Ok (without_signon event, at)) }
    // A refusal is the record's fault, or memory was refused.
    ensures fault { IfErr result (λ fault. fault ≢ RecordFault.OutOfMemory → IsRecordFault rec.now fault) }
    // A record with a fault is refused.
    ensures faulty { (fault : RecordFault) → IsRecordFault rec.now fault
        → IsErrAnd result (λ reported. (reported ≡ fault) ⊎ (reported ≡ RecordFault.OutOfMemory)) }
{
    read_record(alloc, rec)
}

#[tactic(auto, unfolding(crate::specs::Reading::record_read))]
fn read_record(alloc: Global, rec: &[u8]) -> Result<(Event, Moment), RecordFault>
    ensures { ReadsRecord result (record_read rec.now) }
{
    match rec {
        [] => Err(RecordFault::Bad(0)),
        [1, ..] => read_after_version(alloc, rec),
        [version, ..] => Err(RecordFault::Version(*version)),
    }
}

#[tactic(auto, unfolding(crate::specs::Reading::after_version))]
fn read_after_version(alloc: Global, rec: &[u8]) -> Result<(Event, Moment), RecordFault>
    requires { 1 ≤ length rec.now }
    ensures { ReadsField result (after_version rec.now) }
{
    let (kind, next) = get_kind(rec, 1)?;
    let (at, next) = get_moment(rec, next)?;
    let (event, next) = get_event(alloc, kind, rec, next)?;
    if next != rec.len() {
        return Err(RecordFault::Bad(next as u64));
    }
    Ok((event, at))
}

/// The kind of an event, from 1 to 4.
#[tactic(auto, unfolding(crate::specs::Reading::kind_at))]
fn get_kind(rec: &[u8], at: usize) -> Result<(u8, usize), RecordFault>
    requires { at ≤ length rec.now }
    ensures gives { ReadsField result (kind_at rec.now at) }
    ensures within { IfOk result (λ found. found.1 ≤ length rec.now) }
{
    let (kind, next) = get_u8(rec, at)?;
    if kind < 1 || kind > 4 {
        return Err(RecordFault::Bad(at as u64));
    }
    Ok((kind, next))
}

#[tactic(auto, unfolding(crate::specs::Reading::event_of))]
fn get_event(alloc: Global, kind: u8, rec: &[u8], at: usize) -> Result<(Event, usize), RecordFault>
    requires { at ≤ length rec.now }
    ensures gives { ReadsField result (event_of kind rec.now at) }
    ensures within { IfOk result (λ found. found.1 ≤ length rec.now) }
{
    match kind {
        1 => file_event(alloc, rec, at),
        2 => post(rec, at),
        3 => spawn(rec, at),
        _ => letter(alloc, rec, at),
    }
}

#[tactic(auto, unfolding(crate::specs::Reading::version_at))]
fn get_version(rec: &[u8], at: usize) -> Result<(u16, usize), RecordFault>
    requires { at ≤ length rec.now }
    ensures gives { ReadsField result (version_at rec.now at) }
    ensures within { IfOk result (λ found. found.1 ≤ length rec.now) }
{
    let (version, next) = get_u16(rec, at)?;
    match version {
        102 | 103 | 151 | 160 => Ok((version, next)),
        _ => Err(RecordFault::Bad(at as u64)),
    }
}

/// The text that is there for what isn't kept.
fn nothing(alloc: Global) -> Result<Text, OutOfMemory>
    ensures { IfOk result (λ text. text ≡ []) }
{
    match Text::new(alloc, b"", 0) {
        Ok(text) => Ok(text),
        Err(_) => Err(OutOfMemory),
    }
}

#[tactic(auto, unfolding(crate::specs::Reading::file_event_at))]
fn file_event(alloc: Global, rec: &[u8], at: usize) -> Result<(Event, usize), RecordFault>
    requires { at ≤ length rec.now }
    ensures gives { ReadsField result (file_event_at rec.now at) }
    ensures within { IfOk result (λ found. found.1 ≤ length rec.now) }
{
    let (user, next) = get_u32(rec, at)?;
    let (version, next) = get_version(rec, next)?;
    let (older, next) = get_file_uid(rec, next)?;
    let (newer, next) = get_file_uid(rec, next)?;
    let (asks, next) = get_asks(alloc, rec, next)?;
    let file = RequestFile {
        version,
        older,
        newer,
        user: nothing(alloc)?,
        pass: nothing(alloc)?,
        asks,
    };
    Ok((Event::File(UserId(user), file), next))
}

#[tactic(auto, unfolding(crate::specs::Reading::post_at))]
fn post(rec: &[u8], at: usize) -> Result<(Event, usize), RecordFault>
    requires { at ≤ length rec.now }
    ensures gives { ReadsField result (post_at rec.now at) }
    ensures within { IfOk result (λ found. found.1 ≤ length rec.now) }
{
    let (id, next) = get_id(rec, at)?;
    Ok((Event::Post(id), next))
}

#[tactic(auto, unfolding(crate::specs::Reading::spawn_at))]
fn spawn(rec: &[u8], at: usize) -> Result<(Event, usize), RecordFault>
    requires { at ≤ length rec.now }
    ensures gives { ReadsField result (spawn_at rec.now at) }
    ensures within { IfOk result (λ found. found.1 ≤ length rec.now) }
{
    let (model, next) = get_id(rec, at)?;
    let (offset, next) = get_u32(rec, next)?;
    Ok((Event::Spawn(model, offset), next))
}

#[tactic(auto, unfolding(crate::specs::Reading::letter_at))]
fn letter(alloc: Global, rec: &[u8], at: usize) -> Result<(Event, usize), RecordFault>
    requires { at ≤ length rec.now }
    ensures gives { ReadsField result (letter_at rec.now at) }
    ensures within { IfOk result (λ found. found.1 ≤ length rec.now) }
{
    let (user, next) = get_u32(rec, at)?;
    let (subject, next) = get_filled_text(alloc, rec, next, 64)?;
    let (body, next) = get_filled_text(alloc, rec, next, 10_000)?;
    Ok((Event::Letter(UserId(user), subject, body), next))
}
