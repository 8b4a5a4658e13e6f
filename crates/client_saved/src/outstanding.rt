//! The file that was made and is not yet answered.

ghost use Rattle.std.specs.Prelude.{◌≡◌, ◌≤◌, ◌++◌, [], length, IfOk, OnOk};
ghost use Rattle.std.specs.Option.{IfSome};
ghost use Rattle.bank_model.specs.Sound.{IsSound};
ghost use Rattle.record_fields.specs.Answers.{ReadsField};
ghost use Rattle.record_fields.specs.FieldCoding.{optional_bytes};
ghost use Rattle.record_fields.specs.FieldReading.{optional_at};
ghost use Rattle.event_codec.specs.Coding.{file_bytes};
ghost use Rattle.event_codec.specs.Reading.{version_at};
ghost use Rattle.client_saved.specs.declared.state.Outstanding.{Outstanding};
ghost use Rattle.client_saved.specs.Coding.{outstanding_bytes};
ghost use Rattle.client_saved.specs.Reading.{outstanding_at};

use crate::state::Outstanding;
use event_codec::{get_asks, put_asks};
use ofx_types::{Duplicate, OutOfMemory, RequestFile, Text};
use record_fields::{
    RecordFault, get_file_uid, get_flag, get_moment, get_u16, put_file_uid, put_i64, put_u8,
    put_u16,
};
use std::alloc::Global;

#[tactic(auto, unfolding(event_codec::specs::Reading::version_at))]
fn get_version(text: &[u8], at: usize) -> Result<(u16, usize), RecordFault>
    requires { at ≤ length text.now }
    ensures gives { ReadsField result (version_at text.now at) }
    ensures within { IfOk result (λ found. found.1 ≤ length text.now) }
{
    let (version, next) = get_u16(text, at)?;
    match version {
        102 | 103 | 151 | 160 => Ok((version, next)),
        _ => Err(RecordFault::Bad(at as u64)),
    }
}

/// The password of a file that isn't sent yet.
fn no_password(alloc: Global) -> Result<Text, OutOfMemory>
    ensures { IfOk result (λ text. text ≡ []) }
{
    match Text::new(alloc, b"", 0) {
        Ok(text) => Ok(text),
        Err(_) => Err(OutOfMemory),
    }
}

#[tactic(auto, unfolding(crate::specs::Reading::outstanding_at))]
fn get_outstanding(
    alloc: Global,
    user: &Text,
    text: &[u8],
    at: usize,
) -> Result<(Outstanding, usize), RecordFault>
    requires { at ≤ length text.now }
    ensures gives { ReadsField result (outstanding_at user.now text.now at) }
    ensures within { IfOk result (λ found. found.1 ≤ length text.now) }
{
    let (moment, next) = get_moment(text, at)?;
    let (version, next) = get_version(text, next)?;
    let (older, next) = get_file_uid(text, next)?;
    let (newer, next) = get_file_uid(text, next)?;
    let (asks, next) = get_asks(alloc, text, next)?;
    let file = RequestFile {
        version,
        older,
        newer,
        user: user.copy()?,
        pass: no_password(alloc)?,
        asks,
    };
    Ok((Outstanding { at: moment, file }, next))
}

/// The file that waits for its reply at `at`, if there is one. Its user is the client's.
#[tactic(auto, unfolding(record_fields::specs::FieldReading::optional_at))]
pub(crate) fn get_optional_outstanding(
    alloc: Global,
    user: &Text,
    text: &[u8],
    at: usize,
) -> Result<(Option<Outstanding>, usize), RecordFault>
    requires { at ≤ length text.now }
    ensures gives { ReadsField result (optional_at (outstanding_at user.now) text.now at) }
    ensures within { IfOk result (λ found. found.1 ≤ length text.now) }
{
    let (is_there, next) = get_flag(text, at)?;
    if !is_there {
        return Ok((None, next));
    }
    let (outstanding, next) = get_outstanding(alloc, user, text, next)?;
    Ok((Some(outstanding), next))
}

#[tactic(auto, unfolding(event_codec::specs::Coding::file_bytes))]
fn put_file(file: &RequestFile, out: &mut Vec<u8>) -> Result<(), OutOfMemory>
    requires { IsSound file.now }
    ensures { OnOk result (out.new.items ≡ out.old.items ++ file_bytes file.now) }
{
    put_u16(&file.version, out)?;
    put_file_uid(&file.older, out)?;
    put_file_uid(&file.newer, out)?;
    put_asks(&file.asks, out)
}

#[tactic(auto, unfolding(crate::specs::Coding::outstanding_bytes))]
fn put_outstanding(outstanding: &Outstanding, out: &mut Vec<u8>) -> Result<(), OutOfMemory>
    requires { IsSound outstanding.now.file }
    ensures { OnOk result (out.new.items ≡ out.old.items ++ outstanding_bytes outstanding.now) }
{
    put_i64(&outstanding.at.0, out)?;
    put_file(&outstanding.file, out)
}

/// Appends the file that waits for its reply, or that there is none.
pub(crate) fn put_optional_outstanding(
    outstanding: &Option<Outstanding>,
    out: &mut Vec<u8>,
) -> Result<(), OutOfMemory>
    requires { IfSome outstanding.now (λ (one : Outstanding). IsSound one.file) }
    ensures { OnOk result (out.new.items ≡ out.old.items ++ optional_bytes outstanding_bytes outstanding.now) }
{
    match outstanding {
        None => put_u8(&0, out),
        Some(outstanding) => {
            put_u8(&1, out)?;
            put_outstanding(outstanding, out)
        }
    }
}
