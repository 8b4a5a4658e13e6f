//! Uids: a length in one byte, and as many bytes.

ghost use Rattle.std.specs.Prelude.{◌≡◌, ◌≢◌, ◌≤◌, ◌++◌, true, false, length, codes, IfOk, OnOk, MatchOption};
ghost use Rattle.std.specs.Io.{StartsWith};
ghost use Rattle.record_fields.specs.declared.fault.RecordFault.{RecordFault};
ghost use Rattle.record_fields.specs.Answers.{ReadsField};
ghost use Rattle.record_fields.specs.FieldCoding.{uid_bytes, file_uid_bytes};
ghost use Rattle.record_fields.specs.FieldReading.{is_trnuid, is_file_uid, trnuid_at, given_uid_at, file_uid_at};

use crate::fault::RecordFault;
use crate::number::{get_bytes, get_u8, put_u8};
use ofx_types::{FileUid, OutOfMemory, TrnUid, trim};

/// The uid of the bank's own deeds.
const NO_CLIENT: &[u8; 1] = b"0";

/// The uid that the bytes are as they are.
fn trnuid_of(bytes: &[u8]) -> Option<TrnUid>
    ensures { MatchOption result (is_trnuid bytes.now ≡ false) (λ uid. (is_trnuid bytes.now ≡ true) × (uid ≡ bytes.now)) }
{
    if trim(bytes) != bytes {
        return None;
    }
    match TrnUid::new(bytes) {
        Ok(uid) => Some(uid),
        Err(_) => None,
    }
}

/// The uid of a transaction at `at`.
///
/// `Bad(at)` where the record ends within it, and where its bytes are no uid as they are.
#[tactic(auto, unfolding(crate::specs::FieldReading::trnuid_at))]
pub fn get_trnuid(rec: &[u8], at: usize) -> Result<(TrnUid, usize), RecordFault>
    requires { at ≤ length rec.now }
    ensures gives { ReadsField result (trnuid_at rec.now at) }
    ensures within { IfOk result (λ found. found.1 ≤ length rec.now) }
    // It takes no memory.
    ensures sure { result ≢ Err RecordFault.OutOfMemory }
{
    let (size, start) = get_u8(rec, at)?;
    let (bytes, next) = get_bytes(rec, at, start, usize::from(size))?;
    match trnuid_of(bytes) {
        Some(uid) => Ok((uid, next)),
        None => Err(RecordFault::Bad(at as u64)),
    }
}

/// A uid that a client gave, which isn't `0`.
#[tactic(auto, unfolding(crate::specs::FieldReading::given_uid_at))]
pub fn get_given_uid(rec: &[u8], at: usize) -> Result<(TrnUid, usize), RecordFault>
    requires { at ≤ length rec.now }
    ensures gives { ReadsField result (given_uid_at rec.now at) }
    ensures within { IfOk result (λ found. found.1 ≤ length rec.now) }
{
    let (uid, next) = get_trnuid(rec, at)?;
    if uid.as_bytes() == NO_CLIENT.as_slice() {
        return Err(RecordFault::Bad(at as u64));
    }
    Ok((uid, next))
}

/// The uid that the bytes are as they are.
fn file_uid_of(bytes: &[u8]) -> Option<FileUid>
    ensures { MatchOption result (is_file_uid bytes.now ≡ false) (λ uid. (is_file_uid bytes.now ≡ true) × (uid ≡ bytes.now)) }
{
    if trim(bytes) != bytes {
        return None;
    }
    match FileUid::new(bytes) {
        Ok(uid) => Some(uid),
        Err(_) => None,
    }
}

/// The uid of a file at `at`, or none.
///
/// `Bad(at)` where the record ends within it, and where its bytes are no uid as they are.
#[tactic(auto, unfolding(crate::specs::FieldReading::file_uid_at))]
pub fn get_file_uid(rec: &[u8], at: usize) -> Result<(Option<FileUid>, usize), RecordFault>
    requires { at ≤ length rec.now }
    ensures gives { ReadsField result (file_uid_at rec.now at) }
    ensures within { IfOk result (λ found. found.1 ≤ length rec.now) }
    // It takes no memory.
    ensures sure { result ≢ Err RecordFault.OutOfMemory }
{
    let (size, start) = get_u8(rec, at)?;
    let (bytes, next) = get_bytes(rec, at, start, usize::from(size))?;
    if size == 0 {
        return Ok((None, next));
    }
    match file_uid_of(bytes) {
        Some(uid) => Ok((Some(uid), next)),
        None => Err(RecordFault::Bad(at as u64)),
    }
}

/// Appends the uid of a transaction.
#[tactic(auto, unfolding(crate::specs::FieldCoding::uid_bytes))]
pub fn put_trnuid(value: &TrnUid, out: &mut Vec<u8>) -> Result<(), OutOfMemory>
    ensures bytes { OnOk result (out.new.items ≡ out.old.items ++ uid_bytes value.now) }
    ensures kept { StartsWith out.new.items out.old.items }
{
    let bytes = value.as_bytes();
    put_u8(&(bytes.len() as u8), out)?;
    out.extend_from_slice(bytes)?;
    Ok(())
}

/// Appends the uid of a file, or that there is none.
#[tactic(auto, unfolding(crate::specs::FieldCoding::uid_bytes))]
pub fn put_file_uid(value: &Option<FileUid>, out: &mut Vec<u8>) -> Result<(), OutOfMemory>
    ensures bytes { OnOk result (out.new.items ≡ out.old.items ++ file_uid_bytes value.now) }
    ensures kept { StartsWith out.new.items out.old.items }
{
    match value {
        None => put_u8(&0, out),
        Some(uid) => {
            let bytes = uid.as_bytes();
            put_u8(&(bytes.len() as u8), out)?;
            out.extend_from_slice(bytes)?;
            Ok(())
        }
    }
}
