//! Numbers and flags: big-endian, with a sign in two's complement.

ghost use Rattle.std.specs.Prelude.{◌≡◌, ◌≢◌, ◌+◌, ◌<◌, ◌≤◌, ◌++◌, ◌∷◌, [], length, IfOk, OnOk};
ghost use Rattle.std.specs.Io.{StartsWith};
ghost use Rattle.record_fields.specs.declared.fault.RecordFault.{RecordFault};
ghost use Rattle.record_fields.specs.Answers.{ReadsField, ReadsFieldBy};
ghost use Rattle.record_fields.specs.FieldCoding.{u16_bytes, u32_bytes, u64_bytes, i32_bytes, i64_bytes, flag_bytes};
ghost use Rattle.record_fields.specs.FieldReading.{bytes_at, u8_at, u16_at, u32_at, u64_at, i32_at, i64_at, flag_at};

use crate::fault::RecordFault;
use ofx_types::OutOfMemory;

/// This many bytes from `start` on and the index after them, in a field that begins at `at`.
#[tactic(auto, unfolding(crate::specs::FieldReading::bytes_at))]
pub fn get_bytes(
    rec: &[u8],
    at: usize,
    start: usize,
    size: usize,
) -> Result<(&[u8], usize), RecordFault>
    requires { start ≤ length rec.now }
    ensures gives { ReadsFieldBy (λ found. (found.0.now, found.1)) result (bytes_at size rec.now at start) }
    ensures within { IfOk result (λ found. found.1 ≤ length rec.now) }
    ensures sized { IfOk result (λ found. length found.0.now ≡ size) }
    // It takes no memory.
    ensures sure { result ≢ Err RecordFault.OutOfMemory }
{
    if rec.len() - start < size {
        return Err(RecordFault::Bad(at as u64));
    }
    let next = start + size;
    Ok((&rec[start..next], next))
}

/// The byte at `at`. `Bad(at)` at the record's end.
#[tactic(auto, unfolding(crate::specs::FieldReading::u8_at))]
pub fn get_u8(rec: &[u8], at: usize) -> Result<(u8, usize), RecordFault>
    requires { at ≤ length rec.now }
    ensures gives { ReadsField result (u8_at rec.now at) }
    ensures within { IfOk result (λ found. found.1 ≤ length rec.now) }
    // It takes no memory.
    ensures sure { result ≢ Err RecordFault.OutOfMemory }
{
    if at == rec.len() {
        return Err(RecordFault::Bad(at as u64));
    }
    Ok((rec[at], at + 1))
}

/// The number of two bytes at `at`. `Bad(at)` where the record ends within it.
#[tactic(auto, unfolding(crate::specs::FieldReading::number_at))]
pub fn get_u16(rec: &[u8], at: usize) -> Result<(u16, usize), RecordFault>
    requires { at ≤ length rec.now }
    ensures gives { ReadsField result (u16_at rec.now at) }
    ensures within { IfOk result (λ found. found.1 ≤ length rec.now) }
    // It takes no memory.
    ensures sure { result ≢ Err RecordFault.OutOfMemory }
{
    let (bytes, next) = get_bytes(rec, at, at, 2)?;
    Ok((u16::from_be_bytes([bytes[0], bytes[1]]), next))
}

/// The number of four bytes at `at`. `Bad(at)` where the record ends within it.
#[tactic(auto, unfolding(crate::specs::FieldReading::number_at))]
pub fn get_u32(rec: &[u8], at: usize) -> Result<(u32, usize), RecordFault>
    requires { at ≤ length rec.now }
    ensures gives { ReadsField result (u32_at rec.now at) }
    ensures within { IfOk result (λ found. found.1 ≤ length rec.now) }
    // It takes no memory.
    ensures sure { result ≢ Err RecordFault.OutOfMemory }
{
    let (bytes, next) = get_bytes(rec, at, at, 4)?;
    Ok((
        u32::from_be_bytes([bytes[0], bytes[1], bytes[2], bytes[3]]),
        next,
    ))
}

/// The number of eight bytes at `at`. `Bad(at)` where the record ends within it.
#[tactic(auto, unfolding(crate::specs::FieldReading::number_at))]
pub fn get_u64(rec: &[u8], at: usize) -> Result<(u64, usize), RecordFault>
    requires { at ≤ length rec.now }
    ensures gives { ReadsField result (u64_at rec.now at) }
    ensures within { IfOk result (λ found. found.1 ≤ length rec.now) }
    // It takes no memory.
    ensures sure { result ≢ Err RecordFault.OutOfMemory }
{
    let (bytes, next) = get_bytes(rec, at, at, 8)?;
    let number = u64::from_be_bytes([
        bytes[0], bytes[1], bytes[2], bytes[3], bytes[4], bytes[5], bytes[6], bytes[7],
    ]);
    Ok((number, next))
}

/// The number of four bytes with a sign at `at`. `Bad(at)` where the record ends within it.
#[tactic(auto, unfolding(crate::specs::FieldReading::signed_at))]
pub fn get_i32(rec: &[u8], at: usize) -> Result<(i32, usize), RecordFault>
    requires { at ≤ length rec.now }
    ensures gives { ReadsField result (i32_at rec.now at) }
    ensures within { IfOk result (λ found. found.1 ≤ length rec.now) }
    // It takes no memory.
    ensures sure { result ≢ Err RecordFault.OutOfMemory }
{
    let (number, next) = get_u32(rec, at)?;
    Ok((number.cast_signed(), next))
}

/// The number of eight bytes with a sign at `at`. `Bad(at)` where the record ends within it.
#[tactic(auto, unfolding(crate::specs::FieldReading::signed_at))]
pub fn get_i64(rec: &[u8], at: usize) -> Result<(i64, usize), RecordFault>
    requires { at ≤ length rec.now }
    ensures gives { ReadsField result (i64_at rec.now at) }
    ensures within { IfOk result (λ found. found.1 ≤ length rec.now) }
    // It takes no memory.
    ensures sure { result ≢ Err RecordFault.OutOfMemory }
{
    let (number, next) = get_u64(rec, at)?;
    Ok((number.cast_signed(), next))
}

/// The flag at `at`, 0 or 1. `Bad(at)` at any other byte and at the record's end.
#[tactic(auto, unfolding(crate::specs::FieldReading::flag_at))]
pub fn get_flag(rec: &[u8], at: usize) -> Result<(bool, usize), RecordFault>
    requires { at ≤ length rec.now }
    ensures gives { ReadsField result (flag_at rec.now at) }
    ensures within { IfOk result (λ found. found.1 ≤ length rec.now) }
    // It takes no memory.
    ensures sure { result ≢ Err RecordFault.OutOfMemory }
{
    let (flag, next) = get_u8(rec, at)?;
    match flag {
        0 => Ok((false, next)),
        1 => Ok((true, next)),
        _ => Err(RecordFault::Bad(at as u64)),
    }
}

/// Appends a byte.
pub fn put_u8(value: &u8, out: &mut Vec<u8>) -> Result<(), OutOfMemory>
    ensures bytes { OnOk result (out.new.items ≡ out.old.items ++ value.now ∷ []) }
    ensures kept { StartsWith out.new.items out.old.items }
{
    out.push(*value)?;
    Ok(())
}

/// Appends the two bytes of a number.
pub fn put_u16(value: &u16, out: &mut Vec<u8>) -> Result<(), OutOfMemory>
    ensures bytes { OnOk result (out.new.items ≡ out.old.items ++ u16_bytes value.now) }
    ensures kept { StartsWith out.new.items out.old.items }
{
    out.extend_from_slice(&value.to_be_bytes())?;
    Ok(())
}

/// Appends the four bytes of a number.
pub fn put_u32(value: &u32, out: &mut Vec<u8>) -> Result<(), OutOfMemory>
    ensures bytes { OnOk result (out.new.items ≡ out.old.items ++ u32_bytes value.now) }
    ensures kept { StartsWith out.new.items out.old.items }
{
    out.extend_from_slice(&value.to_be_bytes())?;
    Ok(())
}

/// Appends the eight bytes of a number.
pub fn put_u64(value: &u64, out: &mut Vec<u8>) -> Result<(), OutOfMemory>
    ensures bytes { OnOk result (out.new.items ≡ out.old.items ++ u64_bytes value.now) }
    ensures kept { StartsWith out.new.items out.old.items }
{
    out.extend_from_slice(&value.to_be_bytes())?;
    Ok(())
}

/// Appends the four bytes of a number with a sign.
pub fn put_i32(value: &i32, out: &mut Vec<u8>) -> Result<(), OutOfMemory>
    ensures bytes { OnOk result (out.new.items ≡ out.old.items ++ i32_bytes value.now) }
    ensures kept { StartsWith out.new.items out.old.items }
{
    out.extend_from_slice(&value.to_be_bytes())?;
    Ok(())
}

/// Appends the eight bytes of a number with a sign.
pub fn put_i64(value: &i64, out: &mut Vec<u8>) -> Result<(), OutOfMemory>
    ensures bytes { OnOk result (out.new.items ≡ out.old.items ++ i64_bytes value.now) }
    ensures kept { StartsWith out.new.items out.old.items }
{
    out.extend_from_slice(&value.to_be_bytes())?;
    Ok(())
}

/// Appends a flag: 0 or 1.
pub fn put_flag(value: &bool, out: &mut Vec<u8>) -> Result<(), OutOfMemory>
    ensures bytes { OnOk result (out.new.items ≡ out.old.items ++ flag_bytes value.now) }
    ensures kept { StartsWith out.new.items out.old.items }
{
    put_u8(&u8::from(*value), out)
}
