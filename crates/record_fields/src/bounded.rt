//! Numbers within their bounds: ids, amounts, moments and days, and how often a series recurs.

ghost use Rattle.std.specs.Prelude.{◌≡◌, ◌≢◌, ◌≤◌, length, IfOk};
ghost use Rattle.record_fields.specs.declared.fault.RecordFault.{RecordFault};
ghost use Rattle.record_fields.specs.Answers.{ReadsField};
ghost use Rattle.record_fields.specs.FieldReading.{id_at, amount_at, moment_at, day_at, count_at};

use crate::fault::RecordFault;
use crate::number::{get_i32, get_i64, get_u16, get_u64};
use ofx_types::{Cents, Day, Moment};

/// The greatest id, which has ten digits.
const MAX_ID: u64 = 9_999_999_999;

/// The greatest amount in cents, either way.
const MAX_CENTS: u64 = 9_999_999_999_999;

/// An id of at most ten digits.
#[tactic(auto, unfolding(crate::specs::FieldReading::id_at))]
pub fn get_id(rec: &[u8], at: usize) -> Result<(u64, usize), RecordFault>
    requires { at ≤ length rec.now }
    ensures gives { ReadsField result (id_at rec.now at) }
    ensures within { IfOk result (λ found. found.1 ≤ length rec.now) }
{
    let (id, next) = get_u64(rec, at)?;
    if id > MAX_ID {
        return Err(RecordFault::Bad(at as u64));
    }
    Ok((id, next))
}

/// An amount of at most 99,999,999,999.99 either way.
#[tactic(auto, unfolding(crate::specs::FieldReading::amount_at))]
pub fn get_amount(rec: &[u8], at: usize) -> Result<(Cents, usize), RecordFault>
    requires { at ≤ length rec.now }
    ensures gives { ReadsField result (amount_at rec.now at) }
    ensures within { IfOk result (λ found. found.1 ≤ length rec.now) }
{
    let (cents, next) = get_i64(rec, at)?;
    if cents.unsigned_abs() > MAX_CENTS {
        return Err(RecordFault::Bad(at as u64));
    }
    Ok((Cents(cents), next))
}

/// A moment of the years 1900 to 9999.
#[tactic(auto, unfolding(crate::specs::FieldReading::moment_at))]
pub fn get_moment(rec: &[u8], at: usize) -> Result<(Moment, usize), RecordFault>
    requires { at ≤ length rec.now }
    ensures gives { ReadsField result (moment_at rec.now at) }
    ensures within { IfOk result (λ found. found.1 ≤ length rec.now) }
{
    let (seconds, next) = get_i64(rec, at)?;
    let moment = Moment(seconds);
    if !moment.is_in_calendar() {
        return Err(RecordFault::Bad(at as u64));
    }
    Ok((moment, next))
}

/// A day of the years 1900 to 9999.
#[tactic(auto, unfolding(crate::specs::FieldReading::day_at))]
pub fn get_day(rec: &[u8], at: usize) -> Result<(Day, usize), RecordFault>
    requires { at ≤ length rec.now }
    ensures gives { ReadsField result (day_at rec.now at) }
    ensures within { IfOk result (λ found. found.1 ≤ length rec.now) }
{
    let (days, next) = get_i32(rec, at)?;
    let day = Day(days);
    if !day.is_in_calendar() {
        return Err(RecordFault::Bad(at as u64));
    }
    Ok((day, next))
}

/// The number of a series' transfers, 1 to 999.
#[tactic(auto, unfolding(crate::specs::FieldReading::count_at))]
pub fn get_count(rec: &[u8], at: usize) -> Result<(u32, usize), RecordFault>
    requires { at ≤ length rec.now }
    ensures gives { ReadsField result (count_at rec.now at) }
    ensures within { IfOk result (λ found. found.1 ≤ length rec.now) }
    // It takes no memory.
    ensures sure { result ≢ Err RecordFault.OutOfMemory }
{
    let (count, next) = get_u16(rec, at)?;
    if count < 1 || count > 999 {
        return Err(RecordFault::Bad(at as u64));
    }
    Ok((u32::from(count), next))
}
