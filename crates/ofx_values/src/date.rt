//! Dates as they are in a file: a day, perhaps a time of that day, and perhaps a zone.

ghost use Rattle.std.specs.Prelude.{◌≡◌, ◌<◌, ℤ, pos, ◌+ℤ◌, ◌-ℤ◌, None, Some, IfSome, IfOk, IfErr, OnErr, MatchResult};
ghost use Rattle.jiff_core.specs.Calendar.{IsWithin};
ghost use Rattle.ofx_types.specs.Calendar as calendar;
ghost use Rattle.ofx_types.specs.Calendar.{IsDay, IsMoment};
ghost use Rattle.ofx_types.specs.DateForm.{IsDate};
ghost use Rattle.ofx_types.specs.TextRules.{trimmed};
ghost use Rattle.ofx_types.specs.ValueReading.{ReadsValue};
ghost use Rattle.ofx_types.specs.DateReading as reading;

use crate::day::midnight;
use crate::digits::pair_at;
use crate::fault::ValueFault;
use crate::zone::zone_at;
use jiff_core::civil::Date;
use ofx_types::{Day, Moment, trim};

/// The moment that the bytes spell, after trimming (OFX 1.6, "Dates, Times, and Time Zones").
///
/// A date is YYYYMMDD or YYYYMMDDHHMMSS, the second perhaps with a point and three digits, which mean nothing. After
/// either a zone in brackets may follow: an offset in hours from -12 to +14, and perhaps a colon and a name. Without a
/// time it is midnight, and without a zone it is GMT. `ValueFault::Date` where the bytes spell no date, or the written
/// date or the moment in GMT lies outside the years 1900 to 9999.
pub fn read_moment(raw: &[u8]) -> Result<Moment, ValueFault>
    ensures found { IfOk result (λ m. IsDate raw.now m.0) }
    ensures range { IfOk result (λ m. IsMoment m.0) }
    ensures fault { IfErr result (λ e. e ≡ ValueFault.Date) }
    ensures nothing { OnErr result ((m : ℤ) → IsDate raw.now m → ⊥) }
    ensures read { MatchResult result (λ m. reading.moment_at (trimmed raw.now) ≡ Some m.0) (λ _. reading.moment_at (trimmed raw.now) ≡ None) }
{
    match moment_at(trim(raw)) {
        Some(moment) => Ok(moment),
        None => Err(ValueFault::Date),
    }
}

/// The day that eight digits stand for, and the bytes after them.
#[tactic(auto, unfolding(ofx_types::specs::DateReading::day_at))]
fn day_at(text: &[u8]) -> Option<(Day, &[u8])>
    ensures gives { ReadsValue (λ x. (x.0.0, x.1.now)) result (reading.day_at text.now) }
    ensures range { IfSome result (λ x. IsDay x.0.0) }
{
    let (year, rest) = year_at(text)?;
    let (month, rest) = pair_at(rest)?;
    let (day, rest) = pair_at(rest)?;
    let number = day_number(year, month, day)?;
    Some((number, rest))
}

/// The year that four digits stand for, and the bytes after them.
#[tactic(auto, unfolding(ofx_types::specs::DateReading::year_at))]
fn year_at(text: &[u8]) -> Option<(u16, &[u8])>
    ensures gives { ReadsValue (λ x. (x.0, x.1.now)) result (reading.year_at text.now) }
    ensures range { IfSome result (λ x. x.0 < 10000) }
{
    let (century, rest) = pair_at(text)?;
    let (year, rest) = pair_at(rest)?;
    Some((100 * century as u16 + year as u16, rest))
}

/// The day with this year, month and day, where the calendar has it in the years 1900 to 9999.
fn day_number(year: u16, month: u8, day: u8) -> Option<Day>
    requires year_in { year < 10000 }
    requires month_in { month < 100 }
    requires day_in { day < 100 }
    ensures gives { ReadsValue (λ d. d.0) result (reading.day_number year month day) }
    ensures range { IfSome result (λ d. IsDay d.0) }
{
    if year < 1900 {
        return None;
    }
    match Date::new(year as i16, month as i8, day as i8) {
        Ok(date) => Some(Day(date.to_unix_epoch_day())),
        Err(_) => None,
    }
}

/// The seconds since midnight that six digits stand for, and the bytes after them.
#[tactic(auto, unfolding(ofx_types::specs::DateReading::clock_at))]
fn clock_at(text: &[u8]) -> Option<(u32, &[u8])>
    ensures gives { ReadsValue (λ x. (x.0, x.1.now)) result (reading.clock_at text.now) }
    ensures range { IfSome result (λ x. x.0 < 86400) }
{
    let (hour, rest) = pair_at(text)?;
    let (minute, rest) = pair_at(rest)?;
    let (second, rest) = pair_at(rest)?;
    let seconds = clock_seconds(hour, minute, second)?;
    Some((seconds, rest))
}

/// The seconds since midnight at a time of day, where a clock shows it.
#[tactic(auto, unfolding(ofx_types::specs::DateReading::clock_seconds))]
fn clock_seconds(hour: u8, minute: u8, second: u8) -> Option<u32>
    ensures gives { ReadsValue (λ n. n) result (reading.clock_seconds hour minute second) }
    ensures range { IfSome result (λ n. n < 86400) }
{
    if hour < 24 && minute < 60 && second < 60 {
        Some(3600 * hour as u32 + 60 * minute as u32 + second as u32)
    } else {
        None
    }
}

/// The bytes after a point and three digits, or all of them where no point comes first.
#[tactic(auto, unfolding(ofx_types::specs::DateReading::after_fraction))]
fn after_fraction(text: &[u8]) -> Option<&[u8]>
    ensures { ReadsValue (λ x. x.now) result (reading.after_fraction text.now) }
{
    match text {
        [b'.', rest @ ..] => after_three(rest),
        _ => Some(text),
    }
}

#[tactic(auto, unfolding(ofx_types::specs::DateReading::after_three))]
fn after_three(text: &[u8]) -> Option<&[u8]>
    ensures { ReadsValue (λ x. x.now) result (reading.after_three text.now) }
{
    match text {
        [a, b, c, rest @ ..] if a.is_ascii_digit() && b.is_ascii_digit() && c.is_ascii_digit() => {
            Some(rest)
        }
        _ => None,
    }
}

/// The seconds since midnight of the time of day that is here, or of midnight, and the bytes after it.
#[tactic(auto, unfolding(ofx_types::specs::DateReading::time_at))]
fn time_at(text: &[u8]) -> Option<(u32, &[u8])>
    ensures gives { ReadsValue (λ x. (x.0, x.1.now)) result (reading.time_at text.now) }
    ensures range { IfSome result (λ x. x.0 < 86400) }
{
    match text {
        [] | [b'[', ..] => Some((0, text)),
        _ => clock_and_fraction_at(text),
    }
}

#[tactic(auto, unfolding(ofx_types::specs::DateReading::clock_and_fraction_at))]
fn clock_and_fraction_at(text: &[u8]) -> Option<(u32, &[u8])>
    ensures gives { ReadsValue (λ x. (x.0, x.1.now)) result (reading.clock_and_fraction_at text.now) }
    ensures range { IfSome result (λ x. x.0 < 86400) }
{
    let (seconds, rest) = clock_at(text)?;
    let rest = after_fraction(rest)?;
    Some((seconds, rest))
}

/// The moment that trimmed bytes spell.
#[tactic(auto, unfolding(ofx_types::specs::DateReading::moment_at))]
fn moment_at(text: &[u8]) -> Option<Moment>
    ensures { ReadsValue (λ m. m.0) result (reading.moment_at text.now) }
{
    let (day, rest) = day_at(text)?;
    let (seconds, rest) = time_at(rest)?;
    let offset = zone_at(rest)?;
    moment_of(day, seconds, offset)
}

/// The moment at that many seconds of a day, less the offset, where it lies in the years 1900 to 9999.
#[tactic(auto, unfolding(ofx_types::specs::DateReading::lawful))]
fn moment_of(day: Day, seconds: u32, offset: i64) -> Option<Moment>
    requires day_in { IsDay day.0 }
    requires seconds_in { seconds < 86400 }
    requires offset_in { IsWithin 50400 offset }
    ensures { ReadsValue (λ m. m.0) result (reading.lawful (calendar.midnight day.0 +ℤ pos seconds -ℤ offset)) }
{
    let moment = Moment(midnight(day).0 + seconds as i64 - offset);
    if moment.is_in_calendar() {
        Some(moment)
    } else {
        None
    }
}
