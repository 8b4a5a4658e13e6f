//! Zones as they are after a date: an offset in hours, and perhaps a name.

ghost use Rattle.std.specs.Prelude.{◌≡◌, ◌<◌, pos, IfSome};
ghost use Rattle.jiff_core.specs.Calendar.{IsWithin};
ghost use Rattle.ofx_types.specs.ValueReading.{ReadsValue};
ghost use Rattle.std.specs.List.{list_all};
ghost use Rattle.ofx_types.specs.DateForm.{is_name_byte};
ghost use Rattle.ofx_types.specs.DateReading as reading;

use crate::digits::sign_at;

/// The most bytes of a zone's name.
const NAME_ROOM: usize = 32;

/// The offset in seconds of the zone that the bytes spell, or of GMT where there are none.
#[tactic(auto, unfolding(ofx_types::specs::DateReading::zone_at))]
pub(crate) fn zone_at(text: &[u8]) -> Option<i64>
    ensures gives { ReadsValue (λ n. n) result (reading.zone_at text.now) }
    ensures range { IfSome result (λ n. IsWithin 50400 n) }
{
    match text {
        [] => Some(0),
        [b'[', rest @ ..] => offset_at(before_bracket(rest)?),
        _ => None,
    }
}

/// The bytes before a last `]`.
#[tactic(auto, unfolding(ofx_types::specs::DateReading::before_bracket))]
fn before_bracket(text: &[u8]) -> Option<&[u8]>
    ensures { ReadsValue (λ x. x.now) result (reading.before_bracket text.now) }
{
    match text {
        [prefix @ .., b']'] => Some(prefix),
        _ => None,
    }
}

/// The offset in seconds of what is there between a zone's brackets.
#[tactic(auto, unfolding(ofx_types::specs::DateReading::offset_at))]
fn offset_at(text: &[u8]) -> Option<i64>
    ensures gives { ReadsValue (λ n. n) result (reading.offset_at text.now) }
    ensures range { IfSome result (λ n. IsWithin 50400 n) }
{
    let (negative, rest) = sign_at(text);
    let (hour, rest) = hours_at(rest)?;
    let (part, rest) = part_at(rest)?;
    if !is_name(rest) {
        return None;
    }
    offset_seconds(negative, hour, part)
}

/// Whole hours of one or two digits, and the bytes after them.
#[tactic(auto, unfolding(ofx_types::specs::DateReading::hours_at))]
fn hours_at(text: &[u8]) -> Option<(u8, &[u8])>
    ensures gives { ReadsValue (λ x. (x.0, x.1.now)) result (reading.hours_at text.now) }
    ensures range { IfSome result (λ x. x.0 < 100) }
{
    match text {
        [tens, units, rest @ ..] if tens.is_ascii_digit() && units.is_ascii_digit() => {
            Some((10 * (*tens - b'0') + (*units - b'0'), rest))
        }
        [units, rest @ ..] if units.is_ascii_digit() => Some((*units - b'0', rest)),
        _ => None,
    }
}

/// Hundredths of an hour after a point, or 0 where no point comes first, and the bytes after them.
#[tactic(auto, unfolding(ofx_types::specs::DateReading::part_at))]
fn part_at(text: &[u8]) -> Option<(u8, &[u8])>
    ensures gives { ReadsValue (λ x. (x.0, x.1.now)) result (reading.part_at text.now) }
    ensures range { IfSome result (λ x. x.0 < 100) }
{
    match text {
        [b'.', rest @ ..] => tenths_at(rest),
        _ => Some((0, text)),
    }
}

#[tactic(auto, unfolding(ofx_types::specs::DateReading::tenths_at))]
fn tenths_at(text: &[u8]) -> Option<(u8, &[u8])>
    ensures gives { ReadsValue (λ x. (x.0, x.1.now)) result (reading.tenths_at text.now) }
    ensures range { IfSome result (λ x. x.0 < 100) }
{
    match text {
        [tenths, hundredths, rest @ ..] if tenths.is_ascii_digit() && hundredths.is_ascii_digit() =>
            { Some((10 * (*tenths - b'0') + (*hundredths - b'0'), rest)) }
        [tenths, rest @ ..] if tenths.is_ascii_digit() => Some((10 * (*tenths - b'0'), rest)),
        _ => None,
    }
}

/// Whether the bytes are a colon and a name, or nothing.
#[tactic(auto, unfolding(ofx_types::specs::DateReading::is_name))]
fn is_name(text: &[u8]) -> bool
    ensures { result ≡ reading.is_name text.now }
{
    match text {
        [] => true,
        [b':', name @ ..] => name.len() <= NAME_ROOM && are_name_bytes(name),
        _ => false,
    }
}

fn are_name_bytes(name: &[u8]) -> bool
    ensures { result ≡ list_all is_name_byte name.now }
{
    name.iter().all(|b| *b != b'[' && *b != b']')
}

/// The seconds of an offset from -12 to +14 hours, where its hundredths are a multiple of five.
#[tactic(auto, unfolding(ofx_types::specs::DateReading::offset_seconds))]
fn offset_seconds(negative: bool, hour: u8, hundredth: u8) -> Option<i64>
    ensures gives { ReadsValue (λ n. n) result (reading.offset_seconds negative hour hundredth) }
    ensures range { IfSome result (λ n. IsWithin 50400 n) }
{
    let most = if negative { 1200 } else { 1400 };
    let whole = 100 * hour as u16 + hundredth as u16;
    if hundredth % 5 != 0 || whole > most {
        return None;
    }
    let seconds = 3600 * hour as i64 + 36 * hundredth as i64;
    Some(if negative { -seconds } else { seconds })
}
