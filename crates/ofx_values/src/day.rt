//! The calendar day of a moment, and the moment at which a day begins.

ghost use Rattle.std.specs.Prelude.{◌≡◌, ◌<◌, ◌≤◌};
ghost use Rattle.ofx_types.specs.Calendar as calendar;
ghost use Rattle.ofx_types.specs.Calendar.{IsMoment, IsDay, civil_of};
ghost use Rattle.ofx_values.specs.Civil.{IsCivilOf};

use jiff_core::civil::Date;
use ofx_types::{Day, Moment};

/// The seconds of a day.
pub(crate) const DAY_SECONDS: i64 = 86_400;

/// The day of GMT that a moment of the years 1900 to 9999 lies in.
pub fn day_of(m: Moment) -> Day
    requires { IsMoment m.0 }
    ensures value { result.0 ≡ calendar.day_of m.0 }
    ensures range { IsDay result.0 }
{
    Day(m.0.div_euclid(DAY_SECONDS) as i32)
}

/// The moment of GMT at which a day of the years 1900 to 9999 begins.
pub fn midnight(d: Day) -> Moment
    requires { IsDay d.0 }
    ensures value { result.0 ≡ calendar.midnight d.0 }
    ensures range { IsMoment result.0 }
{
    Moment(d.0 as i64 * DAY_SECONDS)
}

/// The seconds of a moment since the midnight that its day begins with.
pub(crate) fn second_of_day(m: Moment) -> u32
    ensures value { result ≡ calendar.second_of_day m.0 }
    ensures range { result < 86400 }
{
    m.0.rem_euclid(DAY_SECONDS) as u32
}

/// A date of the Gregorian calendar.
#[derive(Clone, Copy, Debug)]
pub(crate) struct Civil {
    pub(crate) year: u16,
    pub(crate) month: u8,
    pub(crate) day: u8,
}

/// The civil date of a day of the years 1900 to 9999.
pub(crate) fn civil_date(d: Day) -> Civil
    requires { IsDay d.0 }
    ensures year { result.year ≡ (civil_of d.0).year }
    ensures month { result.month ≡ (civil_of d.0).month }
    ensures day { result.day ≡ (civil_of d.0).day }
    ensures year_range { result.year ≤ 9999 }
    ensures month_range { result.month ≤ 12 }
    ensures day_range { result.day ≤ 31 }
{
    let date = library_date(d);
    Civil {
        year: date.year as u16,
        month: date.month,
        day: date.day,
    }
}

fn library_date(d: Day) -> Date
    requires { IsDay d.0 }
    ensures { IsCivilOf (civil_of d.0) result }
{
    Date::from_unix_epoch_day(d.0 as i64).unwrap()
}
