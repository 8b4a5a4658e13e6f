//! The dates of a series.

ghost use Rattle.std.specs.Prelude.{◌≡◌, ◌^◌, ◌<◌, ◌≤◌, pos, ◌+ℤ◌};
ghost use Rattle.ofx_types.specs.Calendar.{IsDay, civil_of};
ghost use Rattle.ofx_values.specs.Civil.{IsCivilOf};
ghost use Rattle.bank_model.specs.Recurrence as recurrence;
ghost use Rattle.bank_model.specs.Recurrence.{if_in_calendar, after_months, kth_date};

mod laws;

use jiff_core::civil::Date;
use jiff_span::date::add_months;
pub use laws::{
    civil_of_its_day, day_of_its_civil_date, series_begins, series_ends,
    series_has_few_occurrences, series_rises,
};
use ofx_types::{Day, Freq};

/// The last day of the first half of a month.
const HALF: u8 = 15;

/// The months of the years 1900 to 9999.
const MONTHS: u64 = 97_200;

/// The date of the transfer at that occurrence of a series, from 0, whose first date is given (FREQ). None exactly where
/// the date lies after 31 December 9999. Takes no memory.
///
/// ```rust
/// use bank_recur::date_of;
/// use ofx_types::{Day, Freq};
///
/// // From 31 January 2024 on: 29 February and 31 March.
/// let first = Day(19_753);
/// assert!(rt; date_of(first, Freq::Monthly, 1) == Some(Day(19_782)));
/// assert!(rt; date_of(first, Freq::Monthly, 2) == Some(Day(19_813)));
/// // No date lies after the year 9999.
/// assert!(rt; date_of(Day::LAST, Freq::Weekly, 1) == None);
/// ```
#[tactic(auto, unfolding(bank_model::specs::Recurrence::kth_date, bank_model::specs::Recurrence::day_in_series))]
pub fn date_of(first: Day, freq: Freq, k: u32) -> Option<Day>
    requires { IsDay first.0 }
    ensures { result ≡ kth_date first freq k }
{
    let occurrence = k as u64;
    match freq {
        Freq::Weekly => days_later(first, 7 * occurrence),
        Freq::Biweekly => days_later(first, 14 * occurrence),
        Freq::TwiceMonthly => twice_monthly(first, occurrence),
        Freq::Monthly => months_later(first, occurrence),
        Freq::FourWeeks => days_later(first, 28 * occurrence),
        Freq::Bimonthly => months_later(first, 2 * occurrence),
        Freq::Quarterly => months_later(first, 3 * occurrence),
        Freq::Semiannually => months_later(first, 6 * occurrence),
        Freq::Annually => months_later(first, 12 * occurrence),
    }
}

/// The date so many days after the first.
fn days_later(first: Day, days: u64) -> Option<Day>
    requires { days < 2 ^ 40 }
    ensures { result ≡ if_in_calendar (first.0 +ℤ pos days) }
{
    let day = first.0 as i64 + days as i64;
    if day > i64::from(Day::LAST.0) {
        return None;
    }
    Some(Day(day as i32))
}

/// The first date's day of the month, so many months later.
fn months_later(first: Day, months: u64) -> Option<Day>
    requires { IsDay first.0 }
    ensures { result ≡ if_in_calendar (recurrence.months_later first.0 months) }
{
    day_in_month(first, civil_date(first).day, months)
}

/// The date at that occurrence of a series with two dates a month, 15 days of the month apart.
fn twice_monthly(first: Day, occurrence: u64) -> Option<Day>
    requires { IsDay first.0 }
    ensures { result ≡ if_in_calendar (recurrence.twice_monthly first.0 (civil_of first.0).day occurrence) }
{
    let day = civil_date(first).day;
    if occurrence % 2 == 0 {
        day_in_month(first, day, occurrence / 2)
    } else if day <= HALF {
        day_in_month(first, day + 15, occurrence / 2)
    } else {
        day_in_month(first, day - 15, occurrence / 2 + 1)
    }
}

/// That day of the month which lies so many months after the first date's, or the month's last day where it has fewer.
fn day_in_month(first: Day, day: u8, months: u64) -> Option<Day>
    requires first_in { IsDay first.0 }
    requires day_in { 1 ≤ day }
    ensures { result ≡ if_in_calendar (after_months first.0 day months) }
{
    if months >= MONTHS {
        return None;
    }
    match add_months(civil_date(first), months as i32) {
        Ok(month) => {
            let date = Date::constrain(month.year, month.month, day);
            Some(Day(date.to_unix_epoch_day()))
        }
        Err(_) => None,
    }
}

/// The civil date of a day.
fn civil_date(day: Day) -> Date
    requires { IsDay day.0 }
    ensures { IsCivilOf (civil_of day.0) result }
{
    Date::from_unix_epoch_day(day.0 as i64).unwrap()
}
