//! Series of known dates, their days counted by another program.

ghost use Rattle.ofx_types.specs.Calendar.{IsDay};

use crate::same::same;
use bank_recur::date_of;
use ofx_types::{Day, Freq};
use std::process::Abort;

/// Stops the test unless the first dates of the series, at most 50, are these days, in this order.
fn begins(rt: &impl Abort, first: Day, freq: Freq, days: &[i32])
    requires { IsDay first.0 }
{
    for (k, day) in (0..50u32).zip(days) {
        same(rt, (k, date_of(first, freq, k)), (k, Some(Day(*day))));
    }
}

/// The day of this number, where the calendar has it.
fn day(rt: &impl Abort, number: i32) -> Day
    ensures { IsDay result.0 }
{
    if number < -25_567 || number > 2_932_896 {
        panic!(rt; "no day of the years 1900 to 9999");
    }
    Day(number)
}

/// First days, frequencies, and the first dates.
const FIRST_DATES: &[(i32, Freq, &[i32])] = &[
    // from 31 January 2024 on
    (
        19_753,
        Freq::Weekly,
        &[
            19_753, 19_760, 19_767, 19_774, 19_781, 19_788, 19_795, 19_802,
        ],
    ),
    (
        19_753,
        Freq::Biweekly,
        &[
            19_753, 19_767, 19_781, 19_795, 19_809, 19_823, 19_837, 19_851,
        ],
    ),
    (
        19_753,
        Freq::FourWeeks,
        &[
            19_753, 19_781, 19_809, 19_837, 19_865, 19_893, 19_921, 19_949,
        ],
    ),
    (
        19_753,
        Freq::Bimonthly,
        &[
            19_753, 19_813, 19_874, 19_935, 19_996, 20_057, 20_119, 20_178,
        ],
    ),
    (
        19_753,
        Freq::Quarterly,
        &[
            19_753, 19_843, 19_935, 20_027, 20_119, 20_208, 20_300, 20_392,
        ],
    ),
    (
        19_753,
        Freq::Semiannually,
        &[
            19_753, 19_935, 20_119, 20_300, 20_484, 20_665, 20_849, 21_030,
        ],
    ),
    (
        19_753,
        Freq::Annually,
        &[
            19_753, 20_119, 20_484, 20_849, 21_214, 21_580, 21_945, 22_310,
        ],
    ),
    // 31 January, 29 February, 31 March and 30 April 2024, and so on, with 28 February 2025
    (
        19_753,
        Freq::Monthly,
        &[
            19_753, 19_782, 19_813, 19_843, 19_874, 19_904, 19_935, 19_966, 19_996, 20_027, 20_057,
            20_088, 20_119, 20_147,
        ],
    ),
    // 29 February 2024, 28 February of the three years that follow, 29 February 2028
    (
        19_782,
        Freq::Annually,
        &[19_782, 20_147, 20_512, 20_877, 21_243],
    ),
    // 31 January, 16 and 28 February, 16 and 31 March 2023
    (
        19_388,
        Freq::TwiceMonthly,
        &[19_388, 19_404, 19_416, 19_432, 19_447],
    ),
    // 15 and 30 January, 15 and 28 February, 15 March 2023
    (
        19_372,
        Freq::TwiceMonthly,
        &[19_372, 19_387, 19_403, 19_416, 19_431],
    ),
    // 24 and 31 December 9999
    (2_932_889, Freq::Weekly, &[2_932_889, 2_932_896]),
    // 30 November and 30 December 9999
    (2_932_865, Freq::Monthly, &[2_932_865, 2_932_895]),
];

#[test]
fn a_series_begins_with_its_dates(rt: HostRuntime) {
    for (first, freq, days) in FIRST_DATES {
        begins(&rt, day(&rt, *first), *freq, days);
    }
}

/// First days, frequencies and occurrences, from 0, whose dates lie after the year 9999.
const PAST_THE_END: &[(i32, Freq, u32)] = &[
    (2_932_889, Freq::Weekly, 2),
    (2_932_865, Freq::Monthly, 2),
    // the second date of 16 December 9999 would be 1 January 10000
    (2_932_881, Freq::TwiceMonthly, 1),
    // numbers of days and of months that pass 32 bits
    (-25_567, Freq::FourWeeks, u32::MAX),
    (-25_567, Freq::Annually, u32::MAX),
    (-25_567, Freq::TwiceMonthly, u32::MAX),
];

#[test]
fn a_series_ends_with_the_year_9999(rt: HostRuntime) {
    for (first, freq, occurrence) in PAST_THE_END {
        same(&rt, date_of(day(&rt, *first), *freq, *occurrence), None);
    }
}
