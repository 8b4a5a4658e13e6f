//! The moment of a line.

use jiff_core::civil::Date;
use std::fmt;

/// The seconds of a day.
const DAY_SECONDS: u64 = 86_400;

/// Seconds since 1970, GMT, where the clock could be read. It is shown as `2024-01-31T12:00:00Z`, or as `-`.
#[derive(Clone, Copy, Debug)]
pub(crate) struct Stamp(pub(crate) Option<u64>);

impl fmt::Display for Stamp {
    fn fmt<W: fmt::Write>(&self, f: &mut fmt::Formatter<W>) -> fmt::Result {
        match self.0 {
            Some(seconds) => write_moment(f, seconds),
            None => f.write_str("-"),
        }
    }
}

fn write_moment<W: fmt::Write>(f: &mut fmt::Formatter<W>, seconds: u64) -> fmt::Result {
    let second = seconds % DAY_SECONDS;
    match Date::from_unix_epoch_day((seconds / DAY_SECONDS) as i64) {
        Ok(date) => {
            let (year, month, day) = (date.year, date.month, date.day);
            write!(f, "{year:04}-{month:02}-{day:02}T")?;
            let (hour, minute, second) = (second / 3600, second / 60 % 60, second % 60);
            write!(f, "{hour:02}:{minute:02}:{second:02}Z")
        }
        Err(_) => f.write_str("-"),
    }
}
