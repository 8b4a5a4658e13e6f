//! Amounts, moments and numbers as they are in a reply.

ghost use Rattle.std.specs.Prelude.{◌≡◌, ◌/◌, ◌%◌, ◌^◌, ◌<◌, ◌≤◌, ◌∷◌, ◌++◌, drop, OnOk, OnErr};
ghost use Rattle.std.specs.Fmt.{decimal};
ghost use Rattle.ofx_types.specs.Digits as digits;
ghost use Rattle.ofx_types.specs.Digits.{four_digits};
ghost use Rattle.ofx_types.specs.Calendar.{IsMoment};
ghost use Rattle.ofx_types.specs.AmountForm.{amount_text};
ghost use Rattle.ofx_types.specs.DateForm.{clock_text, moment_text};

use crate::day::{Civil, civil_date, day_of, second_of_day};
use itoa::{Buffer, write_digits};
use ofx_types::{Cents, Moment, OutOfMemory};

/// The most bytes of a printed amount: a sign, 17 digits of dollars, a point and two digits of cents.
const AMOUNT_ROOM: usize = 21;

/// Where the point is in that room.
const POINT_AT: usize = 18;

/// Appends the digits of a number, without leading zeros. After `OutOfMemory` nothing is appended.
pub fn print_number(n: u64, out: &mut Vec<u8>) -> Result<(), OutOfMemory>
    ensures ok { OnOk result (out.new.items ≡ out.old.items ++ decimal n) }
    ensures err { OnErr result (out.new.items ≡ out.old.items) }
{
    let mut buffer = Buffer::new();
    out.extend_from_slice(buffer.format(n).as_bytes())?;
    Ok(())
}

/// Appends an amount: `-` where it is negative, the dollars, a point and two digits of cents. After `OutOfMemory`
/// nothing is appended.
pub fn print_amount(c: Cents, out: &mut Vec<u8>) -> Result<(), OutOfMemory>
    ensures ok { OnOk result (out.new.items ≡ out.old.items ++ amount_text c.0) }
    ensures err { OnErr result (out.new.items ≡ out.old.items) }
{
    let mut text = [0u8; AMOUNT_ROOM];
    let start = write_amount(c, &mut text);
    out.extend_from_slice(&text[start..])?;
    Ok(())
}

/// Writes an amount so that it ends with the text, and answers where it begins.
#[tactic(auto, unfolding(ofx_types::specs::AmountForm::amount_text))]
fn write_amount(c: Cents, text: &mut [u8; AMOUNT_ROOM]) -> usize
    ensures written { drop result text.new ≡ amount_text c.0 }
    ensures room { result ≤ AMOUNT_ROOM }
{
    let start = write_magnitude(c.0.unsigned_abs(), text);
    if c.0 < 0 {
        text[start - 1] = b'-';
        return start - 1;
    }
    start
}

/// Writes dollars, a point and two digits of cents so that they end with the text, and answers where they begin.
fn write_magnitude(cents: u64, text: &mut [u8; AMOUNT_ROOM]) -> usize
    requires { cents ≤ 2 ^ 63 }
    ensures written { drop result text.new ≡ decimal (cents / 100) ++ 46 ∷ digits.two_digits (cents % 100) }
    ensures room { (1 ≤ result) × (result ≤ AMOUNT_ROOM) }
{
    let [tens, units] = two_digits((cents % 100) as u8);
    text[POINT_AT + 2] = units;
    text[POINT_AT + 1] = tens;
    text[POINT_AT] = b'.';
    write_digits(cents / 100, text, POINT_AT)
}

/// Appends a moment of the years 1900 to 9999 as YYYYMMDDHHMMSS in GMT. After `OutOfMemory` nothing is appended.
#[tactic(auto, unfolding(ofx_types::specs::DateForm::moment_text))]
pub fn print_moment(m: Moment, out: &mut Vec<u8>) -> Result<(), OutOfMemory>
    requires { IsMoment m.0 }
    ensures ok { OnOk result (out.new.items ≡ out.old.items ++ moment_text m.0) }
    ensures err { OnErr result (out.new.items ≡ out.old.items) }
{
    let text = stamp(civil_date(day_of(m)), second_of_day(m));
    out.extend_from_slice(&text)?;
    Ok(())
}

/// The fourteen digits of a date and the seconds since its midnight.
fn stamp(date: Civil, second: u32) -> [u8; 14]
    requires year_in { date.year < 10000 }
    requires month_in { date.month < 100 }
    requires day_in { date.day < 100 }
    requires second_in { second < 86400 }
    ensures { result ≡ four_digits date.year ++ (digits.two_digits date.month ++ digits.two_digits date.day) ++ clock_text second }
{
    let [y1, y2] = two_digits((date.year / 100) as u8);
    let [y3, y4] = two_digits((date.year % 100) as u8);
    let [m1, m2] = two_digits(date.month);
    let [d1, d2] = two_digits(date.day);
    let [h1, h2] = two_digits((second / 3600) as u8);
    let [n1, n2] = two_digits((second / 60 % 60) as u8);
    let [s1, s2] = two_digits((second % 60) as u8);
    [y1, y2, y3, y4, m1, m2, d1, d2, h1, h2, n1, n2, s1, s2]
}

/// The two digits of a number below 100.
fn two_digits(n: u8) -> [u8; 2]
    requires { n < 100 }
    ensures { result ≡ digits.two_digits n }
{
    [b'0' + n / 10, b'0' + n % 10]
}
