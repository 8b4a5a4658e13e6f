//! Texts, names of accounts, moments and days.

ghost use Rattle.std.specs.Prelude.{◌≡◌, ◌↔◌, ◌<◌, ◌≤◌, IsTrue};
ghost use Rattle.std.specs.Option.{IfSome};
ghost use Rattle.ofx_types.specs.Calendar as calendar;
ghost use Rattle.bank_model.specs.Sound as bounds;

use ofx_types::{AcctName, Day, Moment, Text};

/// The most bytes of a bank's id and of an account's number.
const MAX_BYTES: usize = 32;

/// Whether the name of an account has a bank's id and a number of 1 to 32 bytes each.
pub fn is_sound_account(account: &AcctName) -> bool
    ensures { IsTrue result ↔ bounds.IsSoundAccount account.now }
{
    is_name(&account.bank) && is_name(&account.number)
}

/// Whether a name has 1 to 32 bytes.
pub(crate) fn is_name(text: &Text) -> bool
    ensures { IsTrue result ↔ bounds.IsTextWithin 32 text.now }
{
    is_text(text, MAX_BYTES)
}

/// Whether a text has 1 byte up to a limit; that it is trimmed and clean its type keeps.
pub(crate) fn is_text(text: &Text, most: usize) -> bool
    ensures { IsTrue result ↔ bounds.IsTextWithin most text.now }
{
    let length = text.as_bytes().len();
    0 < length && length <= most
}

pub(crate) fn is_moment_option(moment: Option<Moment>) -> bool
    ensures { IsTrue result ↔ IfSome moment (λ moment. calendar.IsMoment moment.0) }
{
    match moment {
        Some(moment) => moment.is_in_calendar(),
        None => true,
    }
}

pub(crate) fn is_day_option(day: Option<Day>) -> bool
    ensures { IsTrue result ↔ IfSome day (λ day. calendar.IsDay day.0) }
{
    match day {
        Some(day) => day.is_in_calendar(),
        None => true,
    }
}
