//! Numbers that mean something: amounts, days, moments, and the numbers of users and accounts.

ghost use Rattle.std.specs.Prelude.{◌≡◌, ◌↔◌, ◌&&◌, pos, negsuc, int_le, IsTrue};
ghost use Rattle.ofx_types.specs.Calendar.{IsDay, IsMoment};

use crate::duplicate::Duplicate;
use crate::memory::OutOfMemory;

/// An amount of US dollars in cents, negative where money leaves.
#[derive(Clone, Copy, Debug, PartialEq, Eq, PartialOrd, Ord)]
pub struct Cents(pub i64);

/// A day of the Gregorian calendar, counted from 1 January 1970. Days of the years 1900 to 9999 are used.
#[derive(Clone, Copy, Debug, PartialEq, Eq, PartialOrd, Ord)]
pub struct Day(pub i32);

/// A moment in seconds since midnight of 1 January 1970, GMT. Moments of the years 1900 to 9999 are used.
#[derive(Clone, Copy, Debug, PartialEq, Eq, PartialOrd, Ord)]
pub struct Moment(pub i64);

/// An account of a setup, by its index among the account lines, from 0.
#[derive(Clone, Copy, Debug, PartialEq, Eq, PartialOrd, Ord)]
pub struct AcctId(pub u32);

/// A user of a setup, by its index among the user lines, from 0.
#[derive(Clone, Copy, Debug, PartialEq, Eq, PartialOrd, Ord)]
pub struct UserId(pub u32);

/// What is synchronised, by its number. Account a has its transfers at 3a, its recurring transfers at 3a + 1 and its
/// mail at 3a + 2; after those of all accounts the mail of user u is at u.
#[derive(Clone, Copy, Debug, PartialEq, Eq, PartialOrd, Ord)]
pub struct ObjectId(pub u32);

/// The status with which a run of a program ends.
#[derive(Clone, Copy, Debug, PartialEq, Eq)]
pub struct Status(pub u8);

impl Day {
    /// 1 January 1900.
    pub const FIRST: Day = Day(-25_567);

    /// 31 December 9999.
    pub const LAST: Day = Day(2_932_896);

    /// Whether the day lies in the years 1900 to 9999.
    pub fn is_in_calendar(self) -> bool
        ensures within { IsTrue result ↔ IsDay self.0 }
        ensures exact { result ≡ (int_le (negsuc 25566) self.0 && int_le self.0 (pos 2932896)) }
    {
        Day::FIRST.0 <= self.0 && self.0 <= Day::LAST.0
    }
}

impl Moment {
    /// The first second of 1 January 1900.
    pub const FIRST: Moment = Moment(-2_208_988_800);

    /// The last second of 31 December 9999.
    pub const LAST: Moment = Moment(253_402_300_799);

    /// Whether the moment lies in the years 1900 to 9999.
    pub fn is_in_calendar(self) -> bool
        ensures within { IsTrue result ↔ IsMoment self.0 }
        ensures exact { result ≡ (int_le (negsuc 2208988799) self.0 && int_le self.0 (pos 253402300799)) }
    {
        Moment::FIRST.0 <= self.0 && self.0 <= Moment::LAST.0
    }
}

impl Duplicate for UserId {
    fn copy(&self) -> Result<UserId, OutOfMemory> {
        Ok(*self)
    }
}
