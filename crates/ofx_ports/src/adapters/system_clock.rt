//! The clock of the system.

ghost use Rattle.std.specs.Prelude.{◌≡◌, negsuc, None};
ghost use Rattle.ofx_types.specs.Calendar.{IsMoment};

use crate::clock::Clock;
use ofx_types::Moment;
use std::marker::Model;
use std::rt;
use std::time::{SystemTime, UNIX_EPOCH};

/// The system's clock, to the second. A time after the year 9999 is shown as its last second.
///
/// Where the clock can't be read, as where it is set before 1970, it shows its last answer again, at first midnight
/// at the start of 1 January 1900.
#[derive(Drop)]
pub struct SystemClock<R> {
    rt: R,
    last: Moment,
}

impl<R> Model for SystemClock<R> {
    ghost use Rattle.ofx_types.specs.declared.number.Moment.{Moment};
    ghost use Rattle.ofx_types.specs.Calendar.{IsMoment};

    ghost Value = { Moment };

    ghost view = { λ c. c.last };

    ghost invariant = { λ c. IsMoment c.last.0 };
}

impl<R: rt::Clock + Drop> SystemClock<R> {
    /// A clock that reads the time from this runtime.
    pub fn new(rt: R) -> SystemClock<R>
        ensures { result.0 ≡ negsuc 2208988799 }
    {
        SystemClock {
            rt,
            last: Moment::FIRST,
        }
    }
}

impl<R: rt::Clock + Drop> Clock for SystemClock<R> {
    ghost shown = { λ _. None };

    fn now(&mut self) -> Moment
        ensures lawful { IsMoment result.0 }
        ensures last { self.new ≡ result }
    {
        if let Ok(time) = SystemTime::now(&self.rt)
            && let Ok(since) = time.duration_since(UNIX_EPOCH)
        {
            self.last = Moment(since.as_secs().min(Moment::LAST.0 as u64) as i64);
        }
        self.last
    }
}
