//! The machine's clock, held back where it goes ahead within a run.

ghost use Rattle.std.specs.Prelude.{◌≡◌, None};
ghost use Rattle.ofx_types.specs.Calendar.{IsMoment};

use ofx_ports::{Clock, SystemClock};
use ofx_types::Moment;
use std::time::Instant;

/// How many seconds the clock may go ahead of the machine's steady clock within a run: a day.
const LEEWAY: i64 = 86_400;

/// What is said, once by each clock, where it is held back.
const HELD_BACK: &str =
    "clock: it was set more than a day ahead, and the bank goes on by the machine's steady clock; \
     set it right, or start the bank again";

/// The system's clock. Within a run it goes no further than a day ahead of the machine's steady clock, which nobody can set: what
/// is due by a wrong clock is done for good.
#[derive(Drop)]
pub struct SteadyClock {
    rt: HostRuntime,
    clock: SystemClock<HostRuntime>,
    // what both clocks showed where the run began; None where one of them couldn't be read
    start: Option<(Moment, Instant)>,
    // whether it is still to be said that it is held back
    tells: bool,
}

impl SteadyClock {
    /// The clock of a run that begins now. Nothing is said of it.
    pub fn new(rt: &HostRuntime) -> SteadyClock {
        let mut clock = SystemClock::new(*rt);
        let moment = clock.now();
        let start = match Instant::now(rt) {
            Ok(instant) if moment.0 > Moment::FIRST.0 => Some((moment, instant)),
            _ => None,
        };
        SteadyClock {
            rt: *rt,
            clock,
            start,
            tells: false,
        }
    }

    /// Another clock of the same run, which says on the error stream that it is held back.
    pub fn telling(&self) -> SteadyClock {
        SteadyClock {
            rt: self.rt,
            clock: SystemClock::new(self.rt),
            start: self.start,
            tells: true,
        }
    }

    // The last moment that it may show now. The last of all where the steady clock can't be read.
    fn latest(&self) -> i64 {
        let Some((moment, instant)) = self.start else {
            return Moment::LAST.0;
        };
        match instant.elapsed(&self.rt) {
            Ok(since) => moment
                .0
                .saturating_add(i64::try_from(since.as_secs()).unwrap_or(i64::MAX))
                .saturating_add(LEEWAY),
            Err(_) => Moment::LAST.0,
        }
    }
}

impl Clock for SteadyClock {
    ghost shown = { λ _. None };

    fn now(&mut self) -> Moment {
        let moment = self.clock.now();
        let latest = self.latest().max(Moment::FIRST.0);
        if moment.0 <= latest {
            return moment;
        }
        if self.tells {
            self.tells = false;
            let _ = self.rt.eprintln(HELD_BACK);
        }
        Moment(latest)
    }
}
