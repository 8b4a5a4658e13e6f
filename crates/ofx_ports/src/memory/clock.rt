//! A clock whose answers are set.

ghost use Rattle.std.specs.Prelude.{◌≡◌, ◌<◌, List, [], ◌∷◌, ◌++◌, Some, All, IfOk, length, slice_get};
ghost use Rattle.ofx_types.specs.Calendar.{IsMoment};
ghost use Rattle.ofx_ports.specs.Known.{Grows};

use crate::clock::Clock;
use ofx_types::{Moment, OutOfMemory};
use std::alloc::Global;
use std::marker::Model;
use std::snapshot::Snapshot;

// The answers given so far. Proofs alone read those before the last one: it takes no memory to remember them.
#[derive(Drop)]
enum ClockTrace {
    Start,
    After(Snapshot<ClockTrace>, Moment),
}

/// A clock that answers moments of a list in order, and the last of them for ever.
#[derive(Drop)]
pub struct MemClock {
    moments: Vec<Moment>,
    at: usize,
    trail: ClockTrace,
}

impl Model for MemClock {
    ghost use Rattle.std.specs.Prelude.{◌<◌, drop, length, All};
    ghost use Rattle.ofx_types.specs.Calendar.{IsMoment};
    ghost use Rattle.ofx_ports.specs.States.{ClockState};

    ghost Value = { ClockState };

    ghost use Rattle.ofx_ports.specs.ClockTrace.{answers};

    ghost view = { λ c. record { coming = drop c.at c.moments.items; given = answers c.trail } };

    ghost invariant = { λ c. (c.at < length c.moments.items) × All (λ m. IsMoment m.0) c.moments.items };
}

impl MemClock {
    ghost use Rattle.ofx_ports.specs.States.{ClockState};

    /// A clock that answers these moments in order. There is at least one, and each has a year from 1900 to 9999.
    pub fn new(alloc: Global, moments: &[Moment]) -> Result<MemClock, OutOfMemory>
        requires some { 0 < length moments.now }
        requires lawful { All (λ m. IsMoment m.0) moments.now }
        ensures { IfOk result (λ c. c ≡ record { coming = moments.now; given = [] }) }
    {
        Ok(MemClock {
            moments: moments.to_vec(alloc)?,
            at: 0,
            trail: ClockTrace::Start,
        })
    }
}

impl Clock for MemClock {
    ghost use Rattle.ofx_ports.specs.States.{ClockState, later_moments};

    ghost shown = { λ c. Some c.given };

    fn now(&mut self) -> Moment
        ensures lawful { IsMoment result.0 }
        ensures shown { Grows (Some self.old.given) (Some self.new.given) (result ∷ []) }

        // It answers the first of the moments to come, and goes on to the next one while there is one.
        ensures answer { slice_get self.old.coming 0 ≡ Some result }
        ensures coming { self.new.coming ≡ later_moments self.old.coming }
    {
        let moment = self.moments[self.at];
        let before = Snapshot::of(&self.trail);
        self.trail = ClockTrace::After(before, moment);
        if self.moments.len() - self.at > 1 {
            self.at += 1;
        }
        moment
    }
}
