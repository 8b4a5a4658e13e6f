//! Which calls of a memory form fail.

ghost use Rattle.std.specs.Prelude.{◌≡◌, ◌≤◌, IfOk};
ghost use Rattle.ofx_ports.specs.Faults.{Rose};
ghost use Rattle.ofx_ports.specs.Calls.{fails_next, one_more};

use ofx_types::OutOfMemory;
use std::alloc::Global;
use std::marker::Model;

/// The calls made of a memory form, and the numbers of those that fail.
#[derive(Debug, Drop)]
pub struct Schedule {
    failing: Vec<u64>,
    made: u64,
    faults: u64,
}

impl Model for Schedule {
    ghost use Rattle.ofx_ports.specs.Calls.{Calls};

    ghost Value = { Calls };

    ghost view = { λ s. record { failing = s.failing.items; made = s.made; faults = s.faults } };
}

impl Schedule {
    ghost use Rattle.std.specs.Prelude.{[]};
    ghost use Rattle.ofx_ports.specs.Calls.{Calls};

    /// A schedule in which no call fails.
    pub fn without_faults(alloc: Global) -> Schedule
        ensures { result ≡ record { failing = []; made = 0; faults = 0 } }
    {
        Schedule {
            failing: Vec::new(alloc),
            made: 0,
            faults: 0,
        }
    }

    /// A schedule in which the calls of these numbers fail, counted from 1.
    pub fn new(alloc: Global, failing: &[u64]) -> Result<Schedule, OutOfMemory>
        ensures { IfOk result (λ s. s ≡ record { failing = failing.now; made = 0; faults = 0 }) }
    {
        Ok(Schedule {
            failing: failing.to_vec(alloc)?,
            made: 0,
            faults: 0,
        })
    }

    /// Counts a call, and answers whether it is one of those that fail.
    pub fn start(&mut self) -> bool
        ensures fails { result ≡ fails_next self.old }
        ensures counted { self.new ≡ record self.old { made = one_more self.old.made } }
    {
        self.made = self.made.saturating_add(1);
        self.failing.contains(&self.made)
    }

    /// Counts a fault.
    pub fn fail(&mut self)
        ensures counted { self.new ≡ record self.old { faults = one_more self.old.faults } }
        ensures later { self.old.faults ≤ self.new.faults }
        ensures rose { Rose self.old.faults self.new.faults }
    {
        self.faults = self.faults.saturating_add(1);
    }

    /// The number of calls made so far.
    pub fn made(&self) -> u64
        ensures { result ≡ self.now.made }
    {
        self.made
    }

    /// The number of calls that failed so far.
    pub fn faults(&self) -> u64
        ensures { result ≡ self.now.faults }
    {
        self.faults
    }
}
