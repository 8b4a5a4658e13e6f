//! Gates that hold the first call of the user 0 there, to show what other files do meanwhile.

use ofx_ports::Gate;
use std::sync::Wait;
use std::sync::atomic::{AtomicU64, Ordering};
use std::thread;
use std::time::{Clock, Duration};

/// The most turns that a call waits for another one.
const MAX_TURNS: u32 = 1_000_000;

/// The turns for which a call is held that others wait for.
const HELD_TURNS: u32 = 100_000;

/// How often the users 0 and 1 have come to a gate, and whether something was otherwise there than is wanted.
#[derive(Drop)]
struct Calls {
    first: AtomicU64,
    second: AtomicU64,
    wrong: AtomicU64,
}

impl Calls {
    fn new() -> Calls {
        Calls {
            first: AtomicU64::new(0),
            second: AtomicU64::new(0),
            wrong: AtomicU64::new(0),
        }
    }

    /// Whether all was as it is wanted.
    fn are_right(&self) -> bool {
        self.wrong.load(Ordering::SeqCst) == 0
    }

    /// Waits until a count is reached, for at most 1,000,000 turns.
    fn wait_for<R: Wait + Clock>(&self, rt: &R, count: &AtomicU64, least: u64) {
        for _ in 0..MAX_TURNS {
            if count.load(Ordering::SeqCst) >= least {
                return;
            }
            thread::sleep(rt, Duration::from_micros(10));
        }
        self.wrong.store(1, Ordering::SeqCst);
    }

    /// Waits for 100,000 turns, in which the user 0 doesn't come again.
    fn hold_alone<R: Wait + Clock>(&self, rt: &R) {
        for _ in 0..HELD_TURNS {
            if self.first.load(Ordering::SeqCst) != 1 {
                self.wrong.store(1, Ordering::SeqCst);
                return;
            }
            thread::sleep(rt, Duration::from_micros(10));
        }
    }
}

/// Holds the user 0 until the user 1 comes a second time, so until the first file of the user 1 is answered.
#[derive(Drop)]
pub struct UntilAnswered<'a, R: Wait + Clock + Sync> {
    rt: &'a R,
    calls: Calls,
}

impl<'a, R: Wait + Clock + Sync> UntilAnswered<'a, R> {
    /// A gate to which nobody has come.
    pub fn new(rt: &'a R) -> UntilAnswered<'a, R> {
        UntilAnswered {
            rt,
            calls: Calls::new(),
        }
    }

    /// Whether the user 1 was answered while the user 0 was held.
    pub fn was_answered(&self) -> bool {
        self.calls.are_right()
    }
}

impl<'a, R: Wait + Clock + Sync> Gate for UntilAnswered<'a, R> {
    fn pass(&self, call: u64) {
        match call {
            0 => self.calls.wait_for(self.rt, &self.calls.second, 2),
            1 => {
                self.calls.second.fetch_add(1, Ordering::SeqCst);
            }
            _ => {}
        }
    }
}

/// Holds the first call of the user 0 for 100,000 turns once the user 1 has come, and the user 1 until the user 0 has. It notes
/// whether the user 0 has come a second time meanwhile.
#[derive(Drop)]
pub struct WhileWaited<'a, R: Wait + Clock + Sync> {
    rt: &'a R,
    calls: Calls,
}

impl<'a, R: Wait + Clock + Sync> WhileWaited<'a, R> {
    /// A gate to which nobody has come.
    pub fn new(rt: &'a R) -> WhileWaited<'a, R> {
        WhileWaited {
            rt,
            calls: Calls::new(),
        }
    }

    /// Whether no second call of the user 0 came while the first was held.
    pub fn was_waited_for(&self) -> bool {
        self.calls.are_right()
    }
}

impl<'a, R: Wait + Clock + Sync> Gate for WhileWaited<'a, R> {
    fn pass(&self, call: u64) {
        match call {
            0 => {
                if self.calls.first.fetch_add(1, Ordering::SeqCst) == 0 {
                    self.calls.wait_for(self.rt, &self.calls.second, 1);
                    self.calls.hold_alone(self.rt);
                }
            }
            1 => {
                self.calls.wait_for(self.rt, &self.calls.first, 1);
                self.calls.second.fetch_add(1, Ordering::SeqCst);
            }
            _ => {}
        }
    }
}
