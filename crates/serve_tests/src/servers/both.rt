//! A gate that lets the calls of two users go on only when both have come.

use ofx_ports::Gate;
use std::sync::Wait;
use std::sync::atomic::{AtomicU64, Ordering};
use std::thread;
use std::time::{Clock, Duration};

/// The most turns that a call waits for the other one.
const MAX_TURNS: u32 = 1_000_000;

/// Lets the calls of the users 0 and 1 through when both have come, or when one has waited for 1,000,000 turns. Other calls go
/// through at once.
#[derive(Drop)]
pub struct BothGate<'a, R: Wait + Clock + Sync> {
    rt: &'a R,
    first: AtomicU64,
    second: AtomicU64,
    given_up: AtomicU64,
}

impl<'a, R: Wait + Clock + Sync> BothGate<'a, R> {
    /// A gate to which nobody has come.
    pub fn new(rt: &'a R) -> BothGate<'a, R> {
        BothGate {
            rt,
            first: AtomicU64::new(0),
            second: AtomicU64::new(0),
            given_up: AtomicU64::new(0),
        }
    }

    /// Whether both have come, and neither gave up.
    pub fn let_both_through(&self) -> bool {
        have_both_come(&self.first, &self.second) && self.given_up.load(Ordering::SeqCst) == 0
    }
}

/// Whether the marks of both calls are there.
fn have_both_come(first: &AtomicU64, second: &AtomicU64) -> bool {
    first.load(Ordering::SeqCst) != 0 && second.load(Ordering::SeqCst) != 0
}

impl<'a, R: Wait + Clock + Sync> Gate for BothGate<'a, R> {
    fn pass(&self, call: u64) {
        match call {
            0 => self.first.store(1, Ordering::SeqCst),
            1 => self.second.store(1, Ordering::SeqCst),
            _ => return,
        }
        for _ in 0..MAX_TURNS {
            if have_both_come(&self.first, &self.second) {
                return;
            }
            thread::sleep(self.rt, Duration::from_micros(10));
        }
        self.given_up.store(1, Ordering::SeqCst);
    }
}
