//! A keeper whose faults are reported.

ghost use Rattle.std.specs.Prelude.{◌≡◌};
ghost use Rattle.serve_log.specs.Within.{keeper_within};

use crate::access_log::AccessLog;
use crate::stamp::Stamp;
use ofx_ports::{Failed, FetchFault, Keeper, PutFault};
use std::{fmt, rt};

/// A keeper of records that reports in a line each append and each settling that is `Failed`, unless the level is `Off`. It
/// answers what the inner keeper answers. A fetch that fails isn't reported: records are read where the bank opens, and that
/// run's end reports it.
///
/// ```rust
/// use ofx_ports::{Keeper, MemKeeper, PutFault};
/// use serve_log::{AccessLog, Level, LoggedKeeper};
///
/// // A keeper whose first call fails. At the level `Warn` a line on the error stream tells it.
/// let keeper = MemKeeper::failing(rt.alloc(), &[1], &[]).expect(&rt, "a keeper");
/// let mut keeper = LoggedKeeper::over(keeper, AccessLog::new(rt, Level::Warn));
/// assert!(rt; keeper.append(b"one") == Err(PutFault::Failed));
/// assert!(rt; keeper.settle() == Ok(false) && keeper.len() == 0);
/// ```
#[derive(Drop)]
pub struct LoggedKeeper<K: Keeper, R: Copy> {
    keeper: K,
    journal: AccessLog<R>,
    // how many of its lines were dropped since the last one that was written
    dropped: u64,
}

/// The line of a call that failed.
#[derive(Clone, Copy, Debug)]
struct FaultEntry {
    stamp: Stamp,
    call: &'static str,
    faults: u64,
}

impl fmt::Display for FaultEntry {
    fn fmt<W: fmt::Write>(&self, f: &mut fmt::Formatter<W>) -> fmt::Result {
        let (stamp, call, faults) = (self.stamp, self.call, self.faults);
        write!(
            f,
            "at={stamp} level=warn keeper=failed call={call} faults={faults}"
        )
    }
}

impl<K: Keeper, R: Eprint + rt::Clock + Copy> LoggedKeeper<K, R> {
    /// This keeper, whose faults are reported.
    pub fn over(keeper: K, journal: AccessLog<R>) -> LoggedKeeper<K, R>
        ensures { keeper_within result ≡ keeper }
    {
        LoggedKeeper {
            keeper,
            journal,
            dropped: 0,
        }
    }

    /// Tells that a call failed.
    fn write_line(&mut self, call: &'static str)
        ensures { keeper_within self.new ≡ keeper_within self.old }
    {
        if self.journal.level().is_on() {
            let entry = FaultEntry {
                stamp: self.journal.stamp(),
                call,
                faults: self.keeper.faults(),
            };
            self.dropped = self.journal.write_line(entry, self.dropped);
        }
    }
}

impl<K: Keeper, R: Eprint + rt::Clock + Copy + Drop> Keeper for LoggedKeeper<K, R> {
    ghost records = { λ k. K.records (keeper_within k) };

    ghost size = { λ k. K.size (keeper_within k) };

    ghost unsettled = { λ k. K.unsettled (keeper_within k) };

    ghost landed = { λ k. K.landed (keeper_within k) };

    ghost faults = { λ k. K.faults (keeper_within k) };

    fn append(&mut self, rec: &[u8]) -> Result<(), PutFault> {
        let result = self.keeper.append(rec);
        if matches!(result, Err(PutFault::Failed)) {
            self.write_line("append");
        }
        result
    }

    fn settle(&mut self) -> Result<bool, Failed> {
        let result = self.keeper.settle();
        if result.is_err() {
            self.write_line("settle");
        }
        result
    }

    fn fetch(&mut self, number: u64, into: &mut Vec<u8>) -> Result<(), FetchFault> {
        self.keeper.fetch(number, into)
    }

    fn len(&self) -> u64 {
        self.keeper.len()
    }

    fn faults(&self) -> u64 {
        self.keeper.faults()
    }
}
