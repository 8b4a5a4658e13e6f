//! A link that is watched.

ghost use Rattle.std.specs.Prelude.{◌≡◌};
ghost use Rattle.serve_log.specs.Within.{link_within};

use crate::access_log::AccessLog;
use crate::watch::Watch;
use ofx_ports::{Failed, Link};
use std::alloc::Global;
use std::rt;

/// A link that reports in a line each exchange that the log's level covers. It answers what the inner link answers.
#[derive(Drop)]
pub struct LoggedLink<L, R: Copy> {
    link: L,
    journal: AccessLog<R>,
    watch: Watch,
}

impl<L, R: Copy> LoggedLink<L, R> {
    /// The link of this number among those of a worker, which has a number too, and before it so many lines that were dropped.
    pub fn over(
        link: L,
        alloc: Global,
        journal: AccessLog<R>,
        worker: u32,
        number: u64,
        dropped: u64,
    ) -> LoggedLink<L, R> {
        LoggedLink {
            link,
            journal,
            watch: Watch::new(alloc, worker, number, dropped),
        }
    }

    /// How many lines of its worker were dropped since the last one that was written.
    pub fn dropped(&self) -> u64 {
        self.watch.dropped
    }

    /// The link within.
    pub fn into_link(self) -> L
        ensures { result ≡ link_within self }
    {
        self.link
    }
}

impl<L: Link, R: Eprint + rt::Clock + Copy + Send> Link for LoggedLink<L, R> {
    ghost left = { λ l. L.left (link_within l) };

    ghost held = { λ l. L.held (link_within l) };

    ghost read_faults = { λ l. L.read_faults (link_within l) };

    ghost write_faults = { λ l. L.write_faults (link_within l) };

    fn read(&mut self, into: &mut [u8]) -> Result<usize, Failed> {
        let result = self.link.read(into);
        if self.journal.level().is_on()
            && let Ok(count) = result
        {
            self.watch.came(&into[..count], self.journal.instant());
        }
        result
    }

    fn write(&mut self, bytes: &[u8]) -> Result<usize, Failed> {
        let result = self.link.write(bytes);
        if self.journal.level().is_on() {
            match result {
                Ok(count) => self.watch.wrote(bytes, count, &self.journal),
                Err(Failed) => self.watch.failed(bytes, &self.journal),
            }
        }
        result
    }
}
