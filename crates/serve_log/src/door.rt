//! A worker's doorway, whose links are watched.

ghost use Rattle.std.specs.Prelude.{◌≡◌, None};
ghost use Rattle.serve_log.specs.Within.{door_faults};

use crate::access_log::AccessLog;
use crate::door_lines::{AcceptEntry, RosterEntry};
use crate::link::LoggedLink;
use crate::roster::Roster;
use machine_adapters::{AcceptFault, SocketDoor, SocketLink};
use ofx_ports::{Doorway, Failed};
use std::alloc::Global;
use std::io::{Read, Write};
use std::net::{OpenListener, OpenStream};
use std::os::fd::AsRawFd;
use std::rt;
use std::time::Duration;

/// How often it is looked whether all workers have begun, and how many milliseconds apart: for a second in all.
const ROSTER_LOOKS: u32 = 100;

const ROSTER_MILLIS: u64 = 10;

/// The doorway of a worker. Each exchange of its links that the log's level covers is reported in a line. It is never closed.
///
/// Where no link can be had for a cause that may pass, that is reported, and after a pause the next one is awaited. Of a row
/// of such faults the first, second, fourth, eighth and so on are reported. A call fails where the listener itself has
/// failed, which is reported at each level of the log. So is it, by the worker that begins first, where others haven't begun
/// after a second.
#[derive(Drop)]
pub struct LoggedDoor<T, C, R: Copy> {
    door: SocketDoor<T, C>,
    alloc: Global,
    journal: AccessLog<R>,
    worker: u32,
    roster: Roster,
    has_begun: bool,
    links: u64,
    // how many faults there were since the last link
    failures: u64,
    // how many lines were dropped since the last one that was written
    dropped: u64,
    faults: u64,
}

impl<
    T: OpenListener + AsRawFd + Drop,
    C: rt::Clock + Copy + Drop,
    R: Eprint + rt::Clock + Copy,
> LoggedDoor<T, C, R>
where
    T::Stream: Read + Write + OpenStream + Drop,
{
    /// The doorway of the worker of this number, from 1, among those of the roster.
    pub fn over(
        door: SocketDoor<T, C>,
        alloc: Global,
        journal: AccessLog<R>,
        worker: u32,
        roster: Roster,
    ) -> LoggedDoor<T, C, R> {
        LoggedDoor {
            door,
            alloc,
            journal,
            worker,
            roster,
            has_begun: false,
            links: 0,
            failures: 0,
            dropped: 0,
            faults: 0,
        }
    }

    /// Notes that its worker has begun. The one that begins first reports where others don't.
    fn begin(&mut self)
        ensures { door_faults self.new ≡ door_faults self.old }
    {
        if self.has_begun {
            return;
        }
        self.has_begun = true;
        if self.roster.begin() && !self.all_begin() {
            let entry = RosterEntry {
                stamp: self.journal.stamp(),
                begun: self.roster.begun(),
                wanted: self.roster.wanted(),
            };
            self.dropped = self.journal.write_line(entry, self.dropped);
        }
    }

    /// Whether all workers begin within a second.
    fn all_begin(&self) -> bool {
        for _ in 0..ROSTER_LOOKS {
            if self.roster.is_full() {
                return true;
            }
            self.journal.pause(Duration::from_millis(ROSTER_MILLIS));
        }
        self.roster.is_full()
    }

    /// Awaits the next connection, again after each fault that may pass, and lets it in. None where the listener has failed.
    fn next_link(&mut self) -> Option<SocketLink<T::Stream, C>>
        ensures { door_faults self.new ≡ door_faults self.old }
    {
        for _ in 0..u64::MAX {
            match self.door.accept() {
                Ok(link) => {
                    self.failures = 0;
                    return Some(link);
                }
                Err(AcceptFault::Passing(error)) => {
                    self.report_failure(error);
                    self.door.pause();
                }
                Err(AcceptFault::Ended(error)) => {
                    self.report_end(error);
                    return None;
                }
            }
        }
        None
    }

    /// Reports that no link could be had now, unless that was reported a short while ago.
    fn report_failure(&mut self, error: i32)
        ensures { door_faults self.new ≡ door_faults self.old }
    {
        self.failures = self.failures.saturating_add(1);
        if self.journal.level().is_on() && self.failures.is_power_of_two() {
            self.write_line(error, true);
        }
    }

    /// Reports that no link will come in any more.
    fn report_end(&mut self, error: i32)
        ensures { door_faults self.new ≡ door_faults self.old }
    {
        self.failures = self.failures.saturating_add(1);
        self.write_line(error, false);
    }

    fn write_line(&mut self, error: i32, goes_on: bool)
        ensures { door_faults self.new ≡ door_faults self.old }
    {
        let entry = AcceptEntry {
            stamp: self.journal.stamp(),
            worker: self.worker,
            goes_on,
            error,
            failures: self.failures,
        };
        self.dropped = self.journal.write_line(entry, self.dropped);
    }

    /// The connection that was let in, as a link that is watched.
    fn watched(&mut self, link: SocketLink<T::Stream, C>) -> LoggedLink<SocketLink<T::Stream, C>, R>
        ensures { door_faults self.new ≡ door_faults self.old }
    {
        self.links = self.links.saturating_add(1);
        let dropped = self.dropped;
        self.dropped = 0;
        LoggedLink::over(
            link,
            self.alloc,
            self.journal,
            self.worker,
            self.links,
            dropped,
        )
    }
}

impl<
    T: OpenListener + AsRawFd + Drop + Send,
    C: rt::Clock + Copy + Drop + Send,
    R: Eprint + rt::Clock + Copy + Send,
> Doorway<LoggedLink<SocketLink<T::Stream, C>, R>> for LoggedDoor<T, C, R>
where
    T::Stream: Read + Write + OpenStream + Drop + Send,
{
    ghost given = { λ _. None };

    ghost back = { λ _. None };

    ghost faults = { door_faults };

    ghost closings = { λ _. 0 };

    fn accept(&mut self) -> Result<Option<LoggedLink<SocketLink<T::Stream, C>, R>>, Failed> {
        self.begin();
        match self.next_link() {
            Some(link) => Ok(Some(self.watched(link))),
            None => {
                self.faults = self.faults.saturating_add(1);
                Err(Failed)
            }
        }
    }

    fn ended(&mut self, link: LoggedLink<SocketLink<T::Stream, C>, R>) {
        self.dropped = link.dropped();
        link.into_link().close();
    }
}
