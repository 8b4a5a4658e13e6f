//! Where the lines go.

use crate::level::Level;
use crate::stamp::Stamp;
use machine_adapters::error_stream_has_room;
use std::fmt::Display;
use std::time::{Duration, Instant, SystemTime, UNIX_EPOCH};
use std::{rt, thread};

/// The error stream of a runtime, with its clock. A line that can't be written at once is dropped, so that nobody waits for who
/// reads the stream, and the next line that is written says how many were.
#[derive(Clone, Copy)]
pub struct AccessLog<R: Copy> {
    rt: R,
    level: Level,
}

impl<R: Eprint + rt::Clock + Copy> AccessLog<R> {
    /// The error stream of this runtime, on which so much is reported.
    pub fn new(rt: R, level: Level) -> AccessLog<R> {
        AccessLog { rt, level }
    }

    /// How much is reported.
    pub(crate) fn level(&self) -> Level {
        self.level
    }

    /// The moment that the clock shows.
    pub(crate) fn stamp(&self) -> Stamp {
        match SystemTime::now(&self.rt) {
            Ok(time) => match time.duration_since(UNIX_EPOCH) {
                Ok(since) => Stamp(Some(since.as_secs())),
                Err(_) => Stamp(None),
            },
            Err(_) => Stamp(None),
        }
    }

    /// A reading of the clock that never goes back.
    pub(crate) fn instant(&self) -> Option<Instant> {
        Instant::now(&self.rt).ok()
    }

    /// Lets this time pass.
    pub(crate) fn pause(&self, time: Duration) {
        thread::sleep(&self.rt, time);
    }

    /// Writes a line, after which so many were dropped before it, and answers how many are now.
    pub(crate) fn write_line<D: Display + Drop>(&self, line: D, dropped: u64) -> u64 {
        if !error_stream_has_room() {
            return dropped.saturating_add(1);
        }
        let written = if dropped == 0 {
            self.rt.eprintln(line)
        } else {
            eprintln!(self.rt; "{line} dropped={dropped}")
        };
        match written {
            Ok(()) => 0,
            Err(_) => dropped.saturating_add(1),
        }
    }
}
