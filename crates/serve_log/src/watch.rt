//! What was seen of a link's exchange.

use crate::access_line::AccessLine;
use crate::access_log::AccessLog;
use crate::reply::{ReplyNote, Signon, note_of};
use crate::request::{body_of, user_in};
use crate::stamp::Stamp;
use std::alloc::Global;
use std::rt;
use std::time::Instant;

/// What was seen of the exchange that a link is in.
#[derive(Drop)]
pub(crate) struct Watch {
    /// The worker's number, from 1, and that of the link among its own.
    pub(crate) worker: u32,
    pub(crate) link: u64,
    /// The bytes that came since the last reply, as long as they may tell whose the request is.
    come: Vec<u8>,
    /// Whether they do: each exchange so far was one request and then its reply, and there was memory for it.
    is_clear: bool,
    /// How many bytes came since the last reply.
    taken: u64,
    /// When the last of them came.
    at: Option<Instant>,
    /// The reply that is being written, and how much of it is left.
    reply: Option<ReplyNote>,
    left: u64,
    /// How many lines of the worker were dropped since the last one that was written.
    pub(crate) dropped: u64,
}

impl Watch {
    /// Nothing was seen of this link, before which so many lines of its worker were dropped.
    pub(crate) fn new(alloc: Global, worker: u32, link: u64, dropped: u64) -> Watch {
        Watch {
            worker,
            link,
            come: Vec::new(alloc),
            is_clear: true,
            taken: 0,
            at: None,
            reply: None,
            left: 0,
            dropped,
        }
    }

    /// Bytes have come.
    pub(crate) fn came(&mut self, bytes: &[u8], at: Option<Instant>) {
        self.taken = self.taken.saturating_add(bytes.len() as u64);
        self.at = at;
        if self.is_clear && self.come.extend_from_slice(bytes).is_err() {
            self.is_clear = false;
        }
    }

    /// So many of these bytes were written. The exchange is reported after the last byte of a reply.
    pub(crate) fn wrote<R: Eprint + rt::Clock + Copy>(
        &mut self,
        bytes: &[u8],
        count: usize,
        journal: &AccessLog<R>,
    ) {
        if self.left == 0 {
            self.begin(bytes);
        }
        self.left = self.left.saturating_sub(count as u64);
        if self.left == 0 {
            self.end(journal);
        }
    }

    /// The rest of the reply couldn't be written.
    pub(crate) fn failed<R: Eprint + rt::Clock + Copy>(
        &mut self,
        bytes: &[u8],
        journal: &AccessLog<R>,
    ) {
        if self.left == 0 {
            self.begin(bytes);
        }
        self.end(journal);
        self.left = 0;
    }

    /// A reply begins with these bytes.
    fn begin(&mut self, bytes: &[u8]) {
        self.reply = note_of(bytes);
        self.left = match &self.reply {
            Some(note) => note.size,
            None => 0,
        };
    }

    /// Tells of the exchange, which has ended, and looks for the next one.
    fn end<R: Eprint + rt::Clock + Copy>(&mut self, journal: &AccessLog<R>) {
        if let Some(note) = self.reply {
            if journal.level().covers(note.is_warning()) {
                self.dropped = journal.write_line(
                    self.entry(note, journal.stamp(), journal.instant()),
                    self.dropped,
                );
            }
        }
        self.is_clear = self.is_clear && body_of(&self.come).is_some();
        self.come.clear();
        self.taken = 0;
        self.reply = None;
    }

    /// The line of an exchange that ends now.
    fn entry(&self, note: ReplyNote, stamp: Stamp, now: Option<Instant>) -> AccessLine<'_> {
        let user = match (note.signon, body_of(&self.come)) {
            (Signon::Taken, Some(body)) => user_in(body),
            _ => None,
        };
        let time = match (self.at, now) {
            (Some(at), Some(now)) => Some(now.duration_since(at)),
            _ => None,
        };
        AccessLine {
            stamp,
            worker: self.worker,
            link: self.link,
            note,
            taken: self.taken,
            unwritten: self.left,
            user,
            time,
        }
    }
}
