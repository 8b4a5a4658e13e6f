//! A stream on which each part of a request has its time.

ghost use Rattle.std.specs.Prelude.{◌<◌, ◌≤◌, length, IfOk, IfSome};

use crate::descriptor::is_readable;
use crate::limits::LinkLimits;
use crate::part::{RequestPart, RequestTrack};
use ofx_ports::{Failed, LINK_SECONDS};
use std::io::{ErrorKind, Read, Write};
use std::net::{OpenStream, Shutdown};
use std::os::fd::RawFd;
use std::rt;
use std::time::{Duration, Instant};

/// How often a call that a signal cut short is made again before it counts as failed.
const TRIES: u32 = 64;

/// How many seconds a read waits for a request to begin before it looks whether others wait to be let in.
const IDLE_SECONDS: u64 = 1;

/// How often it waits so long.
const IDLE_WAITS: u64 = LINK_SECONDS;

/// How many milliseconds the end of a link waits for bytes before it looks whether others wait to be let in.
const LINGER_MILLIS: u64 = 100;

/// How many seconds the end of a link takes at most.
const LINGER_SECONDS: u64 = 2;

/// How many bytes the end of a link reads and drops at most.
const MAX_DROPPED: usize = 1_048_576;

/// The least time that a read is given. With 0 it would wait without end.
const LEAST_MILLIS: u64 = 1;

/// A stream, and the time that its request has.
#[derive(Drop)]
pub(crate) struct TimedStream<S, C> {
    stream: S,
    clock: C,
    // the listener at which others wait to be let in
    listener: RawFd,
    limits: LinkLimits,
    // where the bytes that have come end
    track: RequestTrack,
    // the part whose time runs, and since when, unless it is the start
    part: RequestPart,
    since: Option<Instant>,
    // how long a read of the stream waits
    wait: Duration,
}

impl<S: Read + Write + OpenStream + Drop, C: rt::Clock + Drop> TimedStream<S, C> {
    /// This stream, from the start of a request. None where its waits can't be limited.
    pub(crate) fn over(
        stream: S,
        clock: C,
        listener: RawFd,
        limits: LinkLimits,
    ) -> Option<TimedStream<S, C>> {
        let wait = Duration::from_secs(IDLE_SECONDS);
        if !is_limited(&stream, wait) {
            return None;
        }
        Some(TimedStream {
            stream,
            clock,
            listener,
            limits,
            track: RequestTrack::new(),
            part: RequestPart::Start,
            since: None,
            wait,
        })
    }

    /// Reads once, and answers how many bytes came, 0 where the peer has ended. None where the read failed or its part of the
    /// request is out of time.
    pub(crate) fn read(&mut self, into: &mut [u8]) -> Option<usize>
        ensures { IfSome result (λ n. n ≤ length into.new) }
    {
        let count = self.read_part(into)?;
        self.note(&into[..count]);
        Some(count)
    }

    /// Writes once, and answers how many bytes were taken, at least one. Then the time of the next request runs, of which some
    /// bytes may have come.
    pub(crate) fn write(&mut self, bytes: &[u8]) -> Option<usize>
        ensures { IfSome result (λ n. (0 < n) × (n ≤ length bytes.now)) }
    {
        let count = write_once(&mut self.stream, bytes)?;
        let part = self.track.part;
        self.begin(part);
        Some(count)
    }

    /// From now on the time of this part runs.
    fn begin(&mut self, part: RequestPart) {
        self.part = part;
        self.since = match part {
            RequestPart::Start => None,
            _ => Instant::now(&self.clock).ok(),
        };
    }

    fn read_part(&mut self, into: &mut [u8]) -> Option<usize>
        ensures { IfSome result (λ n. n ≤ length into.new) }
    {
        match self.part {
            RequestPart::Start => self.read_start(into),
            RequestPart::Head => self.read_on(into, self.limits.head),
            RequestPart::Body => self.read_on(into, self.limits.body),
        }
    }

    /// Reads the first bytes of a request. Where none come within a second it looks whether others wait to be let in, who
    /// then go first; otherwise it waits on.
    fn read_start(&mut self, into: &mut [u8]) -> Option<usize>
        ensures { IfSome result (λ n. n ≤ length into.new) }
    {
        self.limit_wait(Duration::from_secs(IDLE_SECONDS))?;
        for _ in 0..IDLE_WAITS {
            match read_once(&mut self.stream, into) {
                Ok(Some(count)) => return Some(count),
                Ok(None) if !is_readable(self.listener) => {}
                _ => return None,
            }
        }
        None
    }

    /// Reads on in a part of the request that may take so long.
    fn read_on(&mut self, into: &mut [u8], limit: Duration) -> Option<usize>
        ensures { IfSome result (λ n. n ≤ length into.new) }
    {
        let spent = self.since?.elapsed(&self.clock).ok()?;
        let left = limit.checked_sub(spent)?;
        if left < Duration::from_millis(LEAST_MILLIS) {
            return None;
        }
        self.limit_wait(left.min(Duration::from_secs(LINK_SECONDS)))?;
        read_once(&mut self.stream, into).ok()?
    }

    /// Has reads wait so long at most.
    fn limit_wait(&mut self, wait: Duration) -> Option<()> {
        if self.wait != wait {
            self.stream.set_read_timeout(Some(wait)).ok()?;
            self.wait = wait;
        }
        Some(())
    }

    /// Notes the bytes that came, and begins the time of a part where they begin it. Until the next write the parts only go
    /// forwards, so that no bytes gain a request more time. Where none came the link has ended.
    fn note(&mut self, bytes: &[u8]) {
        if bytes.is_empty() {
            return;
        }
        let has_ended = self.track.take(bytes);
        match self.part {
            RequestPart::Start if !has_ended => self.begin(RequestPart::Head),
            RequestPart::Start | RequestPart::Head if has_ended => self.begin(RequestPart::Body),
            _ => {}
        }
    }

    /// Ends the stream so that its peer gets what was written last, also where it is still sending: a connection that is
    /// closed with bytes unread is reset, and its peer may lose what was on the way. So it says that nothing more comes, and
    /// reads and drops what does come until the peer ends too, for 2 seconds and up to 1 MiB. Where nothing comes for a tenth
    /// of a second and others wait to be let in, they go first.
    pub(crate) fn linger(self) {
        let mut timed = self;
        if timed.stream.shutdown(Shutdown::Write).is_ok()
            && timed
                .limit_wait(Duration::from_millis(LINGER_MILLIS))
                .is_some()
            && let Ok(start) = Instant::now(&timed.clock)
        {
            timed.drop_incoming(start);
        }
    }

    fn drop_incoming(&mut self, start: Instant) {
        let mut bytes = [0u8; 4096];
        let mut dropped = 0usize;
        for _ in 0..MAX_DROPPED {
            match read_once(&mut self.stream, &mut bytes) {
                Ok(Some(count)) if count > 0 => dropped = dropped.saturating_add(count),
                Ok(None) if !is_readable(self.listener) => {}
                _ => return,
            }
            if dropped >= MAX_DROPPED || !self.is_within(start, LINGER_SECONDS) {
                return;
            }
        }
    }

    /// Whether fewer than so many seconds have passed.
    fn is_within(&self, start: Instant, seconds: u64) -> bool {
        match start.elapsed(&self.clock) {
            Ok(spent) => spent < Duration::from_secs(seconds),
            Err(_) => false,
        }
    }
}

/// Whether the stream now sends at once, a read of it waits no longer than this time, and a write no longer than the limit of
/// links.
fn is_limited<S: OpenStream>(stream: &S, wait: Duration) -> bool {
    stream.set_nodelay(true).is_ok()
        && stream.set_read_timeout(Some(wait)).is_ok()
        && stream
            .set_write_timeout(Some(Duration::from_secs(LINK_SECONDS)))
            .is_ok()
}

/// Reads once, and again where a signal cut the read short. None where nothing came within the time that a read waits.
fn read_once<S: Read>(stream: &mut S, into: &mut [u8]) -> Result<Option<usize>, Failed>
    ensures { IfOk result (λ some. IfSome some (λ n. n ≤ length into.new)) }
{
    for _ in 0..TRIES {
        match stream.read(into) {
            Ok(count) => return Ok(Some(count)),
            Err(fault) => match fault.kind() {
                ErrorKind::Interrupted => {}
                ErrorKind::WouldBlock | ErrorKind::TimedOut => return Ok(None),
                _ => return Err(Failed),
            },
        }
    }
    Err(Failed)
}

/// Writes once, and again where a signal cut the write short. The answer is the number of bytes taken, at least one.
fn write_once<S: Write>(stream: &mut S, bytes: &[u8]) -> Option<usize>
    ensures { IfSome result (λ n. (0 < n) × (n ≤ length bytes.now)) }
{
    for _ in 0..TRIES {
        match stream.write(bytes) {
            Ok(0) => return None,
            Ok(count) => return Some(count),
            Err(fault) => {
                if !matches!(fault.kind(), ErrorKind::Interrupted) {
                    return None;
                }
            }
        }
    }
    None
}
