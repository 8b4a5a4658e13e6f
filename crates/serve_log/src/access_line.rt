//! The line of an exchange.

use crate::reply::{KIND_COUNT, KINDS, ReplyNote, Signon};
use crate::stamp::Stamp;
use std::fmt;
use std::time::Duration;

/// The most bytes of a user's name that are shown: as many as one has.
const MAX_NAME: usize = 32;

/// The line of an exchange: names and values with `=` between, in this order, and a blank between two of them.
#[derive(Clone, Copy, Debug)]
pub(crate) struct AccessLine<'a> {
    /// The moment.
    pub(crate) stamp: Stamp,
    /// The worker's number, and that of the link among its own.
    pub(crate) worker: u32,
    pub(crate) link: u64,
    /// What the reply tells.
    pub(crate) note: ReplyNote,
    /// How many bytes came.
    pub(crate) taken: u64,
    /// How many bytes of the reply couldn't be written.
    pub(crate) unwritten: u64,
    /// The user who signed on, where it is known.
    pub(crate) user: Option<&'a [u8]>,
    /// How long it took from the request's last byte to the reply's.
    pub(crate) time: Option<Duration>,
}

impl fmt::Display for AccessLine<'_> {
    fn fmt<W: fmt::Write>(&self, f: &mut fmt::Formatter<W>) -> fmt::Result {
        let (stamp, worker, link) = (self.stamp, self.worker, self.link);
        let level = if self.note.is_warning() {
            "warn"
        } else {
            "info"
        };
        write!(f, "at={stamp} level={level} link={worker}.{link}")?;
        let (status, taken, size) = (self.note.status, self.taken, self.note.size);
        write!(f, " status={status} in={taken} out={size}")?;
        if self.unwritten > 0 {
            let unwritten = self.unwritten;
            write!(f, " unwritten={unwritten}")?;
        }
        write_user(f, self.note.signon, self.user)?;
        write_asks(f, &self.note.asks)?;
        if let Some(time) = self.time {
            let micros = time.as_micros();
            write!(f, " us={micros}")?;
        }
        Ok(())
    }
}

/// Who signed on, or that nobody could.
fn write_user<W: fmt::Write>(
    f: &mut fmt::Formatter<W>,
    signon: Signon,
    user: Option<&[u8]>,
) -> fmt::Result {
    match (signon, user) {
        (Signon::Absent, _) => Ok(()),
        (Signon::Refused, _) => f.write_str(" signon=refused"),
        (Signon::Taken, None) => f.write_str(" user=?"),
        (Signon::Taken, Some(name)) => {
            f.write_str(" user=")?;
            write_name(f, name)
        }
    }
}

/// A name, of which bytes that may end a value are shown by their numbers.
fn write_name<W: fmt::Write>(f: &mut fmt::Formatter<W>, name: &[u8]) -> fmt::Result {
    for byte in name.iter().take(MAX_NAME) {
        match *byte {
            b'!' | b'#'..=b'<' | b'>'..=b'[' | b']'..=b'~' => f.write_char(*byte as char)?,
            byte => write!(f, "\\x{byte:02x}")?,
        }
    }
    Ok(())
}

/// How many asks of each kind were answered, of those of which there were any.
fn write_asks<W: fmt::Write>(f: &mut fmt::Formatter<W>, asks: &[u32; KIND_COUNT]) -> fmt::Result {
    for index in 0..KIND_COUNT {
        let (name, count) = (KINDS[index].2, asks[index]);
        if count > 0 {
            write!(f, " {name}={count}")?;
        }
    }
    Ok(())
}
