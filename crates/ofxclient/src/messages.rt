//! What is reported to people: why a run ended, where, and what to do.

use crate::usage::usage_text;
use ofx_types::{Note, Status, Told};
use std::{fmt, io};

/// What `--version` prints.
pub const VERSION: &str = "ofxclient 0.2.0\n";

/// A status alone.
pub fn plain(status: u8) -> Told {
    Told {
        status: Status(status),
        note: Note::Plain,
    }
}

/// Prints on the error stream why a run ended, in a line.
pub fn report(rt: &impl Eprint, end: Told) {
    let _ = report_cause(rt, end);
}

/// Says how the program is used and, in the last line, what is wrong. Nothing where memory is refused for it.
pub fn report_usage<M: fmt::Display>(rt: &HostRuntime, mistake: &M) {
    if let Ok(text) = usage_text(rt.alloc()) {
        let _ = report_mistake(rt, &text, mistake);
    }
}

fn report_mistake<M: fmt::Display>(rt: &HostRuntime, text: &str, mistake: &M) -> io::Result<()> {
    eprintln!(rt; "{text}\n{mistake}")
}

/// A store that an order can't use.
#[derive(Clone, Copy)]
pub struct RefusedStore<'a>(pub &'a str);

impl fmt::Display for RefusedStore<'_> {
    fn fmt<W: fmt::Write>(&self, f: &mut fmt::Formatter<W>) -> fmt::Result {
        let store = self.0;
        write!(
            f,
            "{store} is another client's or another user's, or has no number left for a file: name its client, or another store"
        )
    }
}

/// Prints the line for an end. None where all went well.
fn report_cause(rt: &impl Eprint, end: Told) -> io::Result<()> {
    match (end.status.0, end.note) {
        (2, _) => rt.eprintln("usage"),
        (4, Note::Place(at)) => eprintln!(rt; "frame at {at}"),
        (5, _) => rt.eprintln("read failed"),
        (6, _) => rt.eprintln("write failed"),
        (7, _) => rt.eprintln("no memory"),
        (8, _) => rt.eprintln("keeper failed"),
        (11, Note::Place(code)) => eprintln!(rt; "http {code}"),
        (12, Note::Place(at)) => eprintln!(rt; "bad reply at {at}"),
        (12, Note::Shape(number)) => eprintln!(rt; "bad reply {number}"),
        (13, _) => rt.eprintln("not mine"),
        (14, Note::Place(code)) => eprintln!(rt; "signon {code}"),
        (15, Note::Place(at)) => eprintln!(rt; "store at {at}"),
        (16, _) => rt.eprintln("bad head"),
        (17, Note::Place(count)) => eprintln!(rt; "cut at {count}"),
        (18, Note::Place(id)) => eprintln!(rt; "no row {id}"),
        _ => Ok(()),
    }
}

/// How the link to the bank fared.
#[derive(Clone, Copy, PartialEq, Eq)]
pub enum LinkEnd {
    /// No write failed.
    Written,
    /// A write failed on a connection.
    Broken,
    /// Nobody answered.
    Unanswered,
}

/// Where a run was.
#[derive(Clone, Copy)]
pub struct Place<'a> {
    /// The port of the bank.
    pub port: u16,
    /// The name of the store.
    pub store: &'a str,
    /// How the link fared.
    pub link: LinkEnd,
}

/// Reports in a line where it was and what to do.
pub fn report_more(rt: &impl Eprint, end: Told, place: &Place<'_>) {
    let _ = match (end.status.0, end.note) {
        (6, _) => report_unwritten(rt, place),
        (11, Note::Place(code)) => report_code(rt, code, place.port),
        (status, _) => report_offset(rt, status, place.port, place.store),
    };
}

/// Says what took no more bytes: the bank, or the output.
fn report_unwritten(rt: &impl Eprint, place: &Place<'_>) -> io::Result<()> {
    let port = place.port;
    match place.link {
        LinkEnd::Unanswered => eprintln!(rt;
            "nobody answers at 127.0.0.1:{port}: see that the bank, or a tunnel to it, is there"
        ),
        LinkEnd::Broken => eprintln!(rt;
            "the bank at 127.0.0.1:{port} took no more of the file: see that it serves there"
        ),
        LinkEnd::Written => eprintln!(rt;
            "the standard output took no more: see to it; what was done is kept, and show prints it"
        ),
    }
}

/// Says what the code of a reply means.
fn report_code(rt: &impl Eprint, code: u64, port: u16) -> io::Result<()> {
    match code {
        400 => eprintln!(rt;
            "said the bank at 127.0.0.1:{port}, which can't read the file: nothing of it was done, and it is given up"
        ),
        _ => eprintln!(rt;
            "said the bank at 127.0.0.1:{port}, or a proxy before it: see that the bank serves there"
        ),
    }
}

fn report_offset(rt: &impl Eprint, status: u8, port: u16, store: &str) -> io::Result<()> {
    match status {
        5 => eprintln!(rt;
            "the bank at 127.0.0.1:{port} broke the connection off, or said nothing for 30 seconds: see that it serves there"
        ),
        8 => eprintln!(rt;
            "{store} can't be read or written: see that it is a file of yours, with room on its disk"
        ),
        12 | 13 | 16 => eprintln!(rt;
            "from 127.0.0.1:{port}, which isn't the answer to what was asked: see that the bank serves there"
        ),
        14 => eprintln!(rt; "said the bank at 127.0.0.1:{port}: see to USER and PASS"),
        15 => eprintln!(rt;
            "{store} is no store of this program, or was damaged: put it back as it was, or name another"
        ),
        17 => eprintln!(rt;
            "the bank at 127.0.0.1:{port} gave no whole reply: see that it serves there"
        ),
        18 => eprintln!(rt; "in {store}: show prints the rows that it has"),
        _ => Ok(()),
    }
}
