//! What is reported to people in fixed lines: why a run ended, and that a server listens.

use ofx_types::{Note, Status, Told};
use std::io;

/// A status alone.
pub fn plain(status: u8) -> Told {
    Told {
        status: Status(status),
        note: Note::Plain,
    }
}

/// Prints on the error stream why a run ended, by its fixed first line, and answers the status.
pub fn report(rt: &impl Eprint, end: Told) -> u8 {
    let _ = report_cause(rt, end);
    end.status.0
}

/// Prints the line for an end. None where all went well.
fn report_cause(rt: &impl Eprint, end: Told) -> io::Result<()> {
    match (end.status.0, end.note) {
        (2, _) => rt.eprintln("usage"),
        (3, Note::Place(line)) => eprintln!(rt; "setup line {line}"),
        (4, Note::Place(offset)) => eprintln!(rt; "frame at {offset}"),
        (5, _) => rt.eprintln("read failed"),
        (6, _) => rt.eprintln("write failed"),
        (7, _) => rt.eprintln("no memory"),
        (8, _) => rt.eprintln("keeper failed"),
        (9, Note::Record(number, at)) => eprintln!(rt; "record {number} at {at}"),
        (9, Note::Illegal(number)) => eprintln!(rt; "record {number} illegal"),
        (10, Note::NoUser) => rt.eprintln("no user"),
        (10, Note::Full) => rt.eprintln("full"),
        _ => Ok(()),
    }
}

/// Prints on the error stream that the server listens: where, for which setup, and from how many records the bank opened. The first
/// line is empty, since the first line of a run that fails says why.
pub fn report_listening(rt: &impl Eprint, port: u16, setup: &str, records: &str, count: u64) {
    let _ = report_address(rt, port, setup);
    let _ = report_records(rt, records, count);
}

fn report_address(rt: &impl Eprint, port: u16, setup: &str) -> io::Result<()> {
    eprintln!(rt; "\nlistens at http://127.0.0.1:{port}/ofx\nsetup {setup}")
}

fn report_records(rt: &impl Eprint, records: &str, count: u64) -> io::Result<()> {
    match (records, count) {
        ("-", _) => rt.eprintln("records in memory, for this run alone"),
        (path, 0) => eprintln!(rt; "records {path}, new"),
        (path, count) => eprintln!(rt; "records {path}, opened from {count}"),
    }
}

/// Prints on the error stream that fewer files may be open than so many workers need.
pub fn report_too_few_files(rt: &impl Eprint, most: u64, workers: u32, needed: u64) {
    let _ = report_files(rt, most, workers, needed);
}

fn report_files(rt: &impl Eprint, most: u64, workers: u32, needed: u64) -> io::Result<()> {
    eprintln!(rt;
        "warning: {most} files may be open, and {workers} workers can need {needed}; raise the limit (ulimit -n), or take fewer workers"
    )
}

/// Prints on the error stream how many links were served.
pub fn report_served(rt: &impl Eprint, links: u64) {
    let _ = report_links(rt, links);
}

fn report_links(rt: &impl Eprint, links: u64) -> io::Result<()> {
    eprintln!(rt; "served {links} links")
}
