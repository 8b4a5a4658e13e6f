//! What is reported to people after the fixed first line of an end: where, why, and what to do.

use crate::end::PortFault;
use crate::files::Files;
use crate::keepers::ON_DISK;
use crate::setup_file::SetupFile;
use bank_arguments::Command;
use ofx_types::{Note, Told};
use record_files::{
    Cause, is_open_to_others, open_on_disk, wanted_in, why_stopped_on_disk, why_stopped_on_sqlite,
};
use std::io;

/// Prints on the error stream where and why a run ended that has printed its first line. `cause` is why its records weren't
/// opened, or were kept no more.
pub fn report_why(
    rt: &HostRuntime,
    end: Told,
    command: Command<'_>,
    files: Files<'_>,
    setup: &SetupFile,
    cause: Option<Cause>,
) {
    let _ = match end.status.0 {
        3 => report_setup(rt, end.note, files.setup, setup),
        4 => report_input(rt, command),
        5 if cause.is_some() => report_records(rt, files, cause),
        5 => report_read(rt, command, files.setup, setup),
        6 => rt.eprintln(
            "standard output: it can't be written; the disk is full, or its reader is gone",
        ),
        8 => report_records(rt, files, cause),
        9 => report_record(rt, end.note, files.records_word()),
        10 => report_letter(rt, end.note, command, files.setup),
        _ => Ok(()),
    };
}

/// Says what is wrong with the setup at a path.
fn report_setup(rt: &HostRuntime, note: Note, path: &str, setup: &SetupFile) -> io::Result<()> {
    match note {
        Note::Place(line) => {
            let wanted = wanted_in(setup.bytes(), line);
            eprintln!(rt; "{path}: line {line}: {wanted}")
        }
        _ => Ok(()),
    }
}

/// Says why no letter can be written, for the setup at a path.
fn report_letter(rt: &HostRuntime, note: Note, command: Command<'_>, path: &str) -> io::Result<()> {
    match (note, command) {
        (Note::NoUser, Command::Mail(letter)) => {
            let user = str::from_utf8(letter.name.as_bytes()).unwrap_or("");
            eprintln!(rt; "{path}: no line USER has the name '{user}'")
        }
        (Note::Full, _) => {
            eprintln!(rt; "{path}: all numbers that its line ENTRIES allows are given")
        }
        _ => Ok(()),
    }
}

/// Says what the standard input wants.
fn report_input(rt: &HostRuntime, command: Command<'_>) -> io::Result<()> {
    match command {
        Command::Mail(_) => rt.eprintln(
            "standard input: a letter has 1 to 10000 bytes, and of those below a blank only tab, CR and LF",
        ),
        _ => rt.eprintln(
            "standard input: a frame is a line FILE and a number up to 262144, and so many bytes, or a line DUE",
        ),
    }
}

/// Says what couldn't be read.
fn report_read(
    rt: &HostRuntime,
    command: Command<'_>,
    path: &str,
    setup: &SetupFile,
) -> io::Result<()> {
    match setup.cause() {
        Some(Cause::NoRights) => return eprintln!(rt; "{path}: no rights to read it"),
        Some(cause) => return eprintln!(rt; "{path}: {cause}"),
        None => {}
    }
    match command {
        Command::Serve(plan) => {
            let port = plan.port;
            eprintln!(rt;
                "port {port}: no more connections can be taken; its listener has failed, see the log above"
            )
        }
        _ => rt.eprintln("standard input: it can't be read; it may be a folder, or closed"),
    }
}

/// Says why a port can't be had.
pub fn report_port(rt: &HostRuntime, port: u16, fault: PortFault) {
    let _ = match fault {
        PortFault::Busy => eprintln!(rt;
            "port {port}: another program has it; end that first, or take another port"
        ),
        PortFault::NoRights => eprintln!(rt;
            "port {port}: no rights to it; below 1024 they are the system's: take a greater one, with a proxy in front"
        ),
        PortFault::Other => eprintln!(rt;
            "port {port}: it can't be had; too many files may be open"
        ),
    };
}

/// Tells why the records failed.
fn report_records(rt: &HostRuntime, files: Files<'_>, cause: Option<Cause>) -> io::Result<()> {
    let path = files.records_word();
    match cause {
        Some(cause) => report_cause(rt, path, Some(cause)),
        None => report_cause(rt, path, stopped_cause(rt, path)),
    }
}

fn report_cause(rt: &HostRuntime, path: &str, cause: Option<Cause>) -> io::Result<()> {
    match cause {
        Some(cause) => eprintln!(rt; "{path}: {cause}"),
        None => eprintln!(rt;
            "{path}: the disk failed; look into the system's log, and start again"
        ),
    }
}

/// Why records failed that were opened, by a look at them now.
fn stopped_cause(rt: &HostRuntime, path: &str) -> Option<Cause> {
    match path.strip_prefix(ON_DISK) {
        Some(file) => match open_on_disk(rt, file) {
            Ok(_) => why_stopped_on_disk(rt, file),
            Err(cause) => Some(cause),
        },
        None => why_stopped_on_sqlite(rt, path),
    }
}

/// Says what is wrong with a record.
fn report_record(rt: &HostRuntime, note: Note, path: &str) -> io::Result<()> {
    match note {
        Note::Record(number, at) => {
            eprintln!(rt;
                "{path}: record {number} codes no event, by its byte {at}; it is damaged or of another program: restore a copy"
            )
        }
        Note::Illegal(number) => {
            eprintln!(rt;
                "{path}: record {number} can't have happened at the bank of this setup; run it with the setup that it began with"
            )
        }
        _ => Ok(()),
    }
}

/// Says on the error stream, behind an empty line, that a run made the file of its records.
pub fn report_new_records(rt: &HostRuntime, files: Files<'_>) {
    let path = files.records_word();
    let _ = eprintln!(rt;
        "\nrecords {path}, new: there were none; if there should be, the path is wrong, or a disk isn't mounted"
    );
}

/// Says on the error stream where the setup or the records can be read by others. After a run that reported nothing an empty
/// line comes first, since the first line is that of a run that failed.
pub fn report_open_files(rt: &HostRuntime, files: Files<'_>, is_first: bool) {
    let setup = files.setup;
    let records = files.records_word();
    let file = records.strip_prefix(ON_DISK).unwrap_or(records);
    let is_setup_open = is_open_to_others(rt, setup);
    let are_records_open = records != "-" && is_open_to_others(rt, file);
    if is_first && (is_setup_open || are_records_open) {
        let _ = rt.eprintln("");
    }
    if is_setup_open {
        let _ = report_open_setup(rt, setup);
    }
    if are_records_open {
        let _ = report_open_records(rt, file);
    }
}

fn report_open_setup(rt: &HostRuntime, path: &str) -> io::Result<()> {
    eprintln!(rt; "warning: {path}: others can read it, and it has the passwords; chmod 600 {path}")
}

fn report_open_records(rt: &HostRuntime, path: &str) -> io::Result<()> {
    eprintln!(rt;
        "warning: {path}: others can read it, and it has all that the bank knows; chmod 600 {path}"
    )
}
