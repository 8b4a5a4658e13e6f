//! An SQLite file of records, opened to bind it to a setup, and why one can't be opened.
//!
//! Each call opens the file for itself and closes it, so no keeper may have it open.

use crate::cause::{Binding, Cause, compared};
use crate::looking::{cause_at, cause_of};
use crate::setup_table::{Binds, Found, found_bound};
use sqlite::{Connection, Error, ErrorCode};
use std::fs::OpenOptions;
use std::io::ErrorKind;
use std::os::unix::fs::OpenOptionsExt;
use std::{fs, io};

/// Whom a new file is for: its owner alone.
const MODE: u32 = 0o600;

/// Whether the records in the file at this path are bound to a setup. A file that isn't there or is empty is made, for its
/// owner alone, and bound to this one, whose text without passwords is `lines`; so is one without records.
pub fn find_sqlite(rt: &HostRuntime, path: &str, lines: &str) -> Result<Binding, Cause> {
    if path.is_empty() || path == ":memory:" || path.starts_with("file:") {
        return Err(Cause::NoPath);
    }
    if let Err(error) = make_private(rt, path) {
        return Err(cause_at(rt, path).unwrap_or(cause_of(error)));
    }
    bound_at(rt, path, lines, Binds::New)
}

/// Binds the records in the file at this path to a setup, where they are bound to none. An error where they are bound to
/// another one.
pub fn bind_sqlite(rt: &HostRuntime, path: &str, lines: &str) -> Result<(), Cause> {
    bound_at(rt, path, lines, Binds::All)?;
    Ok(())
}

/// Whether the records in the file at this path are bound to a setup, after these were bound. Nothing but this and
/// `first_gap` enters the code of a database in a file.
fn bound_at(rt: &HostRuntime, path: &str, lines: &str, binds: Binds) -> Result<Binding, Cause> {
    let mut database = match Connection::open(rt, path) {
        Ok(database) => database,
        Err(error) => return Err(cause_of_sqlite(rt, path, error)),
    };
    let found = found_bound(&mut database, lines, binds);
    let closed = database.close();
    match (found, closed) {
        (Ok(found), Ok(())) => judged(rt, found, lines),
        (Err(error), _) | (_, Err(error)) => Err(cause_of_sqlite(rt, path, error)),
    }
}

/// Makes the file at this path where nothing is there.
fn make_private(rt: &HostRuntime, path: &str) -> io::Result<()> {
    let mut options = OpenOptions::new();
    options.write(true).create_new(true).mode(MODE);
    match options.open(rt, path) {
        Ok(_) => Ok(()),
        Err(error) if matches!(error.kind(), ErrorKind::AlreadyExists) => Ok(()),
        Err(error) => Err(error),
    }
}

/// What was found, beside the lines of the setup that is given.
fn judged(rt: &HostRuntime, found: Found, lines: &str) -> Result<Binding, Cause> {
    match found {
        Found::Other | Found::Nothing => Err(Cause::OtherDatabase),
        Found::Unbound => Ok(Binding::Unbound),
        Found::Lines(began) => compared(rt.alloc(), began.as_str(), lines),
    }
}

/// The cause that an error of the database tells, with a look at the path.
pub fn cause_of_sqlite(rt: &HostRuntime, path: &str, error: Error) -> Cause {
    let Error::SqliteFailure(code) = error else {
        return Cause::OtherDatabase;
    };
    match code {
        ErrorCode::DatabaseBusy => Cause::Held,
        ErrorCode::OutOfMemory => Cause::NoMemory,
        ErrorCode::DiskFull => Cause::Full,
        ErrorCode::NotADatabase | ErrorCode::DatabaseCorrupt => Cause::NoDatabase,
        ErrorCode::SystemIoFailure | ErrorCode::Closed => Cause::Failed,
        ErrorCode::CannotOpen => unopened_cause(rt, path),
        _ => Cause::OtherDatabase,
    }
}

/// Why a database wasn't opened.
fn unopened_cause(rt: &HostRuntime, path: &str) -> Cause {
    if let Some(cause) = cause_at(rt, path) {
        return cause;
    }
    match format!(in rt.alloc(); "{path}-journal") {
        Ok(journal) if fs::metadata(rt, journal.as_str()).is_ok() => Cause::Journal,
        _ => Cause::NoRights,
    }
}
