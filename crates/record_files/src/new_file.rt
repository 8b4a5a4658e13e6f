//! Whether a path has no records yet, so that a run makes their file.

use crate::cause::Cause;
use std::alloc::AllocError;
use std::fs;
use std::io::ErrorKind;

/// The most bytes of an SQLite file that counts as new.
const BLANK_BYTES: u64 = 1;

/// The most bytes of a log that has nothing in it.
const EMPTY_LOG_BYTES: u64 = 41;

/// Whether nothing is at this path of `disk:PATH`, or an empty file.
pub fn is_new_on_disk(rt: &HostRuntime, path: &str) -> bool {
    has_at_most(rt, path, 0)
}

/// Whether nothing is at this path of an SQLite file, or a file and a log beside it that have nothing in them.
pub fn is_new_sqlite(rt: &HostRuntime, path: &str) -> Result<bool, Cause> {
    if !has_at_most(rt, path, BLANK_BYTES) {
        return Ok(false);
    }
    match log_of(rt, path) {
        Ok(log) => Ok(has_at_most(rt, log.as_str(), EMPTY_LOG_BYTES)),
        Err(_) => Err(Cause::NoMemory),
    }
}

/// The path of the log beside an SQLite file.
fn log_of(rt: &HostRuntime, path: &str) -> Result<String, AllocError> {
    match fs::canonicalize(rt, path) {
        Ok(real) => format!(in rt.alloc(); "{}-wal", real.as_str()),
        Err(_) => format!(in rt.alloc(); "{path}-wal"),
    }
}

/// Whether nothing is at this path, or a file of at most so many bytes.
fn has_at_most(rt: &HostRuntime, path: &str, most: u64) -> bool {
    match fs::metadata(rt, path) {
        Ok(found) => found.is_file() && found.len() <= most,
        Err(error) => matches!(error.kind(), ErrorKind::NotFound),
    }
}
