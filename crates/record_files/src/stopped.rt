//! Why a run stopped whose records were opened: a gap among them, or a disk without room.

use crate::cause::Cause;
use crate::database::cause_of_sqlite;
use crate::looking::cause_of;
use sqlite::{Alter, Connection, Error};
use std::fs::OpenOptions;
use std::io::Write;
use std::os::unix::fs::OpenOptionsExt;
use std::{fs, io};

/// Whom the file is for by which room is looked for: its owner alone.
const MODE: u32 = 0o600;

/// How much room has to be left.
const ROOM: [u8; 16_384] = [0; 16_384];

const NUMBERS: &str = "SELECT number FROM records ORDER BY number";

/// Why a run stopped over the records in this SQLite file, which no keeper has open any more. None where nothing is found.
pub fn why_stopped_on_sqlite(rt: &HostRuntime, path: &str) -> Option<Cause> {
    match first_gap(rt, path) {
        Ok(Some(number)) => Some(Cause::Gap(number)),
        Ok(None) => why_stopped_on_disk(rt, path),
        Err(error) => Some(cause_of_sqlite(rt, path, error)),
    }
}

/// Why a run stopped over the records in a file at this path. None where nothing is found.
pub fn why_stopped_on_disk(rt: &HostRuntime, path: &str) -> Option<Cause> {
    match room_beside(rt, path) {
        Ok(()) => None,
        Err(error) => Some(cause_of(error)),
    }
}

/// The number of the first record that is missing from the file at this path.
fn first_gap(rt: &HostRuntime, path: &str) -> Result<Option<u64>, Error> {
    first_gap_in(Connection::open(rt, path)?)
}

/// The number of the first record that is missing.
fn first_gap_in<S: Alter + Drop>(database: Connection<S>) -> Result<Option<u64>, Error> {
    let mut database = database;
    let mut wanted = 1u64;
    let mut rows = database.query(NUMBERS, &[])?;
    for _ in 0..u64::MAX {
        let Some(row) = rows.next()? else {
            return Ok(None);
        };
        let number: i64 = row.get(0)?;
        if u64::try_from(number) != Ok(wanted) {
            return Ok(Some(wanted));
        }
        wanted = wanted.saturating_add(1);
    }
    Ok(None)
}

/// Whether a file can be made and written beside that of a path. It is gone again after the call.
fn room_beside(rt: &HostRuntime, path: &str) -> io::Result<()> {
    let trial = format!(in rt.alloc(); "{path}.room")?;
    let mut options = OpenOptions::new();
    options.write(true).create_new(true).mode(MODE);
    let mut file = options.open(rt, trial.as_str())?;
    let written = file.write_all(&ROOM);
    fs::remove_file(rt, trial.as_str())?;
    written
}
