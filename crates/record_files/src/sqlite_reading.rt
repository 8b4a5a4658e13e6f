//! Reading an SQLite file of records without writing: its bytes and those of its log are copied, and the copy is opened in memory.

use crate::cause::Cause;
use crate::database::cause_of_sqlite;
use crate::looking::cause_of;
use crate::reading::{ReadRecords, bytes_if_there, bytes_of, open_to_read};
use crate::setup_table::{Found, found_without_writing};
use os::RangeLock;
use sqlite::{Alter, Connection, Error, ErrorCode, FileStore, Files, Options, Rows};
use sqlite_disk::{Disk, Memory};
use std::alloc::{AllocError, Global};
use std::fs;
use std::os::fd::AsRawFd;

/// Where SQLite's locks of a file begin.
const LOCKS: u64 = 1 << 30;

/// How many bytes these locks have.
const LOCKED: u64 = 512;

const RECORDS: &str = "SELECT number, bytes FROM records ORDER BY number";

/// A database in memory.
type Database = Connection<FileStore<Memory>>;

/// The records in the file at this path, and the text of the setup to which they are bound. Nothing is written.
pub fn read_sqlite(rt: &HostRuntime, path: &str) -> Result<ReadRecords, Cause> {
    let mut file = open_to_read(rt, path)?;
    if os::try_lock_range(file.as_raw_fd(), RangeLock::Exclusive, LOCKS, LOCKED) != 0 {
        return Err(Cause::Held);
    }
    let log = log_bytes(rt, path)?;
    let bytes = bytes_of(rt, &mut file)?;
    match read_copy(rt.alloc(), bytes.as_slice(), log.as_slice()) {
        Ok(found) => found,
        Err(error) => Err(cause_of_sqlite(rt, path, error)),
    }
}

/// The bytes of the log beside the file to which a path leads. None where it has none.
fn log_bytes(rt: &HostRuntime, path: &str) -> Result<Vec<u8>, Cause> {
    let real = match fs::canonicalize(rt, path) {
        Ok(real) => real,
        Err(error) => return Err(cause_of(error)),
    };
    match format!(in rt.alloc(); "{}-wal", real.as_str()) {
        Ok(log) => bytes_if_there(rt, log.as_str()),
        Err(_) => Err(Cause::NoMemory),
    }
}

/// What is in a database of these bytes and of this log.
fn read_copy(alloc: Global, bytes: &[u8], log: &[u8]) -> Result<Result<ReadRecords, Cause>, Error> {
    read_all(alloc, opened(alloc, bytes, log)?)
}

fn opened(alloc: Global, bytes: &[u8], log: &[u8]) -> Result<Database, Error> {
    let files = Files {
        log: memory_of(alloc, log)?,
        db: memory_of(alloc, bytes)?,
    };
    if !files.may_be_used() {
        return Err(Error::SqliteFailure(ErrorCode::SystemIoFailure));
    }
    match Connection::open_files(alloc, files, Options::new(0)) {
        Ok(database) => Ok(database),
        Err((error, _)) => Err(error),
    }
}

/// A disk in memory with these bytes.
fn memory_of(alloc: Global, bytes: &[u8]) -> Result<Memory, AllocError> {
    let mut memory = Memory::new(alloc);
    if !bytes.is_empty() && memory.write_at(0, bytes).is_err() {
        return Err(AllocError);
    }
    Ok(memory)
}

/// The records of a database, and the text to which they are bound. A record that is missing is a cause.
fn read_all<S: Alter + Drop>(
    alloc: Global,
    database: Connection<S>,
) -> Result<Result<ReadRecords, Cause>, Error> {
    let mut database = database;
    match found_without_writing(&mut database)? {
        Found::Other => Ok(Err(Cause::OtherDatabase)),
        Found::Nothing => Ok(Ok(ReadRecords::none(alloc))),
        Found::Unbound => records_in(&mut database, ReadRecords::none(alloc)),
        Found::Lines(lines) => records_in(&mut database, ReadRecords::bound(alloc, lines)),
    }
}

/// Puts the records of a database into these, which have none yet.
fn records_in<S: Alter>(
    database: &mut Connection<S>,
    records: ReadRecords,
) -> Result<Result<ReadRecords, Cause>, Error> {
    let mut records = records;
    let mut rows = database.query(RECORDS, &[])?;
    for _ in 0..u64::MAX {
        let wanted = records.count().saturating_add(1);
        match next_record(&mut rows, wanted)? {
            Next::Record(bytes) => records.put(bytes)?,
            Next::Gap => return Ok(Err(Cause::Gap(wanted))),
            Next::End => break,
        }
    }
    Ok(Ok(records))
}

/// What is where the record of a number is looked for.
#[derive(Drop)]
enum Next {
    /// It.
    Record(Vec<u8>),
    /// A later one.
    Gap,
    /// Nothing.
    End,
}

fn next_record<S: Alter>(rows: &mut Rows<'_, S>, wanted: u64) -> Result<Next, Error> {
    let Some(row) = rows.next()? else {
        return Ok(Next::End);
    };
    let number: i64 = row.get(0)?;
    if u64::try_from(number) != Ok(wanted) {
        return Ok(Next::Gap);
    }
    Ok(Next::Record(row.get(1)?))
}
