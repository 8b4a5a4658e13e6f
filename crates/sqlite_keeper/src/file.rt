//! An open file of records: its statements, and what each does.

ghost use Rattle.std.specs.Prelude.{◌≡◌, OnErr};

use crate::refusal::Refusal;
use crate::table::{Prepared, Table, prepare};
use sqlite::types::ValueRef;
use sqlite::{Connection, File, FileStore, Files, Row, Statement, params};
use std::fs;

/// A database in a file that has the table of records, with its statements compiled.
///
/// Each call of it enters the code of a database once, at the type of files: what that type owes is proved anew at each entry.
pub struct RecordFile {
    database: Connection<FileStore<File>>,
    append: Statement,
    fetch: Statement,
}

// It is written out, so that a caller does not prove again how each part is dropped.
impl Drop for RecordFile {
    fn drop(self) {
        let RecordFile {
            database: _,
            append: _,
            fetch: _,
        } = self;
    }
}

impl RecordFile {
    /// Opens the file, with the greatest number of a record in it, 0 where there is none. A file that isn't there is made, with
    /// the table in it.
    pub fn open(rt: &HostRuntime, path: &str) -> Result<(RecordFile, u64), Refusal> {
        RecordFile::at(rt, path, Table::MayBeMade)
    }

    /// Opens the file again. One that isn't there is not made.
    pub fn reopen(rt: &HostRuntime, path: &str) -> Result<(RecordFile, u64), Refusal> {
        if fs::metadata(rt, path).is_err() {
            return Err(Refusal::Failed);
        }
        RecordFile::at(rt, path, Table::IsThere)
    }

    fn at(rt: &HostRuntime, path: &str, table: Table) -> Result<(RecordFile, u64), Refusal> {
        let Prepared {
            database,
            append,
            fetch,
            greatest,
        } = prepare(Connection::open(rt, path)?, table)?;
        let file = RecordFile {
            database,
            append,
            fetch,
        };
        Ok((file, greatest))
    }

    /// Writes a record under this number, which has to be free. It is on the disk when the call returns.
    pub fn append(&mut self, number: i64, bytes: &[u8]) -> Result<(), Refusal> {
        self.append
            .execute(&mut self.database, params![number, bytes])?;
        Ok(())
    }

    /// Puts the bytes of the record of this number after those in `into`.
    pub fn fetch(&mut self, number: i64, into: &mut Vec<u8>) -> Result<(), Refusal>
        ensures { OnErr result (into.new.items ≡ into.old.items) }
    {
        let row = self.fetch.query_row(&mut self.database, params![number])?;
        copy_bytes(&row, into)
    }

    /// The database and its log, still open and locked. Nothing is written.
    pub fn into_files(self) -> Files<File> {
        let RecordFile {
            database,
            append: _,
            fetch: _,
        } = self;
        database.into_store().close()
    }

    /// Copies what waits in the log into the database, where that can be done, and closes both.
    pub fn close(self) {
        let RecordFile {
            database,
            append: _,
            fetch: _,
        } = self;
        let _ = database.close();
    }
}

fn copy_bytes(row: &Row, into: &mut Vec<u8>) -> Result<(), Refusal>
    ensures { OnErr result (into.new.items ≡ into.old.items) }
{
    match row.get_ref(0)? {
        ValueRef::Blob(bytes) => Ok(into.extend_from_slice(bytes)?),
        _ => Err(Refusal::Failed),
    }
}
