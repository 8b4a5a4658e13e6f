//! The table `records` of a file of records, and how it is found or made in a database. Each call serves any store, so that
//! what is proved of it is proved once.

use crate::refusal::Refusal;
use sqlite::{Alter, Connection, Error, Statement, params};

/// The table: a record's number, counted from 1, and its bytes.
pub const RECORDS_TABLE: &str =
    "CREATE TABLE records (number INTEGER PRIMARY KEY, bytes BLOB NOT NULL) STRICT";

// Appends the record of a number that no row has.
const APPEND: &str = "INSERT INTO records (number, bytes) VALUES (?1, ?2)";

// The bytes of the record of this number.
const FETCH: &str = "SELECT bytes FROM records WHERE number = ?1";

// The greatest number, or NULL where there is no record.
const GREATEST: &str = "SELECT max(number) FROM records";

// How many tables of this name are defined by this text: none or one.
const TABLES: &str =
    "SELECT count(*) FROM sqlite_schema WHERE type = 'table' AND name = ?1 AND sql = ?2";

// How many tables and other objects the database has.
const OBJECTS: &str = "SELECT count(*) FROM sqlite_schema";

/// Whether the database has nothing in it.
pub fn is_blank<S: Alter>(database: &mut Connection<S>) -> Result<bool, Error> {
    let objects: i64 = database.query_row(OBJECTS, &[])?.get(0)?;
    Ok(objects == 0)
}

/// Whether the database has a table of this name, made by just this text.
pub fn has_table<S: Alter>(
    database: &mut Connection<S>,
    name: &str,
    definition: &str,
) -> Result<bool, Error> {
    let tables: i64 = database
        .query_row(TABLES, params![name, definition])?
        .get(0)?;
    Ok(tables != 0)
}

/// Whether the database has the table of records, as this crate makes it.
pub fn has_records_table<S: Alter>(database: &mut Connection<S>) -> Result<bool, Error> {
    has_table(database, "records", RECORDS_TABLE)
}

/// The greatest number of a record. None where there is no record.
pub fn greatest_number<S: Alter>(database: &mut Connection<S>) -> Result<Option<i64>, Error> {
    database.query_row(GREATEST, &[])?.get(0)
}

/// Whether a database that has nothing in it yet gets the table.
#[derive(Clone, Copy)]
pub enum Table {
    /// It gets it.
    MayBeMade,
    /// It is refused, as another program's is.
    IsThere,
}

/// A database of records, with its statements compiled.
pub struct Prepared<S: Alter + Drop> {
    pub database: Connection<S>,
    pub append: Statement,
    pub fetch: Statement,
    /// The greatest number of a record, 0 where there is none.
    pub greatest: u64,
}

/// Finds the table, or makes it where that may be, and compiles the statements. A database that has other things and not this
/// table is another program's, and is refused before anything is written. Indices and views beside the table are let be.
pub fn prepare<S: Alter + Drop>(
    database: Connection<S>,
    table: Table,
) -> Result<Prepared<S>, Refusal> {
    let mut database = database;
    find_or_make(&mut database, table)?;
    let greatest = greatest_number(&mut database)?.unwrap_or(0);
    let Ok(greatest) = u64::try_from(greatest) else {
        return Err(Refusal::Failed);
    };
    let append = database.prepare(APPEND)?;
    let fetch = database.prepare(FETCH)?;
    Ok(Prepared {
        database,
        append,
        fetch,
        greatest,
    })
}

fn find_or_make<S: Alter>(database: &mut Connection<S>, table: Table) -> Result<(), Refusal> {
    if matches!(table, Table::MayBeMade) && is_blank(database)? {
        database.execute(RECORDS_TABLE, &[])?;
        return Ok(());
    }
    if has_records_table(database)? {
        Ok(())
    } else {
        Err(Refusal::Failed)
    }
}
