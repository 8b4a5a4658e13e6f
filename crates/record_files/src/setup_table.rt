//! The second table of an SQLite database of records: the setup to which they are bound. Each call serves any store, so that
//! what is proved of it is proved once.

use sqlite::{Alter, Connection, Error, params};
use sqlite_keeper::{RECORDS_TABLE, greatest_number, has_records_table, has_table, is_blank};

/// The table with the one row that has the setup's text without passwords.
const SETUP_TABLE: &str = "CREATE TABLE setup (lines TEXT NOT NULL) STRICT";

const PUT: &str = "INSERT INTO setup (lines) VALUES (?1)";

const LINES: &str = "SELECT lines FROM setup";

/// What a database of records has in it.
#[derive(Drop)]
pub enum Found {
    /// Nothing.
    Nothing,
    /// Another program's tables.
    Other,
    /// Records that are bound to no setup.
    Unbound,
    /// Records that are bound to the setup of this text.
    Lines(String),
}

/// Which records are bound to the setup that is given.
#[derive(Clone, Copy)]
pub enum Binds {
    /// New ones, and those of a table without records.
    New,
    /// All that are bound to none.
    All,
}

/// What a database has in it, after these records were bound to the setup of this text, where they were bound to none.
pub fn found_bound<S: Alter>(
    database: &mut Connection<S>,
    lines: &str,
    binds: Binds,
) -> Result<Found, Error> {
    match binds {
        Binds::New => found_in(database, lines),
        Binds::All => bound_in(database, lines),
    }
}

/// What a database has in it. Nothing is written.
pub fn found_without_writing<S: Alter>(database: &mut Connection<S>) -> Result<Found, Error> {
    if is_blank(database)? {
        return Ok(Found::Nothing);
    }
    if !has_records_table(database)? {
        return Ok(Found::Other);
    }
    if !has_setup_table(database)? {
        return Ok(Found::Unbound);
    }
    lines_in(database)
}

/// What a database has in it, where one with nothing in it is made to one that is bound.
fn found_in<S: Alter>(database: &mut Connection<S>, lines: &str) -> Result<Found, Error> {
    match found_without_writing(database)? {
        Found::Nothing => make(database, lines),
        Found::Unbound => unbound_in(database, lines),
        found => Ok(found),
    }
}

/// What is found in records that are bound to no setup. Where there are none yet, they are bound.
fn unbound_in<S: Alter>(database: &mut Connection<S>, lines: &str) -> Result<Found, Error> {
    match greatest_number(database)? {
        Some(_) => Ok(Found::Unbound),
        None => bound_in(database, lines),
    }
}

/// Binds records where they are bound to no setup, and finds the text to which they are bound.
fn bound_in<S: Alter>(database: &mut Connection<S>, lines: &str) -> Result<Found, Error> {
    if !has_setup_table(database)? {
        database.execute_batch("BEGIN")?;
        bind(database, lines)?;
    }
    lines_in(database)
}

/// Makes both tables, by one step.
fn make<S: Alter>(database: &mut Connection<S>, lines: &str) -> Result<Found, Error> {
    database.execute_batch("BEGIN")?;
    database.execute_batch(RECORDS_TABLE)?;
    bind(database, lines)?;
    lines_in(database)
}

/// Makes the table of the setup, puts its row, and ends the step that has begun.
fn bind<S: Alter>(database: &mut Connection<S>, lines: &str) -> Result<(), Error> {
    database.execute_batch(SETUP_TABLE)?;
    database.execute(PUT, params![lines])?;
    database.execute_batch("COMMIT")
}

fn has_setup_table<S: Alter>(database: &mut Connection<S>) -> Result<bool, Error> {
    has_table(database, "setup", SETUP_TABLE)
}

fn lines_in<S: Alter>(database: &mut Connection<S>) -> Result<Found, Error> {
    let lines: String = database.query_row(LINES, &[])?.get(0)?;
    Ok(Found::Lines(lines))
}
