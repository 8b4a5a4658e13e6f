//! The rows of a log in memory.

ghost use Rattle.std.specs.Prelude.{◌≡◌, ◌+◌, ◌++◌, ◌<◌, ◌^◌, length, map, option_map, IfOk, OnOk, OnErr};
ghost use Rattle.postgres_model.specs.Engine.{record_at, is_taken, numbered};

use std::alloc::{AllocError, Global};
use std::marker::Model;

/// A row of the table of records.
#[derive(Drop)]
pub(crate) struct StoredRow {
    number: u64,
    bytes: Vec<u8>,
}

impl Model for StoredRow {
    ghost use Rattle.postgres_model.specs.Engine.{Row};

    ghost Value = { Row };

    ghost view = { λ r. record { number = r.number; bytes = r.bytes.items } };
}

impl StoredRow {
    fn new(alloc: Global, number: u64, bytes: &[u8]) -> Result<StoredRow, AllocError>
        ensures { IfOk result (λ r. r ≡ record { number = number; bytes = bytes.now }) }
    {
        Ok(StoredRow {
            number,
            bytes: bytes.to_vec(alloc)?,
        })
    }

    fn number(&self) -> u64
        ensures { result ≡ self.now.number }
    {
        self.number
    }

    fn bytes(&self) -> &[u8]
        ensures { result.now ≡ self.now.bytes }
    {
        &self.bytes
    }
}

/// The record of this number.
pub(crate) fn find(rows: &[StoredRow], number: u64) -> Option<&[u8]>
    ensures { option_map (λ r. r.now) result ≡ record_at number rows.now }
{
    for row in rows {
        if row.number() == number {
            return Some(row.bytes());
        }
    }
    None
}

/// Whether one of a group's numbers has a row.
pub(crate) fn is_any_taken(rows: &[StoredRow], first: u64, group: &[&[u8]]) -> bool
    requires { first + length group.now < 2 ^ 64 }
    ensures { result ≡ is_taken first (map (λ r. r.now) group.now) rows.now }
{
    for number in first..first + group.len() as u64 {
        if find(rows, number).is_some() {
            return true;
        }
    }
    false
}

/// Puts the rows of a group at the end. A refusal leaves the rows as they were.
pub(crate) fn insert(
    alloc: Global,
    rows: &mut Vec<StoredRow>,
    first: u64,
    group: &[&[u8]],
) -> Result<(), AllocError>
    requires { first + length group.now < 2 ^ 64 }
    ensures ok { OnOk result (rows.new.items ≡ rows.old.items ++ numbered first (map (λ r. r.now) group.now)) }
    ensures err { OnErr result (rows.new.items ≡ rows.old.items) }
{
    let mut added = rows_of(alloc, first, group)?;
    rows.append(&mut added)?;
    Ok(())
}

/// The rows of a group, numbered from the first on.
fn rows_of(alloc: Global, first: u64, group: &[&[u8]]) -> Result<Vec<StoredRow>, AllocError>
    requires { first + length group.now < 2 ^ 64 }
    ensures { IfOk result (λ rows. rows.items ≡ numbered first (map (λ r. r.now) group.now)) }
{
    let mut rows = Vec::new(alloc);
    let mut number = first;
    for bytes in group {
        let row = StoredRow::new(alloc, number, bytes)?;
        rows.push(row)?;
        number += 1;
    }
    Ok(rows)
}
