//! Where an id is among rows, and whether they are in their order.

ghost use Rattle.std.specs.Prelude.{◌≡◌, ◌+◌, ◌<◌, ◌≤◌, true, length, insert, slice_set, vec_len, vec_capacity, IfOk, MatchBool, option_copied, option_map};
ghost use Rattle.std.specs.List.{find, slice_get};
ghost use Rattle.bank_model.specs.Stores as model;
ghost use Rattle.client_store.specs.RowForm.{seen, all_seen, IsRising};
ghost use Rattle.client_store.specs.RowsView as view;
ghost use Rattle.client_store.specs.RowsView.{IsIndex};

use crate::row::Row;
use ofx_types::{Duplicate, Family, OutOfMemory, TransferRow};
use std::alloc::Global;

/// The index of an id: where its row is, or where it would be inserted. The family is that of the rows.
fn index(rows: &[Row], family: Family, id: u64) -> usize
    requires { IsRising family 0 (all_seen rows.now) }
    ensures within { result ≤ length rows.now }
    ensures index { IsIndex id (all_seen rows.now) result }
{
    rows.partition_point(
        |row| -> bool
            ensures { result ≡ model.is_below id (seen row.now) }
        { row.is_below(id) },
    )
}

/// Whether there is a row at an index and it has that id.
fn has_id_at(rows: &[Row], at: usize, id: u64) -> bool
    ensures has { result ≡ view.is_named id (slice_get rows.now at) }
    ensures within { result ≡ true → at < length rows.now }
{
    match rows.get(at) {
        Some(row) => row.has_id(id),
        None => false,
    }
}

/// The row at an index, where it has that id.
fn row_at(rows: &[Row], at: usize, id: u64) -> Option<&Row>
    ensures { option_copied result ≡ view.row_in id (slice_get rows.now at) }
{
    rows.get(at).filter(|row| row.has_id(id))
}

/// The row of an id. The family is that of the rows.
pub(crate) fn row_among(rows: &[Row], family: Family, id: u64) -> Option<&Row>
    requires { IsRising family 0 (all_seen rows.now) }
    ensures { option_map seen (option_copied result) ≡ find (model.has_id id) (all_seen rows.now) }
{
    row_at(rows, index(rows, family, id), id)
}

/// Puts a row in place of the one that has its id, or inserts it in order. There is room for it. The family is that of the
/// rows.
pub(crate) fn put_row(rows: &mut Vec<Row>, family: Family, id: u64, row: Row)
    requires rising { IsRising family 0 (all_seen rows.old.items) }
    requires room { vec_len rows.old < vec_capacity rows.old }
    ensures rows { all_seen rows.new.items ≡ model.put id (seen row) (all_seen rows.old.items) }
    ensures len { vec_len rows.new ≤ vec_len rows.old + 1 }
    ensures room { vec_capacity rows.old ≤ vec_capacity rows.new }
{
    let at = index(rows, family, id);
    if has_id_at(rows, at, id) {
        replace_at(rows, at, row);
    } else {
        insert_into(rows, at, row);
    }
}

/// Takes out the row of an id, where there is one. The family is that of the rows.
pub(crate) fn remove_row_by_id(rows: &mut Vec<Row>, family: Family, id: u64)
    requires rising { IsRising family 0 (all_seen rows.old.items) }
    ensures rows { all_seen rows.new.items ≡ model.remove_row id (all_seen rows.old.items) }
    ensures len { vec_len rows.new ≤ vec_len rows.old }
    ensures room { vec_capacity rows.old ≤ vec_capacity rows.new }
{
    let at = index(rows, family, id);
    if has_id_at(rows, at, id) {
        let _ = rows.remove(at);
    }
}

/// Puts a row in place of the one at an index.
fn replace_at(rows: &mut Vec<Row>, at: usize, row: Row)
    requires { at < vec_len rows.old }
    ensures rows { rows.new.items ≡ slice_set rows.old.items at row }
    ensures len { vec_len rows.new ≡ vec_len rows.old }
    ensures room { vec_capacity rows.new ≡ vec_capacity rows.old }
{
    rows[at] = row;
}

/// Inserts a row at an index. There is room for it.
fn insert_into(rows: &mut Vec<Row>, at: usize, row: Row)
    requires within { at ≤ vec_len rows.old }
    requires room { vec_len rows.old < vec_capacity rows.old }
    ensures rows { rows.new.items ≡ insert rows.old.items at row }
    ensures len { vec_len rows.new ≡ vec_len rows.old + 1 }
    ensures room { vec_capacity rows.old ≤ vec_capacity rows.new }
{
    match rows.insert(at, row) {
        Ok(()) => {}
        Err(_) => unreachable!(),
    }
}

/// The recurring transfer that made the row at an index, where it is a transfer of that id, and 0 otherwise.
fn model_at(rows: &[Row], at: usize, id: u64) -> u64
    ensures { result ≡ view.model_in id (slice_get rows.now at) }
{
    match rows.get(at) {
        Some(row) => row.model_if_named(id),
        None => 0,
    }
}

/// The recurring transfer that made the transfer of an id, 0 where there is none. The family is that of the rows.
pub(crate) fn model_among(rows: &[Row], family: Family, id: u64) -> u64
    requires { IsRising family 0 (all_seen rows.now) }
    ensures { result ≡ model.model_among id (all_seen rows.now) }
{
    model_at(rows, index(rows, family, id), id)
}

/// A transfer that a recurring transfer made.
pub(crate) fn with_model(row: TransferRow, made_by: u64) -> TransferRow
    ensures { result ≡ model.with_model made_by row }
{
    TransferRow {
        id: row.id,
        model: made_by,
        from: row.from,
        to: row.to,
        amount: row.amount,
        due: row.due,
        code: row.code,
        stamp: row.stamp,
    }
}

/// Whether the rows are all of the family, in rising id.
pub(crate) fn are_rising(family: Family, rows: &[Row]) -> bool
    ensures { MatchBool result (IsRising family 0 (all_seen rows.now)) (IsRising family 0 (all_seen rows.now) → ⊥) }
{
    let mut before = None;
    for row in rows {
        if !row.may_follow(family, before) {
            return false;
        }
        before = row.id().or(before);
    }
    true
}

/// The same rows once more.
pub(crate) fn copied_rows(alloc: Global, rows: &[Row]) -> Result<Vec<Row>, OutOfMemory>
    ensures { IfOk result (λ copies. copies.items ≡ rows.now) }
{
    let mut copies = Vec::with_capacity(alloc, rows.len())?;
    for row in rows {
        copies.push(row.copy()?)?;
    }
    Ok(copies)
}
