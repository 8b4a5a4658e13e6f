//! Stores and their rows.

ghost use Rattle.std.specs.Prelude.{◌≡◌, ◌<◌, ◌≤◌, ◌^◌, ◌++◌, [], length, IfOk, OnOk};
ghost use Rattle.std.specs.List.{AllByRecursion};
ghost use Rattle.ofx_types.specs.SyncForm.{object_family};
ghost use Rattle.record_fields.specs.Answers.{ReadsField, ReadsFieldBy};
ghost use Rattle.client_store.specs.RowForm.{all_seen, IsRising};
ghost use Rattle.client_saved.specs.Bounds.{IsSoundRow, IsSoundStore};
ghost use Rattle.client_saved.specs.Coding.{row_bytes, counted_bytes, store_bytes};
ghost use Rattle.client_saved.specs.Reading.{rows_from, rows_at, new_object_at, store_at, stores_from, stores_at};
ghost use Rattle.client_saved.specs.SavedText.{IsCounted};

use crate::objects::has_store;
use crate::row::{get_row, put_row};
use crate::state::Stores;
use client_store::{Row, Store};
use event_codec::{get_object, put_object};
use ofx_types::{Family, ObjectName, OutOfMemory, Sequence};
use record_fields::{RecordFault, get_flag, get_id, get_u64, put_flag, put_u64};
use std::alloc::Global;

// ---- rows

/// This many rows of an object of the family, in rising id.
fn rows_from(
    alloc: Global,
    count: u64,
    family: Family,
    text: &[u8],
    at: usize,
) -> Result<(Sequence<Row>, usize), RecordFault>
    requires { at ≤ length text.now }
    ensures gives { ReadsFieldBy (λ found. (all_seen found.0, found.1)) result (rows_from count family 0 text.now at) }
    ensures within { IfOk result (λ found. found.1 ≤ length text.now) }
{
    let mut rows = Sequence::new(alloc);
    let mut before = None;
    let mut next = at;
    for _ in 0..count {
        let (row, suffix) = get_row(alloc, family, before, text, next)?;
        before = row.id().or(before);
        rows.push(row)?;
        next = suffix;
    }
    Ok((rows, next))
}

#[tactic(auto, unfolding(crate::specs::Reading::rows_at))]
fn get_rows(
    alloc: Global,
    family: Family,
    text: &[u8],
    at: usize,
) -> Result<(Sequence<Row>, usize), RecordFault>
    requires { at ≤ length text.now }
    ensures gives { ReadsFieldBy (λ found. (all_seen found.0, found.1)) result (rows_at family text.now at) }
    ensures within { IfOk result (λ found. found.1 ≤ length text.now) }
{
    let (count, next) = get_u64(text, at)?;
    rows_from(alloc, count, family, text, next)
}

fn put_rows(rows: &[Row], out: &mut Vec<u8>) -> Result<(), OutOfMemory>
    requires { AllByRecursion IsSoundRow (all_seen rows.now) }
    ensures bytes { OnOk result (out.new.items ≡ out.old.items ++ counted_bytes row_bytes (all_seen rows.now)) }
    ensures counted { OnOk result (length (all_seen rows.now) < 2 ^ 64) }
{
    put_u64(&(rows.len() as u64), out)?;
    for row in rows {
        put_row(row, out)?;
    }
    Ok(())
}

// ---- stores

/// An object that has no store among those before.
#[tactic(auto, unfolding(crate::specs::Reading::new_object_at))]
fn get_new_object(
    alloc: Global,
    before: &[Store],
    text: &[u8],
    at: usize,
) -> Result<(ObjectName, usize), RecordFault>
    requires { at ≤ length text.now }
    ensures gives { ReadsField result (new_object_at before.now text.now at) }
    ensures within { IfOk result (λ found. found.1 ≤ length text.now) }
{
    let (object, next) = get_object(alloc, text, at)?;
    if has_store(&object, before) {
        return Err(RecordFault::Bad(at as u64));
    }
    Ok((object, next))
}

/// The store of parts whose rows are of the object's family, in rising id.
fn store_of(object: ObjectName, token: u64, lost: bool, rows: Vec<Row>) -> Store
    requires { IsRising (object_family object) 0 (all_seen rows.items) }
    ensures { result ≡ record { name = object; token = token; is_lost = lost; rows = all_seen rows.items } }
{
    match Store::from_parts(object, token, lost, rows) {
        Some(store) => store,
        None => unreachable!(),
    }
}

/// The store at `at`, after others.
#[tactic(auto, unfolding(crate::specs::Reading::store_at))]
fn get_store(
    alloc: Global,
    before: &[Store],
    text: &[u8],
    at: usize,
) -> Result<(Store, usize), RecordFault>
    requires { at ≤ length text.now }
    ensures gives { ReadsField result (store_at before.now text.now at) }
    ensures within { IfOk result (λ found. found.1 ≤ length text.now) }
{
    let (object, next) = get_new_object(alloc, before, text, at)?;
    let (token, next) = get_id(text, next)?;
    let (lost, next) = get_flag(text, next)?;
    let (rows, next) = get_rows(alloc, object.family(), text, next)?;
    Ok((store_of(object, token, lost, rows.into_vec()), next))
}

/// Appends a store that is within its bounds.
#[tactic(auto, unfolding(crate::specs::Coding::store_bytes))]
fn put_store(store: &Store, out: &mut Vec<u8>) -> Result<(), OutOfMemory>
    requires { IsSoundStore store.now }
    ensures bytes { OnOk result (out.new.items ≡ out.old.items ++ store_bytes store.now) }
    ensures counted { OnOk result (length store.now.rows < 2 ^ 64) }
{
    put_object(store.object(), out)?;
    put_u64(&store.token(), out)?;
    put_flag(&store.lost(), out)?;
    put_rows(store.rows(), out)
}

/// This many stores of distinct objects.
fn stores_from(
    alloc: Global,
    count: u64,
    text: &[u8],
    at: usize,
) -> Result<(Stores, usize), RecordFault>
    requires { at ≤ length text.now }
    ensures gives { ReadsField result (stores_from count [] text.now at) }
    ensures within { IfOk result (λ found. found.1 ≤ length text.now) }
{
    let mut stores = Sequence::new(alloc);
    let mut next = at;
    for _ in 0..count {
        let (store, suffix) = get_store(alloc, stores.items(), text, next)?;
        stores.push(store)?;
        next = suffix;
    }
    Ok((stores, next))
}

/// The stores at `at`.
#[tactic(auto, unfolding(crate::specs::Reading::stores_at))]
pub(crate) fn get_stores(
    alloc: Global,
    text: &[u8],
    at: usize,
) -> Result<(Stores, usize), RecordFault>
    requires { at ≤ length text.now }
    ensures gives { ReadsField result (stores_at text.now at) }
    ensures within { IfOk result (λ found. found.1 ≤ length text.now) }
{
    let (count, next) = get_u64(text, at)?;
    stores_from(alloc, count, text, next)
}

/// Appends stores that are within their bounds.
pub(crate) fn put_stores(stores: &[Store], out: &mut Vec<u8>) -> Result<(), OutOfMemory>
    requires { AllByRecursion IsSoundStore stores.now }
    ensures bytes { OnOk result (out.new.items ≡ out.old.items ++ counted_bytes store_bytes stores.now) }
    ensures counted { OnOk result (IsCounted stores.now) }
{
    put_u64(&(stores.len() as u64), out)?;
    for store in stores {
        put_store(store, out)?;
    }
    Ok(())
}
