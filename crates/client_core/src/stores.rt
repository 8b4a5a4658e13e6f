//! The stores of objects among others, and the rows that are found in them.

ghost use Rattle.std.specs.Prelude.{◌≡◌, length, take, IfOk, OnOk, OnErr};
ghost use Rattle.std.specs.Option.{option_copied};
ghost use Rattle.std.specs.List.{find};
ghost use Rattle.bank_model.specs.Stores as model;
ghost use Rattle.client_store.specs.RowForm.{seen};
ghost use Rattle.client_core.specs.Objects as rules;
ghost use Rattle.client_core.specs.Wishes as wishes;

use client_saved::{Stores, has_store, is_same_object};
use client_store::{Row, Store};
use ofx_types::{Duplicate, ModelRow, ObjectName, OutOfMemory, TransferRow};
use std::alloc::Global;
use std::mem;

/// The store of an object, where there is one.
pub(crate) fn store_of<'a>(object: &ObjectName, stores: &'a [Store]) -> Option<&'a Store>
    ensures { option_copied result ≡ find (rules.is_of_object object.now) stores.now }
{
    stores
        .iter()
        .find(|store| is_same_object(store.object(), object))
}

/// Makes the store of an object that isn't there, after the others. Where memory is refused all are as before.
#[tactic(auto, unfolding(crate::specs::Objects::with_store))]
pub(crate) fn open_store(
    alloc: Global,
    object: &ObjectName,
    stores: &mut Vec<Store>,
) -> Result<(), OutOfMemory>
    ensures ok { OnOk result (stores.new.items ≡ rules.with_store object.now stores.old.items) }
    ensures err { OnErr result (stores.new.items ≡ stores.old.items) }
{
    if has_store(object, stores) {
        return Ok(());
    }
    stores.push(Store::new(alloc, object.copy()?)?)?;
    Ok(())
}

/// Makes the stores of objects that aren't there. Where memory is refused the first ones are those that were there before.
fn open_each(
    alloc: Global,
    objects: &[ObjectName],
    stores: &mut Vec<Store>,
) -> Result<(), OutOfMemory>
    ensures ok { OnOk result (stores.new.items ≡ rules.with_stores objects.now stores.old.items) }
    ensures kept { take (length stores.old.items) stores.new.items ≡ stores.old.items }
{
    let mut left = objects;
    while let [object, rest @ ..] = left {
        open_store(alloc, object, stores)?;
        left = rest;
    }
    Ok(())
}

/// Makes the stores of objects that aren't there. Where memory is refused all are as before.
fn open_or_keep(
    alloc: Global,
    objects: &[ObjectName],
    stores: &mut Vec<Store>,
) -> Result<(), OutOfMemory>
    ensures ok { OnOk result (stores.new.items ≡ rules.with_stores objects.now stores.old.items) }
    ensures err { OnErr result (stores.new.items ≡ stores.old.items) }
{
    let before = stores.len();
    match open_each(alloc, objects, stores) {
        Ok(()) => Ok(()),
        Err(refused) => {
            stores.truncate(before);
            Err(refused)
        }
    }
}

/// Makes the stores of objects that aren't there. Where memory is refused all are as before.
pub(crate) fn open_stores(
    alloc: Global,
    objects: &[ObjectName],
    stores: &mut Stores,
) -> Result<(), OutOfMemory>
    ensures ok { OnOk result (stores.new ≡ rules.with_stores objects.now stores.old) }
    ensures err { OnErr result (stores.new ≡ stores.old) }
{
    let mut all = mem::replace(stores, Stores::new(alloc)).into_vec();
    match open_or_keep(alloc, objects, &mut all) {
        Ok(()) => {
            *stores = Stores::from_vec(all);
            Ok(())
        }
        Err(refused) => {
            *stores = Stores::from_vec(all);
            Err(refused)
        }
    }
}

// ---- rows

fn as_transfer(row: &Row) -> Option<&TransferRow>
    ensures { option_copied result ≡ wishes.as_transfer (seen row.now) }
{
    match row {
        Row::Transfer(row) => Some(row),
        Row::Model(_) => None,
        Row::Mail(_) => None,
    }
}

fn as_model(row: &Row) -> Option<&ModelRow>
    ensures { option_copied result ≡ wishes.as_model (seen row.now) }
{
    match row {
        Row::Transfer(_) => None,
        Row::Model(row) => Some(row),
        Row::Mail(_) => None,
    }
}

fn transfer_in(store: &Store, id: u64) -> Option<&TransferRow>
    ensures { option_copied result ≡ wishes.transfer_if (find (model.has_id id) store.now.rows) }
{
    match store.row(id) {
        Some(row) => as_transfer(row),
        None => None,
    }
}

fn model_in(store: &Store, id: u64) -> Option<&ModelRow>
    ensures { option_copied result ≡ wishes.model_if (find (model.has_id id) store.now.rows) }
{
    match store.row(id) {
        Some(row) => as_model(row),
        None => None,
    }
}

/// The transfer of an id in the first store that has it.
pub(crate) fn transfer_kept(stores: &[Store], id: u64) -> Option<&TransferRow>
    ensures { option_copied result ≡ wishes.transfer_kept id stores.now }
{
    let mut left = stores;
    while let [store, rest @ ..] = left {
        if let Some(row) = transfer_in(store, id) {
            return Some(row);
        }
        left = rest;
    }
    None
}

/// The recurring transfer of an id in the first store that has it.
pub(crate) fn model_kept(stores: &[Store], id: u64) -> Option<&ModelRow>
    ensures { option_copied result ≡ wishes.model_kept id stores.now }
{
    let mut left = stores;
    while let [store, rest @ ..] = left {
        if let Some(row) = model_in(store, id) {
            return Some(row);
        }
        left = rest;
    }
    None
}
