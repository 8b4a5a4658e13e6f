//! The lines that show what a client keeps.

ghost use Rattle.std.specs.Prelude.{◌≡◌, ◌∷◌, ◌++◌, OnOk, IfOk};
ghost use Rattle.std.specs.List.{flat_map, AllByRecursion};
ghost use Rattle.std.specs.Option.{option_copied};
ghost use Rattle.bank_model.specs.Stores.{transfer_row, model_row, mail_row};
ghost use Rattle.ofx_types.specs.AmountForm.{amount_text};
ghost use Rattle.ofx_types.specs.Calendar.{IsDay};
ghost use Rattle.ofx_types.specs.Sheet.{uid_text};
ghost use Rattle.client_store.specs.RowForm.{seen, all_seen};
ghost use Rattle.client_saved.specs.Bounds.{IsSoundRow, IsSoundStore};
ghost use Rattle.client_run.specs.Lines as rules;

use crate::printing::put_line;
use client_core::Client;
use client_report::store_line;
use client_store::{Row, Store};
use ofx_types::{Cents, Day, FileUid, MailRow, ModelRow, OutOfMemory, TransferRow};
use ofx_values::{midnight, print_amount, print_moment, print_number};
use std::alloc::Global;

/// The number of digits of a time of day.
const TIME: usize = 6;

/// Appends a day of the years 1900 to 9999 as YYYYMMDD.
#[tactic(auto, using(crate::proofs::Days::day_left, crate::proofs::Days::moment_size))]
pub(crate) fn put_day(day: Day, out: &mut Vec<u8>) -> Result<(), OutOfMemory>
    requires { IsDay day.0 }
    ensures { OnOk result (out.new.items ≡ out.old.items ++ rules.day_text day) }
{
    print_moment(midnight(day), out)?;
    out.truncate(out.len() - TIME);
    Ok(())
}

/// Appends an amount and a day.
fn put_terms(amount: Cents, day: Day, out: &mut Vec<u8>) -> Result<(), OutOfMemory>
    requires { IsDay day.0 }
    ensures { OnOk result (out.new.items ≡ out.old.items ++ (amount_text amount.0 ++ 32 ∷ rules.day_text day)) }
{
    print_amount(amount, out)?;
    out.push(b' ')?;
    put_day(day, out)
}

#[tactic(auto, unfolding(crate::specs::Lines::row_text))]
fn put_transfer(row: &TransferRow, out: &mut Vec<u8>) -> Result<(), OutOfMemory>
    requires { IsDay row.now.due.0 }
    ensures { OnOk result (out.new.items ≡ out.old.items ++ rules.row_text (transfer_row row.now)) }
{
    out.extend_from_slice(b"transfer ")?;
    print_number(row.id, out)?;
    out.push(b' ')?;
    out.extend_from_slice(row.code.word())?;
    out.push(b' ')?;
    put_terms(row.amount, row.due, out)
}

#[tactic(auto, unfolding(crate::specs::Lines::row_text))]
fn put_model(row: &ModelRow, out: &mut Vec<u8>) -> Result<(), OutOfMemory>
    requires { IsDay row.now.first.0 }
    ensures { OnOk result (out.new.items ≡ out.old.items ++ rules.row_text (model_row row.now)) }
{
    out.extend_from_slice(b"model ")?;
    print_number(row.id, out)?;
    out.push(b' ')?;
    out.extend_from_slice(row.recur.freq.word())?;
    out.push(b' ')?;
    put_terms(row.amount, row.first, out)
}

#[tactic(auto, unfolding(crate::specs::Lines::row_text))]
fn put_mail(row: &MailRow, out: &mut Vec<u8>) -> Result<(), OutOfMemory>
    ensures { OnOk result (out.new.items ≡ out.old.items ++ rules.row_text (mail_row row.now)) }
{
    out.extend_from_slice(b"mail ")?;
    out.extend_from_slice(row.mail.subject.as_bytes())?;
    Ok(())
}

/// Appends the line of a row.
fn put_row(row: &Row, out: &mut Vec<u8>) -> Result<(), OutOfMemory>
    requires { IsSoundRow (seen row.now) }
    ensures { OnOk result (out.new.items ≡ out.old.items ++ rules.row_line (seen row.now)) }
{
    match row {
        Row::Transfer(row) => put_transfer(row, out)?,
        Row::Model(row) => put_model(row, out)?,
        Row::Mail(row) => put_mail(row, out)?,
    }
    out.push(b'\n')?;
    Ok(())
}

/// Appends the lines of a store and of its rows.
fn put_store(alloc: Global, store: &Store, out: &mut Vec<u8>) -> Result<(), OutOfMemory>
    requires { IsSoundStore store.now }
    ensures { OnOk result (out.new.items ≡ out.old.items ++ rules.store_lines store.now) }
{
    put_line(&store_line(alloc, store)?, out)?;
    put_rows(store.rows(), out)
}

/// Appends the lines of rows.
fn put_rows(rows: &[Row], out: &mut Vec<u8>) -> Result<(), OutOfMemory>
    requires { AllByRecursion IsSoundRow (all_seen rows.now) }
    ensures { OnOk result (out.new.items ≡ out.old.items ++ flat_map rules.row_line (all_seen rows.now)) }
{
    let mut left = rows;
    while let [row, rest @ ..] = left {
        put_row(row, out)?;
        left = rest;
    }
    Ok(())
}

/// Appends the lines of stores.
fn put_stores(alloc: Global, stores: &[Store], out: &mut Vec<u8>) -> Result<(), OutOfMemory>
    requires { AllByRecursion IsSoundStore stores.now }
    ensures { OnOk result (out.new.items ≡ out.old.items ++ flat_map rules.store_lines stores.now) }
{
    let mut left = stores;
    while let [store, rest @ ..] = left {
        put_store(alloc, store, out)?;
        left = rest;
    }
    Ok(())
}

/// Appends the uid of the last file whose reply was accepted.
fn put_done(done: Option<&FileUid>, out: &mut Vec<u8>) -> Result<(), OutOfMemory>
    ensures { OnOk result (out.new.items ≡ out.old.items ++ uid_text (option_copied done.entry)) }
{
    match done {
        Some(uid) => out.extend_from_slice(uid.as_bytes())?,
        None => out.extend_from_slice(b"NONE")?,
    }
    Ok(())
}

/// Appends the line of a client.
#[tactic(auto, unfolding(crate::specs::Lines::client_text))]
fn put_client(client: &Client, out: &mut Vec<u8>) -> Result<(), OutOfMemory>
    ensures { OnOk result (out.new.items ≡ out.old.items ++ rules.line (rules.client_text client.now)) }
{
    out.extend_from_slice(b"client ")?;
    out.extend_from_slice(client.name().as_bytes())?;
    out.extend_from_slice(b" next ")?;
    print_number(client.next(), out)?;
    out.extend_from_slice(b" done ")?;
    put_done(client.done(), out)?;
    out.push(b'\n')?;
    Ok(())
}

/// The lines that show what a client keeps.
#[tactic(auto, unfolding(crate::specs::Lines::kept_text))]
pub(crate) fn kept_text(alloc: Global, client: &Client) -> Result<Vec<u8>, OutOfMemory>
    ensures { IfOk result (λ bytes. bytes.items ≡ rules.kept_text client.now) }
{
    let mut out = Vec::new(alloc);
    client.known();
    put_client(client, &mut out)?;
    put_stores(alloc, client.stores(), &mut out)?;
    Ok(out)
}
