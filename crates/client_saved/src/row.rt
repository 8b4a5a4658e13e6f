//! One row of a store.

ghost use Rattle.std.specs.Prelude.{◌≡◌, ◌≤◌, ◌++◌, length, IfOk, OnOk};
ghost use Rattle.std.specs.Option.{IfSome};
ghost use Rattle.bank_model.specs.Sound.{IsSoundAccount};
ghost use Rattle.record_fields.specs.Answers.{ReadsField, ReadsFieldBy};
ghost use Rattle.record_fields.specs.FieldCoding.{optional_bytes, acct_bytes};
ghost use Rattle.record_fields.specs.FieldReading.{optional_at};
ghost use Rattle.record_fields.specs.PartReading.{acct_at};
ghost use Rattle.client_store.specs.RowForm.{seen, bound_after};
ghost use Rattle.client_saved.specs.Bounds.{IsSoundRow, IsSoundMailRow};
ghost use Rattle.client_saved.specs.Coding.{mail_row_bytes, row_bytes};
ghost use Rattle.client_saved.specs.Reading.{mail_row_at, row_kind, row_of, row_at};

use crate::transfer::{get_model, get_transfer, put_model, put_transfer};
use client_store::Row;
use ofx_types::{AcctName, Family, MailRow, OutOfMemory};
use record_fields::{
    RecordFault, get_acct, get_filled_text, get_flag, get_mail, get_u8, put_acct, put_mail,
    put_text, put_u8,
};
use std::alloc::Global;

// ---- mails

#[tactic(auto, unfolding(record_fields::specs::FieldReading::optional_at))]
fn get_about(
    alloc: Global,
    text: &[u8],
    at: usize,
) -> Result<(Option<AcctName>, usize), RecordFault>
    requires { at ≤ length text.now }
    ensures gives { ReadsField result (optional_at acct_at text.now at) }
    ensures within { IfOk result (λ found. found.1 ≤ length text.now) }
{
    let (is_there, next) = get_flag(text, at)?;
    if !is_there {
        return Ok((None, next));
    }
    let (account, next) = get_acct(alloc, text, next)?;
    Ok((Some(account), next))
}

fn put_about(about: &Option<AcctName>, out: &mut Vec<u8>) -> Result<(), OutOfMemory>
    requires { IfSome about.now IsSoundAccount }
    ensures { OnOk result (out.new.items ≡ out.old.items ++ optional_bytes acct_bytes about.now) }
{
    match about {
        None => put_u8(&0, out),
        Some(account) => {
            put_u8(&1, out)?;
            put_acct(account, out)
        }
    }
}

#[tactic(auto, unfolding(crate::specs::Reading::mail_row_at))]
fn get_mail_row(alloc: Global, text: &[u8], at: usize) -> Result<(MailRow, usize), RecordFault>
    requires { at ≤ length text.now }
    ensures gives { ReadsField result (mail_row_at text.now at) }
    ensures within { IfOk result (λ found. found.1 ≤ length text.now) }
{
    let (about, next) = get_about(alloc, text, at)?;
    let (user, next) = get_filled_text(alloc, text, next, 32)?;
    let (mail, next) = get_mail(alloc, text, next)?;
    Ok((MailRow { about, user, mail }, next))
}

#[tactic(auto, unfolding(crate::specs::Coding::mail_row_bytes))]
fn put_mail_row(row: &MailRow, out: &mut Vec<u8>) -> Result<(), OutOfMemory>
    requires { IsSoundMailRow row.now }
    ensures { OnOk result (out.new.items ≡ out.old.items ++ mail_row_bytes row.now) }
{
    put_about(&row.about, out)?;
    put_text(&row.user, out)?;
    put_mail(&row.mail, out)
}

// ---- rows of any kind

fn kind_of(family: Family) -> u8
    ensures { result ≡ row_kind family }
{
    match family {
        Family::Intra => 1,
        Family::RecIntra => 2,
        Family::BankMail => 3,
        Family::Mail => 3,
    }
}

/// What follows the kind of a row that begins at `first`.
#[tactic(auto, unfolding(crate::specs::Reading::row_of))]
fn row_of(
    alloc: Global,
    family: Family,
    before: Option<u64>,
    first: usize,
    text: &[u8],
    at: usize,
) -> Result<(Row, usize), RecordFault>
    requires { at ≤ length text.now }
    ensures gives { ReadsFieldBy (λ found. (seen found.0, found.1)) result (row_of family (bound_after 0 before) first text.now at) }
    ensures within { IfOk result (λ found. found.1 ≤ length text.now) }
{
    match family {
        Family::Intra => {
            let (row, next) = get_transfer(alloc, before, first, text, at)?;
            Ok((Row::Transfer(row), next))
        }
        Family::RecIntra => {
            let (row, next) = get_model(alloc, before, first, text, at)?;
            Ok((Row::Model(row), next))
        }
        Family::BankMail => {
            let (row, next) = get_mail_row(alloc, text, at)?;
            Ok((Row::Mail(row), next))
        }
        Family::Mail => {
            let (row, next) = get_mail_row(alloc, text, at)?;
            Ok((Row::Mail(row), next))
        }
    }
}

/// The row of an object of the family at `at`, after rows of which the last id is `before`.
#[tactic(auto, unfolding(crate::specs::Reading::row_at))]
pub(crate) fn get_row(
    alloc: Global,
    family: Family,
    before: Option<u64>,
    text: &[u8],
    at: usize,
) -> Result<(Row, usize), RecordFault>
    requires { at ≤ length text.now }
    ensures gives { ReadsFieldBy (λ found. (seen found.0, found.1)) result (row_at family (bound_after 0 before) text.now at) }
    ensures within { IfOk result (λ found. found.1 ≤ length text.now) }
{
    let (kind, next) = get_u8(text, at)?;
    if kind != kind_of(family) {
        return Err(RecordFault::Bad(at as u64));
    }
    row_of(alloc, family, before, at, text, next)
}

/// Appends a row that is within its bounds.
#[tactic(auto, unfolding(crate::specs::Coding::row_bytes))]
pub(crate) fn put_row(row: &Row, out: &mut Vec<u8>) -> Result<(), OutOfMemory>
    requires { IsSoundRow (seen row.now) }
    ensures { OnOk result (out.new.items ≡ out.old.items ++ row_bytes (seen row.now)) }
{
    match row {
        Row::Transfer(row) => {
            put_u8(&1, out)?;
            put_transfer(row, out)
        }
        Row::Model(row) => {
            put_u8(&2, out)?;
            put_model(row, out)
        }
        Row::Mail(row) => {
            put_u8(&3, out)?;
            put_mail_row(row, out)
        }
    }
}
