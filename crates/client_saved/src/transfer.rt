//! Transfers and recurring transfers among the rows of a store.

ghost use Rattle.std.specs.Prelude.{◌≡◌, ◌≤◌, ◌++◌, length, nat_le, slice_get, IfOk, OnOk};
ghost use Rattle.bank_model.specs.Sound.{IsSoundAccount};
ghost use Rattle.record_fields.specs.Answers.{ReadsField};
ghost use Rattle.record_fields.specs.FieldReading.{choice_at};
ghost use Rattle.client_store.specs.RowForm.{bound_after};
ghost use Rattle.client_saved.specs.Bounds.{IsSoundTransfer, IsSoundModel};
ghost use Rattle.client_saved.specs.Coding.{code_number, ids_bytes, terms_bytes, processing_bytes, transfer_bytes, model_bytes};
ghost use Rattle.client_saved.specs.Reading.{rising_id_at, transfer_codes, transfer_at, model_at};

use ofx_types::{AcctName, Cents, Day, ModelRow, Moment, OutOfMemory, TransferRow, XferCode};
use record_fields::{
    RecordFault, get_acct, get_amount, get_day, get_id, get_moment, get_recur, get_u8, put_acct,
    put_i32, put_i64, put_recur, put_u8, put_u64,
};
use std::alloc::Global;

// ---- transfers

fn code_of(number: u8) -> Option<XferCode>
    ensures { result ≡ slice_get transfer_codes number }
{
    match number {
        0 => Some(XferCode::Waiting),
        1 => Some(XferCode::Posted),
        2 => Some(XferCode::NoFunds),
        3 => Some(XferCode::Cancelled),
        _ => None,
    }
}

fn number_of(code: XferCode) -> u8
    ensures { result ≡ code_number code }
{
    match code {
        XferCode::Waiting => 0,
        XferCode::Posted => 1,
        XferCode::NoFunds => 2,
        XferCode::Cancelled => 3,
    }
}

/// Appends how far a transfer is, and since when.
#[tactic(auto, unfolding(crate::specs::Coding::processing_bytes))]
fn put_processing(code: XferCode, stamp: Moment, out: &mut Vec<u8>) -> Result<(), OutOfMemory>
    ensures { OnOk result (out.new.items ≡ out.old.items ++ processing_bytes code stamp) }
{
    put_u8(&number_of(code), out)?;
    put_i64(&stamp.0, out)
}

#[tactic(auto, unfolding(record_fields::specs::FieldReading::choice_at))]
fn get_code(text: &[u8], at: usize) -> Result<(XferCode, usize), RecordFault>
    requires { at ≤ length text.now }
    ensures gives { ReadsField result (choice_at transfer_codes text.now at) }
    ensures within { IfOk result (λ found. found.1 ≤ length text.now) }
{
    let (number, next) = get_u8(text, at)?;
    match code_of(number) {
        Some(code) => Ok((code, next)),
        None => Err(RecordFault::Bad(at as u64)),
    }
}

fn is_above(id: u64, before: Option<u64>) -> bool
    ensures { result ≡ nat_le (bound_after 0 before) id }
{
    match before {
        Some(other) => other < id,
        None => true,
    }
}

/// The id of a row that begins at `first`, after rows of which the last id is `before`.
#[tactic(auto, unfolding(crate::specs::Reading::rising_id_at))]
fn get_rising_id(
    before: Option<u64>,
    first: usize,
    text: &[u8],
    at: usize,
) -> Result<(u64, usize), RecordFault>
    requires { at ≤ length text.now }
    ensures gives { ReadsField result (rising_id_at (bound_after 0 before) first text.now at) }
    ensures within { IfOk result (λ found. found.1 ≤ length text.now) }
{
    let (id, next) = get_id(text, at)?;
    if !is_above(id, before) {
        return Err(RecordFault::Bad(first as u64));
    }
    Ok((id, next))
}

#[tactic(auto, unfolding(crate::specs::Reading::transfer_at))]
pub(crate) fn get_transfer(
    alloc: Global,
    before: Option<u64>,
    first: usize,
    text: &[u8],
    at: usize,
) -> Result<(TransferRow, usize), RecordFault>
    requires { at ≤ length text.now }
    ensures gives { ReadsField result (transfer_at (bound_after 0 before) first text.now at) }
    ensures within { IfOk result (λ found. found.1 ≤ length text.now) }
{
    let (id, next) = get_rising_id(before, first, text, at)?;
    let (model, next) = get_id(text, next)?;
    let (from, next) = get_acct(alloc, text, next)?;
    let (to, next) = get_acct(alloc, text, next)?;
    let (amount, next) = get_amount(text, next)?;
    let (due, next) = get_day(text, next)?;
    let (code, next) = get_code(text, next)?;
    let (stamp, next) = get_moment(text, next)?;
    let row = TransferRow {
        id,
        model,
        from,
        to,
        amount,
        due,
        code,
        stamp,
    };
    Ok((row, next))
}

/// Appends the ids of a transfer and of the recurring transfer that made it.
#[tactic(auto, unfolding(crate::specs::Coding::ids_bytes))]
fn put_ids(id: u64, model: u64, out: &mut Vec<u8>) -> Result<(), OutOfMemory>
    ensures { OnOk result (out.new.items ≡ out.old.items ++ ids_bytes id model) }
{
    put_u64(&id, out)?;
    put_u64(&model, out)
}

/// Appends source, destination, amount and day.
#[tactic(auto, unfolding(crate::specs::Coding::terms_bytes))]
fn put_terms(
    from: &AcctName,
    to: &AcctName,
    amount: Cents,
    day: Day,
    out: &mut Vec<u8>,
) -> Result<(), OutOfMemory>
    requires from { IsSoundAccount from.now }
    requires to { IsSoundAccount to.now }
    ensures { OnOk result (out.new.items ≡ out.old.items ++ terms_bytes from.now to.now amount day) }
{
    put_acct(from, out)?;
    put_acct(to, out)?;
    put_i64(&amount.0, out)?;
    put_i32(&day.0, out)
}

#[tactic(auto, unfolding(crate::specs::Coding::transfer_bytes))]
pub(crate) fn put_transfer(row: &TransferRow, out: &mut Vec<u8>) -> Result<(), OutOfMemory>
    requires { IsSoundTransfer row.now }
    ensures { OnOk result (out.new.items ≡ out.old.items ++ transfer_bytes row.now) }
{
    put_ids(row.id, row.model, out)?;
    put_terms(&row.from, &row.to, row.amount, row.due, out)?;
    put_processing(row.code, row.stamp, out)
}

// ---- recurring transfers

#[tactic(auto, unfolding(crate::specs::Reading::model_at))]
pub(crate) fn get_model(
    alloc: Global,
    before: Option<u64>,
    first: usize,
    text: &[u8],
    at: usize,
) -> Result<(ModelRow, usize), RecordFault>
    requires { at ≤ length text.now }
    ensures gives { ReadsField result (model_at (bound_after 0 before) first text.now at) }
    ensures within { IfOk result (λ found. found.1 ≤ length text.now) }
{
    let (id, next) = get_rising_id(before, first, text, at)?;
    let (recur, next) = get_recur(text, next)?;
    let (from, next) = get_acct(alloc, text, next)?;
    let (to, next) = get_acct(alloc, text, next)?;
    let (amount, next) = get_amount(text, next)?;
    let (day, next) = get_day(text, next)?;
    let row = ModelRow {
        id,
        recur,
        from,
        to,
        amount,
        first: day,
    };
    Ok((row, next))
}

#[tactic(auto, unfolding(crate::specs::Coding::model_bytes))]
pub(crate) fn put_model(row: &ModelRow, out: &mut Vec<u8>) -> Result<(), OutOfMemory>
    requires { IsSoundModel row.now }
    ensures { OnOk result (out.new.items ≡ out.old.items ++ model_bytes row.now) }
{
    put_u64(&row.id, out)?;
    put_recur(&row.recur, out)?;
    put_terms(&row.from, &row.to, row.amount, row.first, out)
}
