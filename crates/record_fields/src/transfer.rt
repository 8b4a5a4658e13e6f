//! What is said of a transfer.

ghost use Rattle.std.specs.Prelude.{◌≡◌, ◌≤◌, ◌++◌, length, IfOk, OnOk};
ghost use Rattle.std.specs.Io.{StartsWith};
ghost use Rattle.bank_model.specs.Sound.{IsSoundInfo};
ghost use Rattle.record_fields.specs.Answers.{ReadsField};
ghost use Rattle.record_fields.specs.FieldCoding.{info_bytes, optional_bytes, day_bytes};
ghost use Rattle.record_fields.specs.FieldReading.{optional_at, day_at};
ghost use Rattle.record_fields.specs.PartReading.{info_at};

use crate::account::{get_acct, put_acct};
use crate::bounded::{get_amount, get_day};
use crate::fault::RecordFault;
use crate::number::{get_flag, put_i32, put_i64, put_u8};
use ofx_types::{Day, OutOfMemory, XferInfo};
use std::alloc::Global;

#[tactic(auto, unfolding(crate::specs::FieldReading::optional_at))]
fn get_optional_day(rec: &[u8], at: usize) -> Result<(Option<Day>, usize), RecordFault>
    requires { at ≤ length rec.now }
    ensures gives { ReadsField result (optional_at day_at rec.now at) }
    ensures within { IfOk result (λ found. found.1 ≤ length rec.now) }
{
    let (is_there, next) = get_flag(rec, at)?;
    if !is_there {
        return Ok((None, next));
    }
    let (day, next) = get_day(rec, next)?;
    Ok((Some(day), next))
}

/// What is said of a transfer: source, destination, amount and day.
#[tactic(auto, unfolding(crate::specs::PartReading::info_at))]
pub fn get_info(alloc: Global, rec: &[u8], at: usize) -> Result<(XferInfo, usize), RecordFault>
    requires { at ≤ length rec.now }
    ensures gives { ReadsField result (info_at rec.now at) }
    ensures within { IfOk result (λ found. found.1 ≤ length rec.now) }
{
    let (from, next) = get_acct(alloc, rec, at)?;
    let (to, next) = get_acct(alloc, rec, next)?;
    let (amount, next) = get_amount(rec, next)?;
    let (due, next) = get_optional_day(rec, next)?;
    Ok((
        XferInfo {
            from,
            to,
            amount,
            due,
        },
        next,
    ))
}

fn put_optional_day(day: Option<Day>, out: &mut Vec<u8>) -> Result<(), OutOfMemory>
    ensures bytes { OnOk result (out.new.items ≡ out.old.items ++ optional_bytes day_bytes day) }
    ensures kept { StartsWith out.new.items out.old.items }
{
    match day {
        None => put_u8(&0, out),
        Some(day) => {
            put_u8(&1, out)?;
            put_i32(&day.0, out)
        }
    }
}

/// Appends what is said of a transfer.
#[tactic(auto, unfolding(crate::specs::FieldCoding::info_bytes))]
pub fn put_info(info: &XferInfo, out: &mut Vec<u8>) -> Result<(), OutOfMemory>
    requires { IsSoundInfo info.now }
    ensures bytes { OnOk result (out.new.items ≡ out.old.items ++ info_bytes info.now) }
    ensures kept { StartsWith out.new.items out.old.items }
{
    put_acct(&info.from, out)?;
    put_acct(&info.to, out)?;
    put_i64(&info.amount.0, out)?;
    put_optional_day(info.due, out)
}
