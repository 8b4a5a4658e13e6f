//! Accounts as records name them.

ghost use Rattle.std.specs.Prelude.{◌≡◌, ◌≤◌, ◌++◌, length, slice_get, IfOk, OnOk};
ghost use Rattle.std.specs.Io.{StartsWith};
ghost use Rattle.bank_model.specs.Sound.{IsSoundAccount};
ghost use Rattle.record_fields.specs.Answers.{ReadsField};
ghost use Rattle.record_fields.specs.FieldCoding.{acct_bytes, kind_number};
ghost use Rattle.record_fields.specs.FieldReading.{choice_at};
ghost use Rattle.record_fields.specs.PartReading.{account_kinds, acct_at};

use crate::fault::RecordFault;
use crate::number::{get_u8, put_u8};
use crate::text::{get_filled_text, put_text};
use ofx_types::{AcctKind, AcctName, OutOfMemory};
use std::alloc::Global;

fn kind_of(number: u8) -> Option<AcctKind>
    ensures { result ≡ slice_get account_kinds number }
{
    match number {
        0 => Some(AcctKind::Checking),
        1 => Some(AcctKind::Savings),
        2 => Some(AcctKind::MoneyMarket),
        3 => Some(AcctKind::CreditLine),
        _ => None,
    }
}

#[tactic(auto, unfolding(crate::specs::FieldReading::choice_at))]
fn get_kind(rec: &[u8], at: usize) -> Result<(AcctKind, usize), RecordFault>
    requires { at ≤ length rec.now }
    ensures gives { ReadsField result (choice_at account_kinds rec.now at) }
    ensures within { IfOk result (λ found. found.1 ≤ length rec.now) }
{
    let (number, next) = get_u8(rec, at)?;
    match kind_of(number) {
        Some(kind) => Ok((kind, next)),
        None => Err(RecordFault::Bad(at as u64)),
    }
}

/// The account at `at`.
///
/// `Bad(k)` at the first field without a form, at k: the bank or the number, each of 1 to 32 bytes, or the kind.
#[tactic(auto, unfolding(crate::specs::PartReading::acct_at))]
pub fn get_acct(alloc: Global, rec: &[u8], at: usize) -> Result<(AcctName, usize), RecordFault>
    requires { at ≤ length rec.now }
    ensures gives { ReadsField result (acct_at rec.now at) }
    ensures within { IfOk result (λ found. found.1 ≤ length rec.now) }
{
    let (bank, next) = get_filled_text(alloc, rec, at, 32)?;
    let (number, next) = get_filled_text(alloc, rec, next, 32)?;
    let (kind, next) = get_kind(rec, next)?;
    Ok((AcctName { bank, number, kind }, next))
}

/// Appends an account whose bank and number have 1 to 32 bytes each.
#[tactic(auto, unfolding(crate::specs::FieldCoding::acct_bytes))]
pub fn put_acct(value: &AcctName, out: &mut Vec<u8>) -> Result<(), OutOfMemory>
    requires { IsSoundAccount value.now }
    ensures bytes { OnOk result (out.new.items ≡ out.old.items ++ acct_bytes value.now) }
    ensures kept { StartsWith out.new.items out.old.items }
{
    put_text(&value.bank, out)?;
    put_text(&value.number, out)?;
    put_u8(&value.kind.number(), out)
}
