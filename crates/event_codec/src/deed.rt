//! Deeds: what a client asks to be done.

ghost use Rattle.std.specs.Prelude.{◌≡◌, ◌≤◌, ◌++◌, ◌∷◌, length, IfOk, OnOk};
ghost use Rattle.std.specs.Io.{StartsWith};
ghost use Rattle.bank_model.specs.Sound.{IsSoundDeed};
ghost use Rattle.record_fields.specs.Answers.{ReadsField};
ghost use Rattle.record_fields.specs.FieldCoding.{u64_bytes};
ghost use Rattle.event_codec.specs.Coding.{deed_bytes};
ghost use Rattle.event_codec.specs.AskReading.{is_wanted, deed_at, deed_of, transfer_at, modify_transfer_at, cancel_transfer_at, model_at, modify_model_at, cancel_model_at, bank_mail_at, mail_deed_at};

use ofx_types::{Deed, Family, OutOfMemory};
use record_fields::{
    RecordFault, get_acct, get_flag, get_id, get_info, get_mail, get_recur, get_u8, put_acct,
    put_flag, put_info, put_mail, put_recur, put_u8, put_u64,
};
use std::alloc::Global;

/// Whether a deed of this kind is allowed where only deeds of one family are wanted, or any are.
fn is_wanted(wanted: Option<Family>, kind: u8) -> bool
    ensures { result ≡ is_wanted wanted kind }
{
    match wanted {
        None => true,
        Some(Family::Intra) => 1 <= kind && kind <= 3,
        Some(Family::RecIntra) => 4 <= kind && kind <= 6,
        Some(Family::BankMail) => kind == 7,
        Some(Family::Mail) => kind == 8,
    }
}

/// The deed at `at`, of the family that is wanted, if one is.
#[tactic(auto, unfolding(crate::specs::AskReading::deed_at))]
pub(crate) fn get_deed(
    alloc: Global,
    wanted: Option<Family>,
    rec: &[u8],
    at: usize,
) -> Result<(Deed, usize), RecordFault>
    requires { at ≤ length rec.now }
    ensures gives { ReadsField result (deed_at wanted rec.now at) }
    ensures within { IfOk result (λ found. found.1 ≤ length rec.now) }
{
    let (kind, next) = get_u8(rec, at)?;
    if !is_wanted(wanted, kind) {
        return Err(RecordFault::Bad(at as u64));
    }
    deed_of(alloc, kind, rec, at, next)
}

#[tactic(auto, unfolding(crate::specs::AskReading::deed_of))]
fn deed_of(
    alloc: Global,
    kind: u8,
    rec: &[u8],
    at: usize,
    next: usize,
) -> Result<(Deed, usize), RecordFault>
    requires { next ≤ length rec.now }
    ensures gives { ReadsField result (deed_of kind rec.now at next) }
    ensures within { IfOk result (λ found. found.1 ≤ length rec.now) }
{
    match kind {
        1 => transfer(alloc, rec, next),
        2 => modify_transfer(alloc, rec, next),
        3 => cancel_transfer(rec, next),
        4 => model(alloc, rec, next),
        5 => modify_model(alloc, rec, next),
        6 => cancel_model(rec, next),
        7 => bank_mail(alloc, rec, next),
        8 => mail_deed(alloc, rec, next),
        _ => Err(RecordFault::Bad(at as u64)),
    }
}

#[tactic(auto, unfolding(crate::specs::AskReading::transfer_at))]
fn transfer(alloc: Global, rec: &[u8], at: usize) -> Result<(Deed, usize), RecordFault>
    requires { at ≤ length rec.now }
    ensures gives { ReadsField result (transfer_at rec.now at) }
    ensures within { IfOk result (λ found. found.1 ≤ length rec.now) }
{
    let (info, next) = get_info(alloc, rec, at)?;
    Ok((Deed::Transfer(info), next))
}

#[tactic(auto, unfolding(crate::specs::AskReading::modify_transfer_at))]
fn modify_transfer(alloc: Global, rec: &[u8], at: usize) -> Result<(Deed, usize), RecordFault>
    requires { at ≤ length rec.now }
    ensures gives { ReadsField result (modify_transfer_at rec.now at) }
    ensures within { IfOk result (λ found. found.1 ≤ length rec.now) }
{
    let (id, next) = get_id(rec, at)?;
    let (info, next) = get_info(alloc, rec, next)?;
    Ok((Deed::ModifyTransfer(id, info), next))
}

#[tactic(auto, unfolding(crate::specs::AskReading::cancel_transfer_at))]
fn cancel_transfer(rec: &[u8], at: usize) -> Result<(Deed, usize), RecordFault>
    requires { at ≤ length rec.now }
    ensures gives { ReadsField result (cancel_transfer_at rec.now at) }
    ensures within { IfOk result (λ found. found.1 ≤ length rec.now) }
{
    let (id, next) = get_id(rec, at)?;
    Ok((Deed::CancelTransfer(id), next))
}

#[tactic(auto, unfolding(crate::specs::AskReading::model_at))]
fn model(alloc: Global, rec: &[u8], at: usize) -> Result<(Deed, usize), RecordFault>
    requires { at ≤ length rec.now }
    ensures gives { ReadsField result (model_at rec.now at) }
    ensures within { IfOk result (λ found. found.1 ≤ length rec.now) }
{
    let (recur, next) = get_recur(rec, at)?;
    let (info, next) = get_info(alloc, rec, next)?;
    Ok((Deed::Model(recur, info), next))
}

#[tactic(auto, unfolding(crate::specs::AskReading::modify_model_at))]
fn modify_model(alloc: Global, rec: &[u8], at: usize) -> Result<(Deed, usize), RecordFault>
    requires { at ≤ length rec.now }
    ensures gives { ReadsField result (modify_model_at rec.now at) }
    ensures within { IfOk result (λ found. found.1 ≤ length rec.now) }
{
    let (id, next) = get_id(rec, at)?;
    let (recur, next) = get_recur(rec, next)?;
    let (info, next) = get_info(alloc, rec, next)?;
    let (pending, next) = get_flag(rec, next)?;
    Ok((Deed::ModifyModel(id, recur, info, pending), next))
}

#[tactic(auto, unfolding(crate::specs::AskReading::cancel_model_at))]
fn cancel_model(rec: &[u8], at: usize) -> Result<(Deed, usize), RecordFault>
    requires { at ≤ length rec.now }
    ensures gives { ReadsField result (cancel_model_at rec.now at) }
    ensures within { IfOk result (λ found. found.1 ≤ length rec.now) }
{
    let (id, next) = get_id(rec, at)?;
    let (pending, next) = get_flag(rec, next)?;
    Ok((Deed::CancelModel(id, pending), next))
}

#[tactic(auto, unfolding(crate::specs::AskReading::bank_mail_at))]
fn bank_mail(alloc: Global, rec: &[u8], at: usize) -> Result<(Deed, usize), RecordFault>
    requires { at ≤ length rec.now }
    ensures gives { ReadsField result (bank_mail_at rec.now at) }
    ensures within { IfOk result (λ found. found.1 ≤ length rec.now) }
{
    let (account, next) = get_acct(alloc, rec, at)?;
    let (mail, next) = get_mail(alloc, rec, next)?;
    Ok((Deed::BankMail(account, mail), next))
}

#[tactic(auto, unfolding(crate::specs::AskReading::mail_deed_at))]
fn mail_deed(alloc: Global, rec: &[u8], at: usize) -> Result<(Deed, usize), RecordFault>
    requires { at ≤ length rec.now }
    ensures gives { ReadsField result (mail_deed_at rec.now at) }
    ensures within { IfOk result (λ found. found.1 ≤ length rec.now) }
{
    let (mail, next) = get_mail(alloc, rec, at)?;
    Ok((Deed::Mail(mail), next))
}

/// Appends the kind of a deed and the id of what it is about.
fn put_kind_and_id(kind: u8, id: &u64, out: &mut Vec<u8>) -> Result<(), OutOfMemory>
    ensures bytes { OnOk result (out.new.items ≡ out.old.items ++ kind ∷ u64_bytes id.now) }
    ensures kept { StartsWith out.new.items out.old.items }
{
    put_u8(&kind, out)?;
    put_u64(id, out)
}

/// Appends a deed: its kind, and what it needs.
#[tactic(auto, unfolding(crate::specs::Coding::deed_bytes))]
pub(crate) fn put_deed(deed: &Deed, out: &mut Vec<u8>) -> Result<(), OutOfMemory>
    requires { IsSoundDeed deed.now }
    ensures bytes { OnOk result (out.new.items ≡ out.old.items ++ deed_bytes deed.now) }
    ensures kept { StartsWith out.new.items out.old.items }
{
    match deed {
        Deed::Transfer(info) => {
            put_u8(&1, out)?;
            put_info(info, out)
        }
        Deed::ModifyTransfer(id, info) => {
            put_kind_and_id(2, id, out)?;
            put_info(info, out)
        }
        Deed::CancelTransfer(id) => put_kind_and_id(3, id, out),
        Deed::Model(recur, info) => {
            put_u8(&4, out)?;
            put_recur(recur, out)?;
            put_info(info, out)
        }
        Deed::ModifyModel(id, recur, info, pending) => {
            put_kind_and_id(5, id, out)?;
            put_recur(recur, out)?;
            put_info(info, out)?;
            put_flag(pending, out)
        }
        Deed::CancelModel(id, pending) => {
            put_kind_and_id(6, id, out)?;
            put_flag(pending, out)
        }
        Deed::BankMail(account, mail) => {
            put_u8(&7, out)?;
            put_acct(account, out)?;
            put_mail(mail, out)
        }
        Deed::Mail(mail) => {
            put_u8(&8, out)?;
            put_mail(mail, out)
        }
    }
}
