//! Synchronisations: an object, how much of its history is asked for, and deeds of its family.

ghost use Rattle.std.specs.Prelude.{◌≡◌, ◌≤◌, ◌++◌, false, length, IfOk, OnOk};
ghost use Rattle.std.specs.Io.{StartsWith};
ghost use Rattle.std.specs.List.{AllByRecursion};
ghost use Rattle.bank_model.specs.Sound.{IsSoundObject, IsSoundKind, IsSoundPair, IsSoundSync};
ghost use Rattle.record_fields.specs.Answers.{ReadsField};
ghost use Rattle.record_fields.specs.FieldCoding.{list_bytes};
ghost use Rattle.event_codec.specs.Coding.{object_bytes, sync_kind_bytes, pair_bytes, sync_bytes};
ghost use Rattle.event_codec.specs.AskReading.{object_at, object_of, intra_at, rec_intra_at, bank_mail_object_at, sync_kind_at, after_at, pair_at, pairs_from, pairs_at, sync_at};
ghost use Rattle.ofx_types.specs.declared.transfer.Family.{Family};

use crate::deed::{get_deed, put_deed};
use ofx_types::{
    Deed, Deeds, Family, ObjectName, OutOfMemory, Sequence, SyncAsk, SyncKind, TrnUid,
};
use record_fields::{
    RecordFault, get_acct, get_filled_text, get_flag, get_given_uid, get_u8, get_u16, put_acct,
    put_flag, put_text, put_trnuid, put_u8, put_u16,
};
use std::alloc::Global;

/// The object at `at`.
///
/// `Bad(k)` at the first field without a form, at k: its kind, or a field of its account.
pub fn get_object(alloc: Global, rec: &[u8], at: usize) -> Result<(ObjectName, usize), RecordFault>
    requires { at ≤ length rec.now }
    ensures gives { ReadsField result (object_at false rec.now at) }
    ensures within { IfOk result (λ found. found.1 ≤ length rec.now) }
{
    get_object_after(alloc, false, rec, at)
}

/// The object at `at`, which may not be an account's after a mail ask.
#[tactic(auto, unfolding(crate::specs::AskReading::object_at))]
fn get_object_after(
    alloc: Global,
    is_after_mail: bool,
    rec: &[u8],
    at: usize,
) -> Result<(ObjectName, usize), RecordFault>
    requires { at ≤ length rec.now }
    ensures gives { ReadsField result (object_at is_after_mail rec.now at) }
    ensures within { IfOk result (λ found. found.1 ≤ length rec.now) }
{
    let (kind, next) = get_u8(rec, at)?;
    if is_after_mail && kind < 3 {
        return Err(RecordFault::Bad(at as u64));
    }
    object_of(alloc, kind, rec, at, next)
}

#[tactic(auto, unfolding(crate::specs::AskReading::object_of))]
fn object_of(
    alloc: Global,
    kind: u8,
    rec: &[u8],
    at: usize,
    next: usize,
) -> Result<(ObjectName, usize), RecordFault>
    requires { next ≤ length rec.now }
    ensures gives { ReadsField result (object_of kind rec.now at next) }
    ensures within { IfOk result (λ found. found.1 ≤ length rec.now) }
{
    match kind {
        0 => intra(alloc, rec, next),
        1 => rec_intra(alloc, rec, next),
        2 => bank_mail(alloc, rec, next),
        3 => Ok((ObjectName::Mail, next)),
        _ => Err(RecordFault::Bad(at as u64)),
    }
}

#[tactic(auto, unfolding(crate::specs::AskReading::intra_at))]
fn intra(alloc: Global, rec: &[u8], at: usize) -> Result<(ObjectName, usize), RecordFault>
    requires { at ≤ length rec.now }
    ensures gives { ReadsField result (intra_at rec.now at) }
    ensures within { IfOk result (λ found. found.1 ≤ length rec.now) }
{
    let (account, next) = get_acct(alloc, rec, at)?;
    Ok((ObjectName::Intra(account), next))
}

#[tactic(auto, unfolding(crate::specs::AskReading::rec_intra_at))]
fn rec_intra(alloc: Global, rec: &[u8], at: usize) -> Result<(ObjectName, usize), RecordFault>
    requires { at ≤ length rec.now }
    ensures gives { ReadsField result (rec_intra_at rec.now at) }
    ensures within { IfOk result (λ found. found.1 ≤ length rec.now) }
{
    let (account, next) = get_acct(alloc, rec, at)?;
    Ok((ObjectName::RecIntra(account), next))
}

#[tactic(auto, unfolding(crate::specs::AskReading::bank_mail_object_at))]
fn bank_mail(alloc: Global, rec: &[u8], at: usize) -> Result<(ObjectName, usize), RecordFault>
    requires { at ≤ length rec.now }
    ensures gives { ReadsField result (bank_mail_object_at rec.now at) }
    ensures within { IfOk result (λ found. found.1 ≤ length rec.now) }
{
    let (account, next) = get_acct(alloc, rec, at)?;
    Ok((ObjectName::BankMail(account), next))
}

/// Appends an object whose account is within its bounds.
#[tactic(auto, unfolding(crate::specs::Coding::object_bytes))]
pub fn put_object(value: &ObjectName, out: &mut Vec<u8>) -> Result<(), OutOfMemory>
    requires { IsSoundObject value.now }
    ensures bytes { OnOk result (out.new.items ≡ out.old.items ++ object_bytes value.now) }
    ensures kept { StartsWith out.new.items out.old.items }
{
    match value {
        ObjectName::Intra(account) => {
            put_u8(&0, out)?;
            put_acct(account, out)
        }
        ObjectName::RecIntra(account) => {
            put_u8(&1, out)?;
            put_acct(account, out)
        }
        ObjectName::BankMail(account) => {
            put_u8(&2, out)?;
            put_acct(account, out)
        }
        ObjectName::Mail => put_u8(&3, out),
    }
}

#[tactic(auto, unfolding(crate::specs::AskReading::after_at))]
fn after(alloc: Global, rec: &[u8], at: usize) -> Result<(SyncKind, usize), RecordFault>
    requires { at ≤ length rec.now }
    ensures gives { ReadsField result (after_at rec.now at) }
    ensures within { IfOk result (λ found. found.1 ≤ length rec.now) }
{
    let (token, next) = get_filled_text(alloc, rec, at, 64)?;
    Ok((SyncKind::After(token), next))
}

#[tactic(auto, unfolding(crate::specs::AskReading::sync_kind_at))]
fn get_sync_kind(alloc: Global, rec: &[u8], at: usize) -> Result<(SyncKind, usize), RecordFault>
    requires { at ≤ length rec.now }
    ensures gives { ReadsField result (sync_kind_at rec.now at) }
    ensures within { IfOk result (λ found. found.1 ≤ length rec.now) }
{
    let (kind, next) = get_u8(rec, at)?;
    match kind {
        0 => after(alloc, rec, next),
        1 => Ok((SyncKind::TokenOnly, next)),
        2 => Ok((SyncKind::Refresh, next)),
        _ => Err(RecordFault::Bad(at as u64)),
    }
}

#[tactic(auto, unfolding(crate::specs::Coding::sync_kind_bytes))]
fn put_sync_kind(kind: &SyncKind, out: &mut Vec<u8>) -> Result<(), OutOfMemory>
    requires { IsSoundKind kind.now }
    ensures bytes { OnOk result (out.new.items ≡ out.old.items ++ sync_kind_bytes kind.now) }
    ensures kept { StartsWith out.new.items out.old.items }
{
    match kind {
        SyncKind::After(token) => {
            put_u8(&0, out)?;
            put_text(token, out)
        }
        SyncKind::TokenOnly => put_u8(&1, out),
        SyncKind::Refresh => put_u8(&2, out),
    }
}

/// A deed of the family, under its uid.
#[tactic(auto, unfolding(crate::specs::AskReading::pair_at))]
fn get_pair(
    alloc: Global,
    family: Family,
    rec: &[u8],
    at: usize,
) -> Result<((TrnUid, Deed), usize), RecordFault>
    requires { at ≤ length rec.now }
    ensures gives { ReadsField result (pair_at family rec.now at) }
    ensures within { IfOk result (λ found. found.1 ≤ length rec.now) }
{
    let (uid, next) = get_given_uid(rec, at)?;
    let (deed, next) = get_deed(alloc, Some(family), rec, next)?;
    Ok(((uid, deed), next))
}

/// This many deeds of the family.
fn pairs_from(
    alloc: Global,
    count: u16,
    family: Family,
    rec: &[u8],
    at: usize,
) -> Result<(Deeds, usize), RecordFault>
    requires { at ≤ length rec.now }
    ensures gives { ReadsField result (pairs_from count family rec.now at) }
    ensures within { IfOk result (λ found. found.1 ≤ length rec.now) }
{
    let mut pairs = Sequence::new(alloc);
    let mut next = at;
    for _ in 0..count {
        let (pair, suffix) = get_pair(alloc, family, rec, next)?;
        pairs.push(pair)?;
        next = suffix;
    }
    Ok((pairs, next))
}

#[tactic(auto, unfolding(crate::specs::AskReading::pairs_at))]
fn get_pairs(
    alloc: Global,
    family: Family,
    rec: &[u8],
    at: usize,
) -> Result<(Deeds, usize), RecordFault>
    requires { at ≤ length rec.now }
    ensures gives { ReadsField result (pairs_at family rec.now at) }
    ensures within { IfOk result (λ found. found.1 ≤ length rec.now) }
{
    let (count, next) = get_u16(rec, at)?;
    pairs_from(alloc, count, family, rec, next)
}

fn put_pair(pair: &(TrnUid, Deed), family: Family, out: &mut Vec<u8>) -> Result<(), OutOfMemory>
    requires { IsSoundPair family pair.now }
    ensures bytes { OnOk result (out.new.items ≡ out.old.items ++ pair_bytes pair.now) }
    ensures kept { StartsWith out.new.items out.old.items }
{
    put_trnuid(&pair.0, out)?;
    put_deed(&pair.1, out)
}

#[tactic(auto, using(ofx_types::proofs::Bytes::prefix_of_prefix))]
fn put_pairs(pairs: &[(TrnUid, Deed)], family: Family, out: &mut Vec<u8>) -> Result<(), OutOfMemory>
    requires few { length pairs.now ≤ 65535 }
    requires sound { AllByRecursion (IsSoundPair family) pairs.now }
    ensures bytes { OnOk result (out.new.items ≡ out.old.items ++ list_bytes pair_bytes pairs.now) }
    ensures kept { StartsWith out.new.items out.old.items }
{
    put_u16(&(pairs.len() as u16), out)?;
    for pair in pairs {
        put_pair(pair, family, out)?;
    }
    Ok(())
}

/// The synchronisation at `at`, which may not be of an account's object after a mail ask.
#[tactic(auto, unfolding(crate::specs::AskReading::sync_at))]
pub(crate) fn get_sync(
    alloc: Global,
    is_after_mail: bool,
    rec: &[u8],
    at: usize,
) -> Result<(SyncAsk, usize), RecordFault>
    requires { at ≤ length rec.now }
    ensures gives { ReadsField result (sync_at is_after_mail rec.now at) }
    ensures within { IfOk result (λ found. found.1 ≤ length rec.now) }
{
    let (object, next) = get_object_after(alloc, is_after_mail, rec, at)?;
    let (kind, next) = get_sync_kind(alloc, rec, next)?;
    let (reject, next) = get_flag(rec, next)?;
    let (deeds, next) = get_pairs(alloc, object.family(), rec, next)?;
    let ask = SyncAsk {
        object,
        kind,
        reject,
        deeds,
    };
    Ok((ask, next))
}

/// Appends a synchronisation.
#[tactic(auto, unfolding(crate::specs::Coding::sync_bytes))]
pub(crate) fn put_sync(ask: &SyncAsk, out: &mut Vec<u8>) -> Result<(), OutOfMemory>
    requires { IsSoundSync ask.now }
    ensures bytes { OnOk result (out.new.items ≡ out.old.items ++ sync_bytes ask.now) }
    ensures kept { StartsWith out.new.items out.old.items }
{
    put_object(&ask.object, out)?;
    put_sync_kind(&ask.kind, out)?;
    put_flag(&ask.reject, out)?;
    put_pairs(ask.deeds.items(), ask.object.family(), out)
}
