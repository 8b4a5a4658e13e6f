//! Asks: what a file asks of the bank, those to the bank before mail.

ghost use Rattle.std.specs.Prelude.{◌≡◌, ◌≤◌, ◌++◌, false, length, IfOk, OnOk};
ghost use Rattle.std.specs.Io.{StartsWith};
ghost use Rattle.std.specs.List.{AllByRecursion};
ghost use Rattle.ofx_types.specs.DeedForm.{family_of};
ghost use Rattle.ofx_types.specs.SyncForm.{is_mail_family};
ghost use Rattle.ofx_types.specs.PrintedFile.{is_mail_ask};
ghost use Rattle.bank_model.specs.Sound.{IsSoundAsk};
ghost use Rattle.record_fields.specs.Answers.{ReadsField};
ghost use Rattle.record_fields.specs.FieldCoding.{optional_bytes, moment_bytes};
ghost use Rattle.event_codec.specs.Coding.{period_bytes, ask_bytes, asks_bytes};
ghost use Rattle.record_fields.specs.FieldReading.{optional_at, moment_at};
ghost use Rattle.event_codec.specs.AskReading.{period_at, statement_at, wanted_after, one_at, sync_ask_at, ask_of, ask_at, asks_from, asks_at};

use crate::deed::{get_deed, put_deed};
use crate::sync::{get_sync, put_sync};
use ofx_types::{Ask, Asks, Deed, Family, Moment, ObjectName, OutOfMemory, Period, Sequence};
use record_fields::{
    RecordFault, get_acct, get_flag, get_given_uid, get_moment, get_u8, get_u16, put_acct,
    put_flag, put_i64, put_trnuid, put_u8, put_u16,
};
use std::alloc::Global;

#[tactic(auto, unfolding(record_fields::specs::FieldReading::optional_at))]
fn get_optional_moment(rec: &[u8], at: usize) -> Result<(Option<Moment>, usize), RecordFault>
    requires { at ≤ length rec.now }
    ensures gives { ReadsField result (optional_at moment_at rec.now at) }
    ensures within { IfOk result (λ found. found.1 ≤ length rec.now) }
{
    let (is_there, next) = get_flag(rec, at)?;
    if !is_there {
        return Ok((None, next));
    }
    let (moment, next) = get_moment(rec, next)?;
    Ok((Some(moment), next))
}

fn put_optional_moment(moment: Option<Moment>, out: &mut Vec<u8>) -> Result<(), OutOfMemory>
    ensures bytes { OnOk result (out.new.items ≡ out.old.items ++ optional_bytes moment_bytes moment) }
    ensures kept { StartsWith out.new.items out.old.items }
{
    match moment {
        None => put_u8(&0, out),
        Some(moment) => {
            put_u8(&1, out)?;
            put_i64(&moment.0, out)
        }
    }
}

#[tactic(auto, unfolding(crate::specs::AskReading::period_at))]
fn get_period(rec: &[u8], at: usize) -> Result<(Period, usize), RecordFault>
    requires { at ≤ length rec.now }
    ensures gives { ReadsField result (period_at rec.now at) }
    ensures within { IfOk result (λ found. found.1 ≤ length rec.now) }
{
    let (start, next) = get_optional_moment(rec, at)?;
    let (end, next) = get_optional_moment(rec, next)?;
    let (include, next) = get_flag(rec, next)?;
    Ok((
        Period {
            start,
            end,
            include,
        },
        next,
    ))
}

#[tactic(auto, unfolding(crate::specs::Coding::period_bytes))]
fn put_period(period: Period, out: &mut Vec<u8>) -> Result<(), OutOfMemory>
    ensures bytes { OnOk result (out.new.items ≡ out.old.items ++ period_bytes period) }
    ensures kept { StartsWith out.new.items out.old.items }
{
    put_optional_moment(period.start, out)?;
    put_optional_moment(period.end, out)?;
    put_flag(&period.include, out)
}

#[tactic(auto, unfolding(record_fields::specs::FieldReading::optional_at))]
fn get_optional_period(rec: &[u8], at: usize) -> Result<(Option<Period>, usize), RecordFault>
    requires { at ≤ length rec.now }
    ensures gives { ReadsField result (optional_at period_at rec.now at) }
    ensures within { IfOk result (λ found. found.1 ≤ length rec.now) }
{
    let (is_there, next) = get_flag(rec, at)?;
    if !is_there {
        return Ok((None, next));
    }
    let (period, next) = get_period(rec, next)?;
    Ok((Some(period), next))
}

fn put_optional_period(period: Option<Period>, out: &mut Vec<u8>) -> Result<(), OutOfMemory>
    ensures bytes { OnOk result (out.new.items ≡ out.old.items ++ optional_bytes period_bytes period) }
    ensures kept { StartsWith out.new.items out.old.items }
{
    match period {
        None => put_u8(&0, out),
        Some(period) => {
            put_u8(&1, out)?;
            put_period(period, out)
        }
    }
}

/// Whether an ask is of mail about nothing in particular.
fn is_mail(ask: &Ask) -> bool
    ensures { result ≡ is_mail_ask ask.now }
{
    match ask {
        Ask::Statement(_, _, _) => false,
        Ask::One(_, deed) => is_mail_deed(deed),
        Ask::Sync(ask) => matches!(&ask.object, ObjectName::Mail),
    }
}

fn is_mail_deed(deed: &Deed) -> bool
    ensures { result ≡ is_mail_family (family_of deed.now) }
{
    match deed {
        Deed::Transfer(_) | Deed::ModifyTransfer(_, _) | Deed::CancelTransfer(_) => false,
        Deed::Model(_, _) | Deed::ModifyModel(_, _, _, _) | Deed::CancelModel(_, _) => false,
        Deed::BankMail(_, _) => false,
        Deed::Mail(_) => true,
    }
}

#[tactic(auto, unfolding(crate::specs::AskReading::statement_at))]
fn statement(alloc: Global, rec: &[u8], at: usize) -> Result<(Ask, usize), RecordFault>
    requires { at ≤ length rec.now }
    ensures gives { ReadsField result (statement_at rec.now at) }
    ensures within { IfOk result (λ found. found.1 ≤ length rec.now) }
{
    let (uid, next) = get_given_uid(rec, at)?;
    let (account, next) = get_acct(alloc, rec, next)?;
    let (period, next) = get_optional_period(rec, next)?;
    Ok((Ask::Statement(uid, account, period), next))
}

/// The family that a deed must be of: mail after a mail ask, and otherwise none, where any may follow.
fn wanted_after(is_after_mail: bool) -> Option<Family>
    ensures { result ≡ wanted_after is_after_mail }
{
    if is_after_mail {
        Some(Family::Mail)
    } else {
        None
    }
}

#[tactic(auto, unfolding(crate::specs::AskReading::one_at))]
fn one(
    alloc: Global,
    is_after_mail: bool,
    rec: &[u8],
    at: usize,
) -> Result<(Ask, usize), RecordFault>
    requires { at ≤ length rec.now }
    ensures gives { ReadsField result (one_at is_after_mail rec.now at) }
    ensures within { IfOk result (λ found. found.1 ≤ length rec.now) }
{
    let (uid, next) = get_given_uid(rec, at)?;
    let (deed, next) = get_deed(alloc, wanted_after(is_after_mail), rec, next)?;
    Ok((Ask::One(uid, deed), next))
}

#[tactic(auto, unfolding(crate::specs::AskReading::sync_ask_at))]
fn sync(
    alloc: Global,
    is_after_mail: bool,
    rec: &[u8],
    at: usize,
) -> Result<(Ask, usize), RecordFault>
    requires { at ≤ length rec.now }
    ensures gives { ReadsField result (sync_ask_at is_after_mail rec.now at) }
    ensures within { IfOk result (λ found. found.1 ≤ length rec.now) }
{
    let (ask, next) = get_sync(alloc, is_after_mail, rec, at)?;
    Ok((Ask::Sync(ask), next))
}

#[tactic(auto, unfolding(crate::specs::AskReading::ask_of))]
fn ask_of(
    alloc: Global,
    kind: u8,
    is_after_mail: bool,
    rec: &[u8],
    at: usize,
    next: usize,
) -> Result<(Ask, usize), RecordFault>
    requires { next ≤ length rec.now }
    ensures gives { ReadsField result (ask_of kind is_after_mail rec.now at next) }
    ensures within { IfOk result (λ found. found.1 ≤ length rec.now) }
{
    match kind {
        1 if is_after_mail => Err(RecordFault::Bad(at as u64)),
        1 => statement(alloc, rec, next),
        2 => one(alloc, is_after_mail, rec, next),
        3 => sync(alloc, is_after_mail, rec, next),
        _ => Err(RecordFault::Bad(at as u64)),
    }
}

/// The ask at `at`, which has to be of mail after a mail ask.
#[tactic(auto, unfolding(crate::specs::AskReading::ask_at))]
fn get_ask(
    alloc: Global,
    is_after_mail: bool,
    rec: &[u8],
    at: usize,
) -> Result<(Ask, usize), RecordFault>
    requires { at ≤ length rec.now }
    ensures gives { ReadsField result (ask_at is_after_mail rec.now at) }
    ensures within { IfOk result (λ found. found.1 ≤ length rec.now) }
{
    let (kind, next) = get_u8(rec, at)?;
    ask_of(alloc, kind, is_after_mail, rec, at, next)
}

/// This many asks, those to the bank before mail.
fn asks_from(alloc: Global, count: u16, rec: &[u8], at: usize) -> Result<(Asks, usize), RecordFault>
    requires { at ≤ length rec.now }
    ensures gives { ReadsField result (asks_from count false rec.now at) }
    ensures within { IfOk result (λ found. found.1 ≤ length rec.now) }
{
    let mut asks = Sequence::new(alloc);
    let mut is_after_mail = false;
    let mut next = at;
    for _ in 0..count {
        let (ask, suffix) = get_ask(alloc, is_after_mail, rec, next)?;
        is_after_mail = is_after_mail | is_mail(&ask);
        asks.push(ask)?;
        next = suffix;
    }
    Ok((asks, next))
}

/// The asks of a file at `at`.
///
/// `Bad(k)` at the first field without a form, at k. After an ask of mail only asks of mail have one.
#[tactic(auto, unfolding(crate::specs::AskReading::asks_at))]
pub fn get_asks(alloc: Global, rec: &[u8], at: usize) -> Result<(Asks, usize), RecordFault>
    requires { at ≤ length rec.now }
    ensures gives { ReadsField result (asks_at rec.now at) }
    ensures within { IfOk result (λ found. found.1 ≤ length rec.now) }
{
    let (count, next) = get_u16(rec, at)?;
    asks_from(alloc, count, rec, next)
}

#[tactic(auto, unfolding(crate::specs::Coding::ask_bytes))]
fn put_ask(ask: &Ask, out: &mut Vec<u8>) -> Result<(), OutOfMemory>
    requires { IsSoundAsk ask.now }
    ensures bytes { OnOk result (out.new.items ≡ out.old.items ++ ask_bytes ask.now) }
    ensures kept { StartsWith out.new.items out.old.items }
{
    match ask {
        Ask::Statement(trnuid, account, period) => {
            put_u8(&1, out)?;
            put_trnuid(trnuid, out)?;
            put_acct(account, out)?;
            put_optional_period(*period, out)
        }
        Ask::One(trnuid, deed) => {
            put_u8(&2, out)?;
            put_trnuid(trnuid, out)?;
            put_deed(deed, out)
        }
        Ask::Sync(ask) => {
            put_u8(&3, out)?;
            put_sync(ask, out)
        }
    }
}

/// Appends at most 65,535 asks that are within their bounds.
#[tactic(auto, using(ofx_types::proofs::Bytes::prefix_of_prefix))]
pub fn put_asks(value: &Asks, out: &mut Vec<u8>) -> Result<(), OutOfMemory>
    requires few { length value.now ≤ 65535 }
    requires sound { AllByRecursion IsSoundAsk value.now }
    ensures bytes { OnOk result (out.new.items ≡ out.old.items ++ asks_bytes value.now) }
    ensures kept { StartsWith out.new.items out.old.items }
{
    let asks = value.items();
    put_u16(&(asks.len() as u16), out)?;
    for ask in asks {
        put_ask(ask, out)?;
    }
    Ok(())
}
