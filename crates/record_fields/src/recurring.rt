//! How a transfer recurs.

ghost use Rattle.std.specs.Prelude.{◌≡◌, ◌≢◌, ◌<◌, ◌≤◌, ◌^◌, ◌++◌, length, slice_get, IfOk, OnOk};
ghost use Rattle.std.specs.Io.{StartsWith};
ghost use Rattle.std.specs.Option.{ForSome};
ghost use Rattle.bank_model.specs.Sound.{IsSoundRecur};
ghost use Rattle.record_fields.specs.declared.fault.RecordFault.{RecordFault};
ghost use Rattle.record_fields.specs.Answers.{ReadsField};
ghost use Rattle.record_fields.specs.FieldCoding.{recur_bytes, freq_number, optional_bytes, u16_bytes};
ghost use Rattle.record_fields.specs.FieldReading.{choice_at, optional_at, count_at};
ghost use Rattle.record_fields.specs.PartReading.{freqs, recur_at};

use crate::bounded::get_count;
use crate::fault::RecordFault;
use crate::number::{get_flag, get_u8, put_u8, put_u16};
use ofx_types::{Freq, OutOfMemory, Recur};

fn freq_of(number: u8) -> Option<Freq>
    ensures { result ≡ slice_get freqs number }
{
    match number {
        0 => Some(Freq::Weekly),
        1 => Some(Freq::Biweekly),
        2 => Some(Freq::TwiceMonthly),
        3 => Some(Freq::Monthly),
        4 => Some(Freq::FourWeeks),
        5 => Some(Freq::Bimonthly),
        6 => Some(Freq::Quarterly),
        7 => Some(Freq::Semiannually),
        8 => Some(Freq::Annually),
        _ => None,
    }
}

fn number_of(freq: Freq) -> u8
    ensures { result ≡ freq_number freq }
{
    match freq {
        Freq::Weekly => 0,
        Freq::Biweekly => 1,
        Freq::TwiceMonthly => 2,
        Freq::Monthly => 3,
        Freq::FourWeeks => 4,
        Freq::Bimonthly => 5,
        Freq::Quarterly => 6,
        Freq::Semiannually => 7,
        Freq::Annually => 8,
    }
}

#[tactic(auto, unfolding(crate::specs::FieldReading::choice_at))]
fn get_freq(rec: &[u8], at: usize) -> Result<(Freq, usize), RecordFault>
    requires { at ≤ length rec.now }
    ensures gives { ReadsField result (choice_at freqs rec.now at) }
    ensures within { IfOk result (λ found. found.1 ≤ length rec.now) }
    // It takes no memory.
    ensures sure { result ≢ Err RecordFault.OutOfMemory }
{
    let (number, next) = get_u8(rec, at)?;
    match freq_of(number) {
        Some(freq) => Ok((freq, next)),
        None => Err(RecordFault::Bad(at as u64)),
    }
}

#[tactic(auto, unfolding(crate::specs::FieldReading::optional_at))]
fn get_optional_count(rec: &[u8], at: usize) -> Result<(Option<u32>, usize), RecordFault>
    requires { at ≤ length rec.now }
    ensures gives { ReadsField result (optional_at count_at rec.now at) }
    ensures within { IfOk result (λ found. found.1 ≤ length rec.now) }
    // It takes no memory.
    ensures sure { result ≢ Err RecordFault.OutOfMemory }
{
    let (is_there, next) = get_flag(rec, at)?;
    if !is_there {
        return Ok((None, next));
    }
    let (count, next) = get_count(rec, next)?;
    Ok((Some(count), next))
}

/// How a transfer recurs, at `at`.
///
/// `Bad(k)` at the first field without a form, at k: whether there is an end, the number of transfers, 1 to 999, or how
/// often one is made.
#[tactic(auto, unfolding(crate::specs::PartReading::recur_at))]
pub fn get_recur(rec: &[u8], at: usize) -> Result<(Recur, usize), RecordFault>
    requires { at ≤ length rec.now }
    ensures gives { ReadsField result (recur_at rec.now at) }
    ensures within { IfOk result (λ found. found.1 ≤ length rec.now) }
    // It takes no memory.
    ensures sure { result ≢ Err RecordFault.OutOfMemory }
{
    let (count, next) = get_optional_count(rec, at)?;
    let (freq, next) = get_freq(rec, next)?;
    Ok((Recur { count, freq }, next))
}

fn put_optional_count(count: Option<u32>, out: &mut Vec<u8>) -> Result<(), OutOfMemory>
    requires { ForSome count (λ n. n < 2 ^ 16) }
    ensures bytes { OnOk result (out.new.items ≡ out.old.items ++ optional_bytes u16_bytes count) }
    ensures kept { StartsWith out.new.items out.old.items }
{
    match count {
        None => put_u8(&0, out),
        Some(count) => {
            put_u8(&1, out)?;
            put_u16(&(count as u16), out)
        }
    }
}

/// Appends how a transfer recurs: 1 to 999 times, or with no end.
#[tactic(auto, unfolding(crate::specs::FieldCoding::recur_bytes))]
pub fn put_recur(value: &Recur, out: &mut Vec<u8>) -> Result<(), OutOfMemory>
    requires { IsSoundRecur value.now }
    ensures bytes { OnOk result (out.new.items ≡ out.old.items ++ recur_bytes value.now) }
    ensures kept { StartsWith out.new.items out.old.items }
{
    put_optional_count(value.count, out)?;
    put_u8(&number_of(value.freq), out)
}
