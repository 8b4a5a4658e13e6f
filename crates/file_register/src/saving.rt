//! The saved text of a register, written and read.

ghost use Rattle.std.specs.Prelude.{◌≡◌, ◌<◌, ◌≤◌, ◌^◌, ◌++◌, length, None, IfOk, OnOk};
ghost use Rattle.std.specs.Option.{option_copied};
ghost use Rattle.std.specs.List.{AllByRecursion, flat_map};
ghost use Rattle.record_fields.specs.Answers.{ReadsField};
ghost use Rattle.file_register.specs.Lines.{IsSoundLine};
ghost use Rattle.file_register.specs.Registers.{IsRegister};
ghost use Rattle.file_register.specs.Coding.{line_bytes, register_text};
ghost use Rattle.file_register.specs.Reading as reading;
ghost use Rattle.file_register.specs.Reading.{entry_at, line_at, count_at, coding_at, register_at, register_read};
ghost use Rattle.file_register.specs.SavedText.{IsSavedText, GivesLines};

use crate::line::{Line, compare_accounts};
use ofx_types::{AcctName, Duplicate, OutOfMemory, Sequence};
use record_fields::{
    RecordFault, get_acct, get_amount, get_moment, get_u8, get_u32, get_u64, put_acct, put_i64,
    put_u8, put_u32, put_u64,
};
use std::alloc::Global;
use std::cmp::Ordering;
use thiserror::Error;

/// The version of the coding.
const CODING: u8 = 1;

/// The most lines of a saved text.
const MAX_COUNT: u32 = 500_000;

/// Why a text is no register's, or why it couldn't be read.
#[derive(Clone, Copy, Debug, PartialEq, Eq, Error)]
pub enum RegisterFault {
    /// The first field without a form begins at this byte, counted from 0.
    #[error("the saved text has no form at byte {0}")]
    Bad(u64),
    /// Memory was refused.
    #[error("out of memory")]
    OutOfMemory,
}

impl From<OutOfMemory> for RegisterFault {
    ghost use Rattle.file_register.specs.declared.saving.RegisterFault.TheVariants as faults;

    ghost from_gives = { λ _ e. e ≡ faults.OutOfMemory };

    fn from(_refused: OutOfMemory) -> RegisterFault {
        RegisterFault::OutOfMemory
    }
}

// ---- writing

#[tactic(auto, unfolding(crate::specs::Coding::line_bytes))]
fn put_line(line: &Line, out: &mut Vec<u8>) -> Result<(), OutOfMemory>
    requires { IsSoundLine line.now }
    ensures { OnOk result (out.new.items ≡ out.old.items ++ line_bytes line.now) }
{
    put_acct(&line.account, out)?;
    put_u64(&line.fitid, out)?;
    put_i64(&line.posted.0, out)?;
    put_i64(&line.amount.0, out)
}

fn put_lines(lines: &[Line], out: &mut Vec<u8>) -> Result<(), OutOfMemory>
    requires { AllByRecursion IsSoundLine lines.now }
    ensures { OnOk result (out.new.items ≡ out.old.items ++ flat_map line_bytes lines.now) }
{
    for line in lines {
        put_line(line, out)?;
    }
    Ok(())
}

#[tactic(auto, unfolding(crate::specs::Coding::register_text))]
fn put_register(lines: &[Line], out: &mut Vec<u8>) -> Result<(), OutOfMemory>
    requires { IsRegister lines.now }
    ensures { OnOk result (out.new.items ≡ out.old.items ++ register_text lines.now) }
{
    put_u8(&CODING, out)?;
    put_u32(&(lines.len() as u32), out)?;
    put_lines(lines, out)
}

/// The text that is saved of lines.
pub(crate) fn write_register(alloc: Global, lines: &[Line]) -> Result<Vec<u8>, OutOfMemory>
    requires { IsRegister lines.now }
    ensures { IfOk result (λ text. IsSavedText text.items lines.now) }
{
    let mut out = Vec::new(alloc);
    put_register(lines, &mut out)?;
    Ok(out)
}

// ---- reading

/// Whether an account and a FITID are above those of the line before.
#[tactic(auto, unfolding(crate::specs::Reading::is_above))]
fn is_above(before: Option<&Line>, account: &AcctName, fitid: u64) -> bool
    ensures { result ≡ reading.is_above (option_copied before.entry) account.now fitid }
{
    match before {
        None => true,
        Some(line) => match compare_accounts(&line.account, account) {
            Ordering::Less => true,
            Ordering::Equal => line.fitid < fitid,
            Ordering::Greater => false,
        },
    }
}

/// The account, in the memory of the line before where that is of the same one.
fn shared(before: Option<&Line>, account: AcctName) -> Result<AcctName, OutOfMemory>
    ensures { IfOk result (λ same. same ≡ account) }
{
    match before {
        Some(line) => {
            if line.account == account {
                line.account.copy()
            } else {
                Ok(account)
            }
        }
        None => Ok(account),
    }
}

/// The account and the FITID of a line at `at`, after another.
#[tactic(auto, unfolding(crate::specs::Reading::entry_at))]
fn get_entry(
    alloc: Global,
    before: Option<&Line>,
    text: &[u8],
    at: usize,
) -> Result<((AcctName, u64), usize), RecordFault>
    requires { at ≤ length text.now }
    ensures gives { ReadsField result (entry_at (option_copied before.entry) text.now at) }
    ensures within { IfOk result (λ found. found.1 ≤ length text.now) }
{
    let (account, next) = get_acct(alloc, text, at)?;
    let (fitid, next) = get_u64(text, next)?;
    if !is_above(before, &account, fitid) {
        return Err(RecordFault::Bad(at as u64));
    }
    Ok(((shared(before, account)?, fitid), next))
}

/// The line at `at`, after another.
#[tactic(auto, unfolding(crate::specs::Reading::line_at))]
fn get_line(
    alloc: Global,
    before: Option<&Line>,
    text: &[u8],
    at: usize,
) -> Result<(Line, usize), RecordFault>
    requires { at ≤ length text.now }
    ensures gives { ReadsField result (line_at (option_copied before.entry) text.now at) }
    ensures within { IfOk result (λ found. found.1 ≤ length text.now) }
{
    let ((account, fitid), next) = get_entry(alloc, before, text, at)?;
    let (posted, next) = get_moment(text, next)?;
    let (amount, next) = get_amount(text, next)?;
    let line = Line {
        account,
        fitid,
        posted,
        amount,
    };
    Ok((line, next))
}

/// This many lines in rising order.
fn lines_from(
    alloc: Global,
    count: u32,
    text: &[u8],
    at: usize,
) -> Result<(Sequence<Line>, usize), RecordFault>
    requires { at ≤ length text.now }
    ensures gives { ReadsField result (reading.lines_from count None text.now at) }
    ensures within { IfOk result (λ found. found.1 ≤ length text.now) }
{
    let mut lines = Sequence::new(alloc);
    let mut next = at;
    for _ in 0..count {
        let (line, rest) = get_line(alloc, lines.items().last(), text, next)?;
        lines.push(line)?;
        next = rest;
    }
    Ok((lines, next))
}

/// The number of lines at `at`.
#[tactic(auto, unfolding(crate::specs::Reading::count_at))]
fn get_count(text: &[u8], at: usize) -> Result<(u32, usize), RecordFault>
    requires { at ≤ length text.now }
    ensures gives { ReadsField result (count_at text.now at) }
    ensures within { IfOk result (λ found. found.1 ≤ length text.now) }
{
    let (count, next) = get_u32(text, at)?;
    if count > MAX_COUNT {
        return Err(RecordFault::Bad(at as u64));
    }
    Ok((count, next))
}

/// The version of the coding at `at`.
#[tactic(auto, unfolding(crate::specs::Reading::coding_at))]
fn get_coding(text: &[u8], at: usize) -> Result<(u8, usize), RecordFault>
    requires { at ≤ length text.now }
    ensures gives { ReadsField result (coding_at text.now at) }
    ensures within { IfOk result (λ found. found.1 ≤ length text.now) }
{
    let (version, next) = get_u8(text, at)?;
    if version != CODING {
        return Err(RecordFault::Bad(at as u64));
    }
    Ok((version, next))
}

#[tactic(auto, unfolding(crate::specs::Reading::register_at))]
fn get_register(
    alloc: Global,
    text: &[u8],
    at: usize,
) -> Result<(Sequence<Line>, usize), RecordFault>
    requires { at ≤ length text.now }
    ensures gives { ReadsField result (register_at text.now at) }
    ensures within { IfOk result (λ found. found.1 ≤ length text.now) }
{
    let (_, next) = get_coding(text, at)?;
    let (count, next) = get_count(text, next)?;
    lines_from(alloc, count, text, next)
}

#[tactic(auto, unfolding(crate::specs::Reading::register_read))]
fn read_whole(alloc: Global, text: &[u8]) -> Result<Sequence<Line>, RecordFault>
    ensures { ReadsField result (register_read text.now) }
{
    let (lines, next) = get_register(alloc, text, 0)?;
    if next != text.len() {
        return Err(RecordFault::Bad(next as u64));
    }
    Ok(lines)
}

/// The lines of which a text is the saved text.
pub(crate) fn read_register(alloc: Global, text: &[u8]) -> Result<Sequence<Line>, RegisterFault>
    ensures { GivesLines result (register_read text.now) }
{
    match read_whole(alloc, text) {
        Ok(lines) => Ok(lines),
        Err(RecordFault::Bad(at)) => Err(RegisterFault::Bad(at)),
        Err(RecordFault::OutOfMemory) => Err(RegisterFault::OutOfMemory),
        // Nothing but a whole record is of a version.
        Err(RecordFault::Version(_)) => unreachable!(),
    }
}
