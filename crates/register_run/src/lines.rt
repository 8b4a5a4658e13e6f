//! The lines that are printed.

ghost use Rattle.std.specs.Prelude.{◌≡◌, ◌++◌, MatchResult, IfOk, OnOk, ◌≢◌, Err};
ghost use Rattle.register_run.specs.Lines as rules;
ghost use Rattle.register_run.specs.Lines.{IsLineOf};
ghost use Rattle.ofx_types.specs.AmountForm.{amount_text};

use crate::stop::Stop;
use crate::tallies::Tally;
use file_register::{ImportFault, Imported, Line};
use ofx_types::{AcctName, OutOfMemory};
use ofx_values::{print_amount, print_number};
use std::alloc::Global;

/// The line of a file that was imported.
fn import_line(alloc: Global, counts: Imported) -> Result<Vec<u8>, OutOfMemory>
    ensures { IfOk result (λ line. line.items ≡ rules.import_line counts) }
{
    let mut line = Vec::from_slice(alloc, b"IMPORT ")?;
    print_number(u64::from(counts.new), &mut line)?;
    line.push(b' ')?;
    print_number(u64::from(counts.known), &mut line)?;
    line.push(b'\n')?;
    Ok(line)
}

/// The line of a file whose signon failed.
fn signon_line(alloc: Global, code: u16) -> Result<Vec<u8>, OutOfMemory>
    ensures { IfOk result (λ line. line.items ≡ rules.signon_line code) }
{
    let mut line = Vec::from_slice(alloc, b"SIGNON ")?;
    print_number(u64::from(code), &mut line)?;
    line.push(b'\n')?;
    Ok(line)
}

/// The line of a file with a line that clashes.
fn clash_line(alloc: Global, clash: &Line) -> Result<Vec<u8>, OutOfMemory>
    ensures { IfOk result (λ line. line.items ≡ rules.clash_line clash.now) }
{
    let mut line = Vec::from_slice(alloc, b"CLASH ")?;
    line.extend_from_slice(clash.account.number.as_bytes())?;
    line.push(b' ')?;
    line.extend_from_slice(clash.account.kind.word())?;
    line.push(b' ')?;
    print_number(clash.fitid, &mut line)?;
    line.push(b'\n')?;
    Ok(line)
}

/// What is printed of a file that was handed to the register, where memory was not refused.
pub(crate) fn outcome_line(
    alloc: Global,
    outcome: &Result<Imported, ImportFault>,
) -> Result<Vec<u8>, OutOfMemory>
    ensures { IfOk result (λ line. IsLineOf outcome.now line.items) }
{
    match outcome {
        Ok(counts) => import_line(alloc, *counts),
        Err(ImportFault::Signon(code)) => signon_line(alloc, *code),
        Err(ImportFault::Clash(_, other)) => clash_line(alloc, other),
        Err(ImportFault::Full) => Ok(Vec::from_slice(alloc, b"FULL\n")?),
        Err(ImportFault::OutOfMemory) => Err(OutOfMemory),
    }
}

/// Appends the start of an account's line: its number and its kind.
fn put_account(account: &AcctName, out: &mut Vec<u8>) -> Result<(), OutOfMemory>
    ensures { OnOk result (out.new.items ≡ out.old.items ++ rules.account_words account.now) }
{
    out.extend_from_slice(b"account ")?;
    out.extend_from_slice(account.number.as_bytes())?;
    out.push(b' ')?;
    out.extend_from_slice(account.kind.word())?;
    Ok(())
}

/// Appends the end of an account's line: the number of its lines and their sum.
fn put_numbers(tally: &Tally, out: &mut Vec<u8>) -> Result<(), OutOfMemory>
    ensures { OnOk result (out.new.items ≡ out.old.items ++ rules.number_words tally.now) }
{
    out.extend_from_slice(b" lines ")?;
    print_number(tally.count, out)?;
    out.extend_from_slice(b" sum ")?;
    print_amount(tally.sum, out)?;
    out.push(b'\n')?;
    Ok(())
}

/// Appends the line of an account.
pub(crate) fn put_tally(tally: &Tally, out: &mut Vec<u8>) -> Result<(), OutOfMemory>
    ensures { OnOk result (out.new.items ≡ out.old.items ++ rules.account_line tally.now) }
{
    put_account(&tally.account, out)?;
    put_numbers(tally, out)
}
