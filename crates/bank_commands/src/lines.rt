//! The six lines that say what came of a rehearsal.

ghost use Rattle.std.specs.Prelude.{◌≡◌, ◌++◌, codes, IfOk, OnOk};
ghost use Rattle.ofx_types.specs.AmountForm.{amount_text};
ghost use Rattle.bank_commands.specs.Rehearsing.{line, number_line, rehearsal_text};

use ofx_types::{Cents, OutOfMemory};
use ofx_values::{print_amount, print_number};
use ofx_world::Summary;
use std::alloc::Global;

/// Room for the lines.
const ROOM: usize = 256;

/// Appends a name, a space, a number and LF.
fn put_number(name: &[u8], number: u64, out: &mut Vec<u8>) -> Result<(), OutOfMemory>
    ensures { OnOk result (out.new.items ≡ out.old.items ++ number_line name.now number) }
{
    out.extend_from_slice(name)?;
    out.push(b' ')?;
    print_number(number, out)?;
    out.push(b'\n')?;
    Ok(())
}

/// Appends `sum`, a space, an amount and LF.
fn put_sum(sum: Cents, out: &mut Vec<u8>) -> Result<(), OutOfMemory>
    ensures { OnOk result (out.new.items ≡ out.old.items ++ line (codes "sum") (amount_text sum.0)) }
{
    out.extend_from_slice(b"sum")?;
    out.push(b' ')?;
    print_amount(sum, out)?;
    out.push(b'\n')?;
    Ok(())
}

/// The lines of the rehearsal of a seed.
#[tactic(auto, unfolding(crate::specs::Rehearsing::rehearsal_text))]
pub(crate) fn lines_of(alloc: Global, seed: u64, came: Summary) -> Result<Vec<u8>, OutOfMemory>
    ensures { IfOk result (λ lines. lines.items ≡ rehearsal_text seed came) }
{
    let mut out = Vec::with_capacity(alloc, ROOM)?;
    put_number(b"rehearse", seed, &mut out)?;
    put_number(b"files", came.files, &mut out)?;
    put_number(b"events", came.events, &mut out)?;
    put_number(b"entries", came.entries, &mut out)?;
    put_sum(came.sum, &mut out)?;
    put_number(b"lost", came.lost, &mut out)?;
    Ok(out)
}
