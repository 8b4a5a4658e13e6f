//! The lines of a file that a register doesn't have, each once.

ghost use Rattle.std.specs.Prelude.{◌≡◌, ◌<◌, length, IfOk, IfErr, IfSome, IfNone};
ghost use Rattle.file_register.specs.Order.{line_cmp};
ghost use Rattle.file_register.specs.Registers.{IsRising};
ghost use Rattle.file_register.specs.Gathering.{IsFound, IsFoundAt, IsNewTo, Agrees, TakesLine, Gathered, StopsAt};

use crate::import::ImportFault;
use crate::line::Line;
use crate::ranked::Ranked;
use ofx_types::Duplicate;
use std::alloc::Global;
use std::cmp::Ordering;
use std::collections::BTreeSet;

/// The index of the line of the same account and FITID among lines in order; `Err` where there is none.
fn search(lines: &[Line], line: &Line) -> Result<usize, usize>
    requires { IsRising lines.now }
    ensures found { IfOk result (IsFoundAt lines.now line.now) }
    ensures absent { IfErr result (λ at. IsNewTo lines.now line.now) }
{
    lines.binary_search_by(
        |other| -> Ordering
            ensures { result ≡ line_cmp other.now line.entry.now }
        { other.compare(line) },
    )
}

/// The line of the same account and FITID among lines in order.
fn find_among<'a>(lines: &'a [Line], line: &Line) -> Option<&'a Line>
    requires { IsRising lines.now }
    ensures found { IfSome result (λ found. IsFound lines.now line.now found.now) }
    ensures absent { IfNone result (IsNewTo lines.now line.now) }
{
    match search(lines, line) {
        Ok(at) => Some(&lines[at]),
        Err(_) => None,
    }
}

/// Whether a line has the date and amount of the one kept under its account and FITID.
fn agree(kept: &Line, line: Line) -> Result<(), ImportFault>
    ensures { Agrees kept.now line result }
{
    if kept.posted.0 == line.posted.0 && kept.amount.0 == line.amount.0 {
        Ok(())
    } else {
        Err(ImportFault::Clash(kept.copy()?, line))
    }
}

/// Takes one line more among the new ones, unless it is there or among the old ones.
fn take_line(old: &[Line], fresh: &mut BTreeSet<Ranked>, line: Line) -> Result<(), ImportFault>
    requires { IsRising old.now }
    ensures { TakesLine old.now fresh.old.keys line result fresh.new.keys }
{
    if let Some(kept) = find_among(old, &line) {
        return agree(kept, line);
    }
    let ranked = Ranked::new(line);
    if let Some(kept) = fresh.get(&ranked) {
        return agree(kept.line(), ranked.into_line());
    }
    match fresh.insert(ranked) {
        Ok(_) => Ok(()),
        Err(_) => Err(ImportFault::OutOfMemory),
    }
}

/// The lines that are not among the old ones, which are in order.
pub(crate) fn gather(
    alloc: Global,
    old: &[Line],
    lines: &[Line],
) -> Result<BTreeSet<Ranked>, ImportFault>
    requires { IsRising old.now }
    ensures gathered { IfOk result (λ fresh. Gathered old.now lines.now fresh.keys) }
    ensures stopped { IfErr result (StopsAt old.now lines.now) }
{
    let mut fresh = BTreeSet::new(alloc);
    for line in lines {
        take_line(old, &mut fresh, line.copy()?)?;
    }
    Ok(fresh)
}
