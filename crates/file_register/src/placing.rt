//! New lines put among those of a register.

ghost use Rattle.std.specs.Prelude.{◌≡◌, ◌≤◌, ◌+◌, ◌++◌, vec_len, vec_capacity, OnOk, OnErr};
ghost use Rattle.std.specs.List.Sorted.{IsPermutation, IsSortedBy};
ghost use Rattle.std.specs.Ordering.{is_lt};
ghost use Rattle.std.specs.BTreeSet.{btree_set_len};
ghost use Rattle.file_register.specs.Order.{line_cmp};

use crate::line::Line;
use crate::ranked::Ranked;
use ofx_types::OutOfMemory;
use std::cmp::Ordering;
use std::collections::BTreeSet;

/// Appends lines in their order, for which there is room.
fn append(lines: &mut Vec<Line>, fresh: BTreeSet<Ranked>)
    requires { vec_len lines.old + btree_set_len fresh ≤ vec_capacity lines.old }
    ensures { lines.new.items ≡ lines.old.items ++ fresh.keys }
{
    let mut left = fresh;
    while let Some(ranked) = left.pop_first() {
        lines.push_reserved(ranked.into_line());
    }
}

/// Puts lines into their order.
fn sort(lines: &mut Vec<Line>) -> Result<(), OutOfMemory>
    ensures moved { IsPermutation lines.old.items lines.new.items }
    ensures sorted { OnOk result (IsSortedBy (λ one other. is_lt (line_cmp one other)) lines.new.items) }
    ensures refused { OnErr result (lines.new.items ≡ lines.old.items) }
{
    let sorted = lines.sort_by(
        |one, other| -> Ordering
            ensures { result ≡ line_cmp one.now other.now }
        { one.compare(other) },
    );
    match sorted {
        Ok(()) => Ok(()),
        Err(_) => Err(OutOfMemory),
    }
}

/// Puts new lines among others. Where memory is refused the others are as before.
pub(crate) fn add_all(lines: &mut Vec<Line>, fresh: BTreeSet<Ranked>) -> Result<(), OutOfMemory>
    ensures added { OnOk result (IsPermutation (lines.old.items ++ fresh.keys) lines.new.items) }
    ensures sorted { OnOk result (IsSortedBy (λ one other. is_lt (line_cmp one other)) lines.new.items) }
    ensures refused { OnErr result (lines.new.items ≡ lines.old.items) }
{
    let count = lines.len();
    lines.reserve(fresh.len())?;
    append(lines, fresh);
    match sort(lines) {
        Ok(()) => Ok(()),
        Err(OutOfMemory) => {
            lines.truncate(count);
            Err(OutOfMemory)
        }
    }
}
