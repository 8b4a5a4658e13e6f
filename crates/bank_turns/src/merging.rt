//! Numbers of accounts in two lists, put in order.

ghost use Rattle.std.specs.Prelude.{◌≡◌, ◌↔◌, ◌⊎◌, ◌<◌, map, IfOk, IsTrue, All, Contains};
ghost use Rattle.std.specs.List.Sorted.{IsStrictlyIncreasing};
ghost use Rattle.ofx_types.specs.declared.number.AcctId.{AcctId};

use ofx_types::{AcctId, OutOfMemory};
use std::alloc::Global;

/// The numbers below a count that are in one of two lists, in rising order and each once.
pub fn merged(
    alloc: Global,
    count: u32,
    first: &[AcctId],
    second: &[AcctId],
) -> Result<Vec<AcctId>, OutOfMemory>
    ensures rising { IfOk result (λ all. IsStrictlyIncreasing (map (λ number. number.0) all.items)) }
    ensures known { IfOk result (λ all. All (λ number. number.0 < count) all.items) }
    ensures both { IfOk result (λ all. (number : AcctId) → number.0 < count
        → (Contains first.now number ⊎ Contains second.now number) ↔ Contains all.items number) }
{
    let mut all = Vec::new(alloc);
    for number in 0..count {
        let number = AcctId(number);
        if is_in_either(first, second, number) {
            all.push(number)?;
        }
    }
    Ok(all)
}

fn is_in_either(first: &[AcctId], second: &[AcctId], number: AcctId) -> bool
    ensures { IsTrue result ↔ (Contains first.now number ⊎ Contains second.now number) }
{
    is_in(first, number) || is_in(second, number)
}

fn is_in(numbers: &[AcctId], number: AcctId) -> bool
    ensures { IsTrue result ↔ Contains numbers.now number }
{
    numbers.contains(&number)
}
