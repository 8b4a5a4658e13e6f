//! The next transfer of a recurring transfer, and which of two comes first.

ghost use Rattle.std.specs.Prelude.{◌≡◌};
ghost use Rattle.bank_recur.specs.Spawning as spawning;

use ofx_types::Day;

/// A transfer to be made: its day, and the recurring transfer that makes it.
#[derive(Clone, Copy)]
pub(crate) struct Spawn {
    pub(crate) day: Day,
    pub(crate) id: u64,
}

/// Whether one comes before another: the earlier day comes first, and on one day the lesser id.
pub(crate) fn is_before(a: &Spawn, b: &Spawn) -> bool
    ensures { result ≡ spawning.is_before_spawn a.now b.now }
{
    a.day.0 < b.day.0 || (a.day.0 <= b.day.0 && a.id < b.id)
}
