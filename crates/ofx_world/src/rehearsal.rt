//! A rehearsal: 2,000 turns of a world, each an hour on the clock and at most one step, drawn from a seed, and what came of them.

mod bank;
mod chance;
mod summary;
mod turn;
mod wish;

ghost use Rattle.std.specs.Prelude.{IfOk};
ghost use Rattle.ofx_world.specs.Rehearsal.{IsRehearsed};

use crate::rehearsal::bank::rehearsed_world;
use crate::rehearsal::chance::Chance;
use crate::rehearsal::summary::summary_of;
use crate::rehearsal::turn::run_turn;
use ofx_types::OutOfMemory;
use std::alloc::Global;
use std::hash::RandomState;
pub use summary::Summary;

/// How many turns a rehearsal has.
const TURNS: u32 = 2_000;

/// Rehearses: from that seed steps are drawn for a bank of three users and their clients, one an hour, and made. The bank finds
/// clients' names by hashes with these keys.
#[tactic(auto, using(crate::proofs::Turns::one_turn, crate::proofs::Turns::no_turn))]
pub fn rehearse(alloc: Global, keys: RandomState, seed: u64) -> Result<Summary, OutOfMemory>
    ensures { IfOk result (IsRehearsed seed) }
{
    let mut world = rehearsed_world(alloc, keys)?;
    let mut chance = Chance::new(seed);
    for turn in 0..TURNS {
        run_turn(alloc, &mut world, &mut chance, turn)?;
    }
    summary_of(alloc, world)
}
