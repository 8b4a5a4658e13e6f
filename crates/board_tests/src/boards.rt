//! Boards for the tests.

ghost use Rattle.std.specs.Prelude.{◌≡◌, []};

use ofx_types::OutOfMemory;
use std::alloc::Global;
use std::process::Abort;
use token_board::{Board, Pass, Writer};

/// A new board. Where memory is refused to one call, the next one makes it: a refusal takes nothing away.
pub fn board_of(rt: &impl Abort, alloc: Global, start: &[u64]) -> (Board, Writer, Pass)
    ensures board { result.0.start ≡ start.now }
    ensures writer { result.1 ≡ record { table = result.0.table; log = []; claimed = [] } }
    ensures pass { result.2 ≡ record { table = result.0.table; seen = []; mine = []; polled = [] } }
{
    match Board::new(alloc, start) {
        Ok(made) => made,
        Err(OutOfMemory) => Board::new(alloc, start).expect(rt, "room"),
    }
}
