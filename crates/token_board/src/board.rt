//! The board: a word for each object's newest token.

ghost use Rattle.std.specs.Prelude.{◌≡◌, ◌+◌, ◌<◌, [], ◌∷◌, ◌++◌, length, IfOk};
ghost use Rattle.token_board.specs.Steps.{load_of};
ghost use Rattle.token_board.specs.Tokens.{IsFreshIn};

use crate::pass::Pass;
use crate::rule::{BoardTable, First};
use crate::steps::{load_token, miss_token};
use crate::writer::Writer;
use atomic_table::Table;
use ofx_types::{ObjectId, OutOfMemory, Sequence};
use std::alloc::Global;
use std::marker::{Brand, Model};
use std::snapshot::Snapshot;

/// The newest token of each object, and the count of a log's endings. Whoever has a reference may load them with a pass.
///
/// ```rust
/// use ofx_types::ObjectId;
/// use token_board::Board;
///
/// // Object 1 has an entry with the number 7; object 0 has none.
/// let (board, mut writer, mut pass) = Board::new(rt.alloc(), &[0, 7]).expect(&rt, "room");
/// assert!(rt; board.newest(&mut pass, ObjectId(1)) == 7);
/// // Each worker has a pass of its own, which learns what the writer's notes say.
/// let mut worker = pass.split(&board);
/// worker.meet(&board, writer.note(&board));
/// assert!(rt; board.newest(&mut worker, ObjectId(0)) == 0);
/// ```
pub struct Board {
    pub(crate) table: BoardTable,
}

impl Model for Board {
    ghost use Rattle.std.specs.Prelude.{drop};
    ghost use Rattle.token_board.specs.Views.{BoardView};
    ghost use Rattle.token_board.specs.Holders.{IsBoard};

    ghost Value = { BoardView };

    ghost view = { λ b. record { table = b.table.shared.table_id; start = drop 1 b.table.shared.key.value } };

    ghost invariant = { λ b. IsBoard b.table.shared.table_id.words (drop 1 b.table.shared.key.value) };
}

impl Drop for Board {
    fn drop(self) {
        let Board { table: _ } = self;
    }
}

impl Board {
    /// A board whose objects have these last entries, by their numbers, or 0; its writer, before anything is published; and its
    /// first pass, which has seen nothing.
    pub fn new(alloc: Global, start: &[u64]) -> Result<(Board, Writer, Pass), OutOfMemory>
        ensures board { IfOk result (λ made. made.0.start ≡ start.now) }
        ensures writer { IfOk result (λ made. made.1 ≡ record { table = made.0.table; log = []; claimed = [] }) }
        ensures pass { IfOk result (λ made. made.2 ≡ record { table = made.0.table; seen = []; mine = []; polled = [] }) }
    {
        let mut words = Vec::with_capacity(alloc, start.len() + 1)?;
        words.push_reserved(0);
        words.extend_from_slice(start)?;
        let words = Sequence::from_vec(words);
        let opening = Snapshot::of(&words);
        let (table, mut seat) = Table::of_words(alloc, words.items(), &opening)?;
        let shared = &table.shared;
        let pass = Pass {
            seat: shared.split_seat::<First>(&mut seat),
        };
        Ok((Board { table }, Writer { seat, ended: 0 }, pass))
    }

    /// The newest token of an object: the number of its last entry, 0 where it has none. It is no older than what the pass has
    /// seen. One load; takes no memory and doesn't wait.
    pub fn newest(&self, pass: &mut Pass, object: ObjectId) -> u64
        requires own { pass.old.table ≡ self.now.table }
        ensures polled { pass.new ≡ record pass.old { polled = pass.old.polled ++ load_of object result ∷ [] } }
        ensures fresh { IsFreshIn self.now.start pass.old.seen (load_of object result) }
    {
        let table = &self.table;
        let shared = &table.shared;
        if object.0 as usize + 1 < table.word_count() {
            load_token::<Brand>(shared, &mut pass.seat, object)
        } else {
            miss_token::<Brand>(shared, &mut pass.seat, object)
        }
    }
}
