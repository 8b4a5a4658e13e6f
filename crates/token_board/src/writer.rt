//! The one who publishes the items of the log.

ghost use Rattle.std.specs.Prelude.{◌≡◌, ◌+◌, ◌<◌, ◌≤◌, ◌%◌, ◌^◌, [], ◌∷◌, ◌++◌, length, All};
ghost use Rattle.bank_model.specs.declared.log.LogItem.TheVariants.{Effect};
ghost use Rattle.bank_model.specs.Log.{endings};
ghost use Rattle.token_board.specs.Tokens.{Begins, numbers_in, IsTokenIn};
ghost use Rattle.token_board.specs.Views.{item_of, claims_of};

use crate::board::Board;
use crate::note::Note;
use crate::pass::Pass;
use crate::rule::{Child, Hears, Notes, Place};
use crate::steps::{check_heard, publish_ending, publish_entry};
use bank_model::{Ending, Entry};
use std::marker::{Brand, Model};

/// The writer of a log, whose items contracts alone read. It claims the ending that it has published until a note takes it.
pub struct Writer {
    pub(crate) seat: Place,
    /// The endings modulo 2^64.
    pub(crate) ended: u64,
}

impl Model for Writer {
    ghost use Rattle.token_board.specs.Views.{WriterView};
    ghost use Rattle.token_board.specs.Holders.{IsWriter};

    ghost Value = { WriterView };

    ghost view = { λ w. record { table = w.seat.table_id; log = w.seat.me.0.seen; claimed = w.seat.me.0.owned } };

    ghost invariant = { λ w. IsWriter w.ended w.seat.me };
}

impl Drop for Writer {
    fn drop(self) {
        let Writer { seat: _, ended: _ } = self;
    }
}

impl Writer {
    /// The number of the ending that comes next, modulo 2^64. Takes no memory.
    pub fn next_number(&self) -> u64
        ensures { result ≡ (length (endings self.now.log) + 1) % 2 ^ 64 }
    {
        self.ended.wrapping_add(1)
    }

    /// Publishes an entry of the event whose ending comes next: it is its object's newest token from then on. The object is one
    /// of the board's, and the entry's number is above all others. One store; takes no memory.
    pub fn publish_effect(&mut self, board: &Board, entry: &Entry)
        requires own { self.old.table ≡ board.now.table }
        requires object { entry.now.object.0 < length board.now.start }
        requires above { All (λ number. number < entry.now.number) (numbers_in board.now.start self.old.log) }
        ensures log { self.new ≡ record self.old { log = self.old.log ++ Effect entry.now ∷ [] } }
        ensures numbers { numbers_in board.now.start self.new.log ≡ numbers_in board.now.start self.old.log ++ entry.now.number ∷ [] }
    {
        let table = &board.table;
        publish_entry::<Brand>(&table.shared, &mut self.seat, entry);
    }

    /// Publishes an ending, and claims it where it is an answer or a fault. Nothing was claimed before. One store; takes no
    /// memory.
    pub fn publish_answer(&mut self, board: &Board, ending: &Ending<'_>)
        requires own { self.old.table ≡ board.now.table }
        requires unclaimed { self.old.claimed ≡ [] }
        ensures log { self.new.log ≡ self.old.log ++ item_of ending.now ∷ [] }
        ensures claimed { self.new.claimed ≡ claims_of (item_of ending.now) (length (endings self.new.log)) }
        ensures table { self.new.table ≡ self.old.table }
        ensures numbers { numbers_in board.now.start self.new.log ≡ numbers_in board.now.start self.old.log }
    {
        let table = &board.table;
        let count = self.ended.wrapping_add(1);
        publish_ending::<Brand>(&table.shared, &mut self.seat, ending, count);
        self.ended = count;
    }

    /// A note of the log, which takes what is claimed. Takes no memory.
    pub fn note(&mut self, board: &Board) -> Note
        requires own { self.old.table ≡ board.now.table }
        ensures kept { self.new ≡ record self.old { claimed = [] } }
        ensures note { result ≡ record { table = self.old.table; log = self.old.log; claimed = self.old.claimed } }
    {
        let table = &board.table;
        let shared = &table.shared;
        Note {
            seat: shared.split_seat::<Notes>(&mut self.seat),
        }
    }

    /// Hears what a pass has seen and loaded: what it has seen begins the log, each token of at least 1 that it has loaded is the
    /// number of an entry of its object, and its endings are among the log's. Takes no memory.
    pub fn hear(&mut self, board: &Board, pass: &mut Pass)
        requires own { (self.old.table ≡ board.now.table) × (pass.old.table ≡ board.now.table) }
        ensures same { (self.new ≡ self.old) × (pass.new ≡ pass.old) }
        ensures seen { Begins pass.old.seen self.old.log }
        ensures tokens { All (IsTokenIn board.now.start self.old.log) pass.old.polled }
        ensures mine { All (λ number. number ≤ length (endings self.old.log)) pass.old.mine }
    {
        let table = &board.table;
        let shared = &table.shared;
        let child = shared.split_seat::<Child>(&mut pass.seat);
        shared.join_seat::<Hears>(&mut self.seat, child);
        check_heard::<Brand>(shared, &mut self.seat);
    }
}
