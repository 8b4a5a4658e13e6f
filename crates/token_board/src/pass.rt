//! What one caller knows of the log.

ghost use Rattle.std.specs.Prelude.{◌≡◌, ◌++◌, []};
ghost use Rattle.token_board.specs.Tokens.{Begins, AreAbove, AreEndings};
ghost use Rattle.token_board.specs.Views.{longer};

use crate::board::Board;
use crate::note::Note;
use crate::rule::{Child, Compares, Meets, Place};
use std::marker::Model;

/// What one caller knows: a prefix of the log, which endings in it are its own, and the tokens that it has loaded.
pub struct Pass {
    pub(crate) seat: Place,
}

impl Model for Pass {
    ghost use Rattle.token_board.specs.Views.{PassView};
    ghost use Rattle.token_board.specs.Holders.{IsPass};

    ghost Value = { PassView };

    ghost view = { λ p. record { table = p.seat.table_id; seen = p.seat.me.0.seen; mine = p.seat.me.0.owned; polled = p.seat.me.0.tokens } };

    ghost invariant = { λ p. IsPass p.seat.me };
}

impl Drop for Pass {
    fn drop(self) {
        let Pass { seat: _ } = self;
    }
}

impl Pass {
    /// A pass for one more caller, which has seen and loaded what this one has and owns no ending. Takes no memory.
    pub fn split(&mut self, board: &Board) -> Pass
        requires own { self.old.table ≡ board.now.table }
        ensures same { self.new ≡ self.old }
        ensures child { result ≡ record self.old { mine = [] } }
    {
        let table = &board.table;
        let shared = &table.shared;
        Pass {
            seat: shared.split_seat::<Child>(&mut self.seat),
        }
    }

    /// Takes in what a note says: the pass has then seen the longer one of both logs, which the other one begins, and owns the
    /// ending that the note claims. Takes no memory.
    pub fn meet(&mut self, board: &Board, note: Note)
        requires own { (self.old.table ≡ board.now.table) × (note.table ≡ board.now.table) }
        requires above { AreAbove note.claimed self.old.mine }
        ensures seen { self.new.seen ≡ longer self.old.seen note.log }
        ensures begins { Begins self.old.seen self.new.seen × Begins note.log self.new.seen }
        ensures mine { self.new.mine ≡ self.old.mine ++ note.claimed }
        ensures endings { AreEndings self.new.seen self.new.mine }
        ensures kept { (self.new.table ≡ self.old.table) × (self.new.polled ≡ self.old.polled) }
    {
        let table = &board.table;
        let shared = &table.shared;
        shared.join_seat::<Meets>(&mut self.seat, note.into_seat());
        shared.load::<Compares>(&mut self.seat, 0);
    }
}
