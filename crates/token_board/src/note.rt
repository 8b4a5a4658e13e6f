//! A note of how long the log is, and of the ending that somebody's call came to.

ghost use Rattle.std.specs.Prelude.{◌≡◌};

use crate::rule::Place;
use std::marker::Model;

/// What a writer tells a pass: the log as it was, and the ending that the pass is to own.
pub struct Note {
    pub(crate) seat: Place,
}

impl Model for Note {
    ghost use Rattle.token_board.specs.Views.{NoteView};
    ghost use Rattle.token_board.specs.Holders.{IsNote};

    ghost Value = { NoteView };

    ghost view = { λ n. record { table = n.seat.table_id; log = n.seat.me.0.seen; claimed = n.seat.me.0.owned } };

    ghost invariant = { λ n. IsNote n.seat.me };
}

impl Drop for Note {
    fn drop(self) {
        let Note { seat: _ } = self;
    }
}

impl Note {
    ghost use Rattle.token_board.specs.Holders.{IsNote};

    /// The seat that the note is.
    pub(crate) fn into_seat(self) -> Place
        ensures view { (result.table_id ≡ self.table) × (result.me.0.seen ≡ self.log) × (result.me.0.owned ≡ self.claimed) }
        ensures note { IsNote result.me }
    {
        let Note { seat } = self;
        seat
    }
}
