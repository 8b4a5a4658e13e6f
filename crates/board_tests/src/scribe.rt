//! Who publishes at a board in the tests.

ghost use Rattle.std.specs.Prelude.{◌≡◌, ◌<◌, ◌≤◌, [], All, length};
ghost use Rattle.token_board.specs.Tokens.{numbers_in};

use bank_model::{Ending, Entry};
use ofx_types::{Change, ObjectId, TrnUid};
use std::process::Abort;
use token_board::laws::{endings_are_claimed, heard_passes_meet};
use token_board::{Board, Note, Pass, Writer};

/// The object whose entries are published.
pub const FIRST: ObjectId = ObjectId(0);

/// The writer of a board, and a pass that owns the endings. It publishes entries of the first object, and no number on the board
/// is above the last one.
#[derive(Drop)]
pub struct Scribe<'a> {
    board: &'a Board,
    writer: Writer,
    pass: Pass,
    entry: Entry,
    last: u64,
    ghost own: { (writer.table ≡ board.now.table) × (pass.table ≡ board.now.table) },
    ghost unclaimed: { writer.claimed ≡ [] },
    ghost first: { (entry.object.0 ≡ 0) × (0 < length board.now.start) },
    ghost below: { All (λ number. number ≤ last) (numbers_in board.now.start writer.log) },
}

impl<'a> Scribe<'a> {
    /// A scribe at a new board whose numbers aren't above this one.
    pub fn new(
        rt: &impl Abort,
        board: &'a Board,
        writer: Writer,
        pass: Pass,
        last: u64,
    ) -> Scribe<'a>
        requires own { (writer.table ≡ board.now.table) × (pass.table ≡ board.now.table) }
        requires unclaimed { writer.claimed ≡ [] }
        requires first { 0 < length board.now.start }
        requires below { All (λ number. number ≤ last) (numbers_in board.now.start writer.log) }
        ensures board { result.board.now ≡ board.now }
        ensures last { result.last ≡ last }
    {
        let entry = Entry {
            number: last,
            object: FIRST,
            trnuid: TrnUid::new(b"x").expect(rt, "a uid"),
            change: Change::DropTransfer(1),
        };
        Scribe {
            board,
            writer,
            pass,
            entry,
            last,
        }
    }

    /// Publishes an entry of this number and an ending, and has the pass meet the note of both.
    pub fn publish(&mut self, number: u64)
        requires { self.old.last < number }
        ensures board { self.new.board.now ≡ self.old.board.now }
        ensures last { self.new.last ≡ number }
    {
        endings_are_claimed();
        heard_passes_meet();
        let Scribe {
            board,
            writer,
            pass,
            entry,
            last,
        } = self;
        entry.number = number;
        writer.hear(board, pass);
        writer.publish_effect(board, entry);
        writer.publish_answer(board, &Ending::Fault(number, None));
        pass.meet(board, writer.note(board));
        *last = number;
    }

    /// Has another pass meet a note of what was published.
    pub fn tell(&mut self, other: &mut Pass)
        requires { other.old.table ≡ self.old.board.now.table }
        ensures board { self.new.board.now ≡ self.old.board.now }
        ensures table { other.new.table ≡ other.old.table }
        ensures last { self.new.last ≡ self.old.last }
    {
        other.meet(self.board, self.writer.note(self.board));
    }

    /// A note of what was published, which claims nothing.
    pub fn note(&mut self) -> Note
        ensures table { result.table ≡ self.old.board.now.table }
        ensures claimed { result.claimed ≡ [] }
        ensures board { self.new.board.now ≡ self.old.board.now }
    {
        self.writer.note(self.board)
    }

    /// The newest token of an object, as the scribe's pass is told it.
    pub fn token(&mut self, object: ObjectId) -> u64
        ensures board { self.new.board.now ≡ self.old.board.now }
        ensures last { self.new.last ≡ self.old.last }
    {
        self.board.newest(&mut self.pass, object)
    }
}
