//! The rule of the board, and the steps that keep it.

use crate::view::View;
use atomic_table::{Join, Play, Seat, Shared, Split, Table, TableRule};
use ofx_types::Sequence;
use std::alloc::Global;
use std::marker::{Brand, PhantomData};
use std::snapshot::Snapshot;

/// The words with which the board begins: 0, and after it the number of each object's last entry.
pub(crate) type Opening = Snapshot<Sequence<u64>>;

/// The rule of the words and the views.
pub(crate) struct BoardRule;

impl TableRule<(), View, Opening> for BoardRule {
    ghost use Rattle.std.specs.Prelude.{drop};
    ghost use Rattle.token_board.specs.Rule.{Ruled};
    ghost use Rattle.token_board.specs.Steps.{fresh_writer};

    ghost holds = { λ key. Ruled (drop 1 key.value) };

    ghost first = { λ key. fresh_writer };
}

pub(crate) type Words = Shared<(), View, Opening, BoardRule>;

pub(crate) type BoardTable = Table<(), View, Opening, BoardRule, Global>;

pub(crate) type Place = Seat<(), View>;

/// What is published in a step, for contracts alone.
pub(crate) trait Publication {
    ghost use Rattle.bank_model.specs.declared.log.LogItem.{LogItem};

    ghost item: { LogItem };
}

impl Publication for Brand {
    ghost use Rattle.std.specs.Prelude.{None};
    ghost use Rattle.bank_model.specs.declared.log.LogItem.TheVariants.{Fault};

    ghost item = { Fault 0 None };
}

/// What a board began with, and the object that is asked about, for contracts alone.
pub(crate) trait Question {
    ghost use Rattle.std.specs.Prelude.{ℕ, List};
    ghost use Rattle.ofx_types.specs.declared.number.ObjectId.{ObjectId};

    ghost start: { List ℕ };

    ghost object: { ObjectId };
}

impl Question for Brand {
    ghost use Rattle.std.specs.Prelude.{[]};

    ghost start = { [] };

    ghost object = { record { 0 = 0 } };
}

/// The log gets an item.
pub(crate) struct Publishes<E> {
    publication: PhantomData<E>,
}

impl<E: Publication> Play<(), View> for Publishes<E> {
    ghost use Rattle.token_board.specs.Steps.{published};

    ghost then = { published E.item };
}

/// A token of an object is loaded.
pub(crate) struct Loads<Q> {
    question: PhantomData<Q>,
}

impl<Q: Question> Play<(), View> for Loads<Q> {
    ghost use Rattle.token_board.specs.Steps.{loaded};

    ghost then = { loaded Q.start Q.object };
}

/// An object has no word.
pub(crate) struct Misses<Q> {
    question: PhantomData<Q>,
}

impl<Q: Question> Play<(), View> for Misses<Q> {
    ghost use Rattle.token_board.specs.Steps.{unknown};

    ghost then = { unknown Q.start Q.object };
}

/// A pass compares a note's log with its own.
pub(crate) struct Compares;

impl Play<(), View> for Compares {
    ghost use Rattle.token_board.specs.Steps.{compared};

    ghost then = { compared };
}

/// The writer checks what it has heard.
pub(crate) struct Checks<Q> {
    question: PhantomData<Q>,
}

impl<Q: Question> Play<(), View> for Checks<Q> {
    ghost use Rattle.token_board.specs.Steps.{checked};

    ghost then = { checked Q.start };
}

/// A pass gets a child.
pub(crate) struct Child;

impl Split<View> for Child {
    ghost use Rattle.token_board.specs.Steps.{child};

    ghost left = { λ view. view };

    ghost right = { child };
}

/// The writer makes a note.
pub(crate) struct Notes;

impl Split<View> for Notes {
    ghost use Rattle.token_board.specs.Steps.{noted, note_of};

    ghost left = { noted };

    ghost right = { note_of };
}

/// The writer gives the first pass, which knows nothing.
pub(crate) struct First;

impl Split<View> for First {
    ghost use Rattle.token_board.specs.Steps.{empty};

    ghost left = { λ view. view };

    ghost right = { λ view. empty };
}

/// A pass meets a note.
pub(crate) struct Meets;

impl Join<View> for Meets {
    ghost use Rattle.token_board.specs.Steps.{with_note, empty};

    ghost both = { with_note };

    ghost spent = { empty };
}

/// The writer hears a pass.
pub(crate) struct Hears;

impl Join<View> for Hears {
    ghost use Rattle.token_board.specs.Steps.{with_heard, empty};

    ghost both = { with_heard };

    ghost spent = { empty };
}
