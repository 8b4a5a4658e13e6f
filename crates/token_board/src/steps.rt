//! Steps that tell of what isn't in the words: an item that is published, and what a board began with.

ghost use Rattle.std.specs.Prelude.{◌≡◌, ◌+◌, ◌<◌, ◌≤◌, ◌%◌, ◌^◌, true, [], ◌∷◌, ◌++◌, length, drop, All};
ghost use Rattle.bank_model.specs.declared.log.LogItem.TheVariants.{Effect};
ghost use Rattle.bank_model.specs.Log.{endings};
ghost use Rattle.token_board.specs.Holders.{IsBoard};
ghost use Rattle.token_board.specs.Steps.{with_item, load_of, GetsToken};
ghost use Rattle.token_board.specs.Tokens.{Begins, numbers_in, IsTokenIn};
ghost use Rattle.token_board.specs.Views.{item_of};

use crate::rule::{Checks, Loads, Misses, Place, Publication, Publishes, Question, Words};
use bank_model::{Ending, Entry};
use ofx_types::ObjectId;

/// Publishes an entry, by a store to its object's word.
pub(crate) fn publish_entry<E: Publication>(words: &Words, seat: &mut Place, entry: &Entry)
    requires item { E.item ≡ Effect entry.now }
    requires own { seat.old.table_id ≡ words.now.table_id }
    requires board { IsBoard words.now.table_id.words (drop 1 words.now.key.value) }
    requires writer { seat.old.me.0.writes ≡ true }
    requires object { entry.now.object.0 < length (drop 1 words.now.key.value) }
    requires above { All (λ n. n < entry.now.number) (numbers_in (drop 1 words.now.key.value) seat.old.me.0.seen) }
    ensures own { seat.new.table_id ≡ seat.old.table_id }
    ensures view { seat.new.me ≡ (with_item (Effect entry.now) seat.old.me.0, seat.old.me.1) }
{
    words.store::<Publishes<E>>(seat, entry.object.0 as usize + 1, entry.number);
}

/// Publishes an ending, by a store of the count of all endings to word 0.
pub(crate) fn publish_ending<E: Publication>(
    words: &Words,
    seat: &mut Place,
    ending: &Ending<'_>,
    count: u64,
)
    requires item { E.item ≡ item_of ending.now }
    requires own { seat.old.table_id ≡ words.now.table_id }
    requires board { IsBoard words.now.table_id.words (drop 1 words.now.key.value) }
    requires writer { seat.old.me.0.writes ≡ true }
    requires count { count ≡ length (endings (seat.old.me.0.seen ++ item_of ending.now ∷ [])) % 2 ^ 64 }
    ensures own { seat.new.table_id ≡ seat.old.table_id }
    ensures view { seat.new.me ≡ (with_item (item_of ending.now) seat.old.me.0, seat.old.me.1) }
{
    words.store::<Publishes<E>>(seat, 0, count);
}

/// Loads the token of one of the board's objects.
pub(crate) fn load_token<Q: Question>(words: &Words, seat: &mut Place, object: ObjectId) -> u64
    requires start { Q.start ≡ drop 1 words.now.key.value }
    requires asked { Q.object ≡ object }
    requires own { seat.old.table_id ≡ words.now.table_id }
    requires board { IsBoard words.now.table_id.words (drop 1 words.now.key.value) }
    requires within { object.0 < length (drop 1 words.now.key.value) }
    ensures own { (seat.new.table_id ≡ seat.old.table_id) × (seat.new.me.1 ≡ seat.old.me.1) }
    ensures view { GetsToken (drop 1 words.now.key.value) (load_of object result) seat.old.me.0 seat.new.me.0 }
{
    words.load::<Loads<Q>>(seat, object.0 as usize + 1)
}

/// The token of an object that isn't one of the board's, which is 0.
pub(crate) fn miss_token<Q: Question>(words: &Words, seat: &mut Place, object: ObjectId) -> u64
    requires start { Q.start ≡ drop 1 words.now.key.value }
    requires asked { Q.object ≡ object }
    requires own { seat.old.table_id ≡ words.now.table_id }
    requires board { IsBoard words.now.table_id.words (drop 1 words.now.key.value) }
    requires beyond { length (drop 1 words.now.key.value) ≤ object.0 }
    ensures own { (seat.new.table_id ≡ seat.old.table_id) × (seat.new.me.1 ≡ seat.old.me.1) }
    ensures view { GetsToken (drop 1 words.now.key.value) (load_of object result) seat.old.me.0 seat.new.me.0 }
{
    let _asked = object;
    words.load::<Misses<Q>>(seat, 0);
    0
}

/// Checks what the writer has heard against the rule.
pub(crate) fn check_heard<Q: Question>(words: &Words, seat: &mut Place)
    requires start { Q.start ≡ drop 1 words.now.key.value }
    requires own { seat.old.table_id ≡ words.now.table_id }
    requires board { IsBoard words.now.table_id.words (drop 1 words.now.key.value) }
    requires writer { seat.old.me.0.writes ≡ true }
    ensures own { (seat.new.table_id ≡ seat.old.table_id) × (seat.new.me ≡ seat.old.me) }
    ensures seen { Begins seat.old.me.0.heard seat.old.me.0.seen }
    ensures tokens { All (IsTokenIn (drop 1 words.now.key.value) seat.old.me.0.seen) seat.old.me.0.tokens }
{
    words.load::<Checks<Q>>(seat, 0);
}
