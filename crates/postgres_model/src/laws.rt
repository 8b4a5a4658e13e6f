//! What holds of every schedule of calls: whatever the engine does late or never, whatever answers are lost, whichever keepers
//! take the log from one another, give up and start anew. Nothing here runs: each contract is a law.

ghost use Rattle.std.specs.Prelude.{◌≡◌, ◌+◌, ◌<◌, ◌≤◌, ◌++◌, ℕ, suc, List, Some, length, slice_get};
ghost use Rattle.postgres_model.specs.Engine.{numbered, Row, Request, Append, Took, Inserted};
ghost use Rattle.postgres_model.specs.World.{Acknowledged, Settled, Held, Keeper, Idle, Event, Done};
ghost use Rattle.postgres_model.specs.Laws.{reached, StandsFrom, has_landed, HasLog, texts};

/// A record whose append was acknowledged to a keeper is under its number for ever, whatever happens later.
pub fn acknowledged_records_stand()
    ensures { (early late : List Event) (j : ℕ) (a : Acknowledged) → slice_get (reached early).acknowledged j ≡ Some a
        → StandsFrom a.first a.group (reached (early ++ late)).engine.log }
{}

/// Of two keepers never both have a record of one number acknowledged, even of equal bytes.
pub fn one_keeper_has_each_number()
    ensures { (events : List Event) (i j m n : ℕ) (a b : Acknowledged)
        → slice_get (reached events).acknowledged i ≡ Some a → slice_get (reached events).acknowledged j ≡ Some b
        → m < length a.group → n < length b.group → a.first + m ≡ b.first + n → a.keeper ≡ b.keeper }
{}

/// After settling has answered whether an append's records are in the log, nothing changes it. An append whose records are
/// reported not to be there never lands later.
pub fn settled_appends_stay_settled()
    ensures { (early late : List Event) (j : ℕ) (s : Settled) → slice_get (reached early).settled j ≡ Some s
        → has_landed ((reached (early ++ late)).engine.calls s.append) ≡ s.holds }
{}

/// What a keeper holds is a prefix of the log, and the whole of it while its epoch is the log's and it has sent no append.
pub fn keepers_hold_a_prefix()
    ensures prefix { (events : List Event) (k : ℕ) (held : Held) → HasLog ((reached events).keepers k) held
        → StandsFrom 1 held.records (reached events).engine.log }
    ensures whole { (events : List Event) (k : ℕ) (held : Held) → (reached events).keepers k ≡ Idle held
        → (reached events).engine.log.epoch ≡ held.epoch → (reached events).engine.log.rows ≡ numbered 1 held.records }
{}

/// Whatever was ever appended under an epoch before one that was taken is among the records that this take got. So no
/// append of an epoch that is over lands later, and one that is heard of later was known already.
pub fn past_appends_are_told()
    ensures { (events : List Event) (t c k j epoch past first count : ℕ) (taking : Request) (rows : List Row) (group : List (List ℕ))
        → (reached events).engine.calls t ≡ Done k taking (Took epoch rows)
        → (reached events).engine.calls c ≡ Done j (Append past first group) (Inserted (suc count))
        → past < epoch → first + length group ≤ suc (length rows) }
{}

/// The log's numbers go up from 1 with no gap.
pub fn numbers_have_no_gap()
    ensures { (events : List Event) → (reached events).engine.log.rows ≡ numbered 1 (texts (reached events).engine.log.rows) }
{}
