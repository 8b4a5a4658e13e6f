//! The entries that came, for contracts alone.

ghost use Rattle.std.specs.Prelude.{◌≡◌, ◌∷◌, ◌++◌, []};
ghost use Rattle.bank_history.specs.EntryTrace.{entries_of};

use bank_model::Entry;
use std::snapshot::Snapshot;

/// The entries that came, one after another. It has no bytes of theirs.
#[derive(Drop)]
pub(crate) enum EntryTrace {
    /// None came.
    Start,
    /// One more.
    After(Snapshot<EntryTrace>, Snapshot<Entry>),
}

/// One entry more. Takes no memory.
pub(crate) fn after(past: &EntryTrace, entry: &Entry) -> EntryTrace
    ensures { entries_of result ≡ entries_of past.now ++ entry.now ∷ [] }
{
    EntryTrace::After(Snapshot::of(past), Snapshot::of(entry))
}
