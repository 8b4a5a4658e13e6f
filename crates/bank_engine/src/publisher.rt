//! Who publishes what happens to a bank.

ghost use Rattle.std.specs.Prelude.{◌≡◌, ℕ, ◌+◌, ◌%◌, ◌^◌, List, [], ◌∷◌, ◌++◌, None, Some, length, map};
ghost use Rattle.bank_model.specs.declared.entry.Entry.{Entry as AnEntry};
ghost use Rattle.bank_model.specs.declared.log.LogItem.{LogItem};
ghost use Rattle.bank_model.specs.declared.log.LogItem.TheVariants.{Effect, Answer, Adopted, Fault};
ghost use Rattle.bank_model.specs.Log.{endings};

use bank_model::{Entry, Event};
use ofx_types::Moment;

/// Who publishes the items of a bank's log in their order: the entries that an event adds, and then its ending. None of its calls
/// takes memory.
pub trait Publisher {
    // the items so far
    ghost log: { Self → List LogItem };

    // whether these entries may be published next, and after them an ending
    ghost expects: { Self → List AnEntry → Type 0 };

    // the borrow that it publishes through, if it has one: it stays the same
    ghost through: { Self → ℕ };

    // what it publishes to: it stays the same too
    ghost Target: { Type 0 };

    ghost target: { Self → Target };

    // what is true of it, whatever it has published, since its log was this one
    ghost since: { Self → List LogItem → Type 0 };

    /// The number of the ending that comes next, modulo 2^64.
    fn next_number(&self) -> u64
        ensures { result ≡ (length (endings (log self.now)) + 1) % 2 ^ 64 };

    /// The entries of the event whose ending comes next.
    fn effects(&mut self, entries: &[Entry])
        requires { expects self.old entries.now }
        ensures log { log self.new ≡ log self.old ++ map Effect entries.now }
        ensures next { expects self.new [] }
        ensures through { through self.new ≡ through self.old }
        ensures target { target self.new ≡ target self.old }
        ensures since { (before : List LogItem) → since self.old before → since self.new before };

    /// The event has happened at that moment, and this is its reply.
    fn answer(&mut self, event: &Event, at: Moment, reply: &Vec<u8>)
        requires { expects self.old [] }
        ensures log { log self.new ≡ log self.old ++ Answer event.now at reply.now.items ∷ [] }
        ensures through { through self.new ≡ through self.old }
        ensures target { target self.new ≡ target self.old }
        ensures since { (before : List LogItem) → since self.old before → since self.new before };

    /// The event whose append failed in the ending of this number has happened at its moment after all.
    fn adopted(&mut self, fault: u64, event: &Event, at: Moment)
        requires { expects self.old [] }
        ensures log { log self.new ≡ log self.old ++ Adopted fault event.now at ∷ [] }
        ensures through { through self.new ≡ through self.old }
        ensures target { target self.new ≡ target self.old }
        ensures since { (before : List LogItem) → since self.old before → since self.new before };

    /// The append of an event failed, and raised the keeper's count of faults to this one.
    fn failed(&mut self, count: u64, event: &Event, at: Moment)
        requires { expects self.old [] }
        ensures log { log self.new ≡ log self.old ++ Fault count (Some (event.now, at)) ∷ [] }
        ensures through { through self.new ≡ through self.old }
        ensures target { target self.new ≡ target self.old }
        ensures since { (before : List LogItem) → since self.old before → since self.new before };

    /// The settling of an append that had failed did so too, and raised the keeper's count of faults to this one.
    fn unsettled(&mut self, count: u64)
        requires { expects self.old [] }
        ensures log { log self.new ≡ log self.old ++ Fault count None ∷ [] }
        ensures through { through self.new ≡ through self.old }
        ensures target { target self.new ≡ target self.old }
        ensures since { (before : List LogItem) → since self.old before → since self.new before };
}
