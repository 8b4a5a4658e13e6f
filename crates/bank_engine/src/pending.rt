//! An event whose append failed.

ghost use Rattle.std.specs.Prelude.{◌≡◌, ◌+◌, ◌%◌, ◌^◌, List, [], ◌∷◌, ◌++◌, Some, length};
ghost use Rattle.bank_model.specs.declared.log.LogItem.{LogItem};
ghost use Rattle.bank_model.specs.declared.log.LogItem.TheVariants.{Fault};
ghost use Rattle.bank_model.specs.Log.{endings};

use crate::publisher::Publisher;
use crate::ready::Ready;
use bank_core::Prepared;
use bank_model::Event;
use ofx_types::Moment;

/// An event with its prepared step, which waits until it is settled whether its record is stored.
pub(crate) struct Pending {
    /// The event.
    pub(crate) event: Event,
    /// Its moment.
    pub(crate) at: Moment,
    /// The number of its fault among the endings of the log, modulo 2^64.
    pub(crate) number: u64,
    /// What it makes of the book.
    pub(crate) prepared: Prepared,
}

impl Pending {
    /// The event, its moment and its step. Takes no memory.
    pub(crate) fn into_step(self) -> (Event, Moment, Prepared)
        ensures event { result.0 ≡ self.event }
        ensures at { result.1 ≡ self.at }
        ensures prepared { result.2 ≡ self.prepared }
    {
        let Pending {
            event,
            at,
            number: _,
            prepared,
        } = self;
        (event, at, prepared)
    }
}

impl Drop for Pending {
    fn drop(self) {
        let Pending {
            event: _,
            at: _,
            number: _,
            prepared: _,
        } = self;
    }
}

/// Publishes that an append failed, to whose fault the keeper's count rose, and gives what is pending since.
pub(crate) fn put_off<L: Publisher>(log: &mut L, ready: Ready, count: u64) -> Pending
    requires expected { L.expects log.old [] }
    ensures log { L.log log.new ≡ L.log log.old ++ Fault count (Some (ready.event, ready.at)) ∷ [] }
    ensures through { L.through log.new ≡ L.through log.old }
    ensures target { L.target log.new ≡ L.target log.old }
    ensures since { (before : List LogItem) → L.since log.old before → L.since log.new before }
    ensures event { result.event ≡ ready.event }
    ensures at { result.at ≡ ready.at }
    ensures number { result.number ≡ (length (endings (L.log log.old)) + 1) % 2 ^ 64 }
    ensures prepared { result.prepared ≡ ready.prepared }
{
    let (event, at, prepared) = ready.into_step();
    let number = log.next_number();
    log.failed(count, &event, at);
    Pending {
        event,
        at,
        number,
        prepared,
    }
}
