//! The record of an event that may happen.

ghost use Rattle.std.specs.Prelude.{IfOk};
ghost use Rattle.ofx_types.specs.Calendar.{IsMoment};
ghost use Rattle.bank_model.specs.Rules.{IsLegal};
ghost use Rattle.event_codec.specs.Records.{IsWritten};

use bank_core::Book;
use bank_model::{Event, Printer};
use event_codec::write_event;
use ofx_types::{Moment, OutOfMemory};
use std::alloc::Global;

/// The record of an event that is legal in the book at that moment.
pub fn record_of<P: Printer>(
    alloc: Global,
    book: &Book<P>,
    event: &Event,
    at: Moment,
) -> Result<Vec<u8>, OutOfMemory>
    requires moment { IsMoment at.0 }
    requires legal { IsLegal book.now.setup book.now.state at event.now }
    ensures { IfOk result (λ rec. IsWritten rec.items at event.now) }
{
    // For the proof alone: its contract says that the book is sound, so the event is within the bounds of a record.
    let _setup = book.setup();
    write_event(alloc, event, at)
}
