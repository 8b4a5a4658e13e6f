//! An event that is ready: from here on its commit takes no memory.

ghost use Rattle.std.specs.Prelude.{◌≡◌};

use bank_core::Prepared;
use bank_model::Event;
use ofx_types::{Moment, Sequence};
use std::marker::Model;

/// An event that may happen, with its record and the step that a book has prepared for it.
pub struct Ready {
    pub(crate) event: Event,
    pub(crate) at: Moment,
    pub(crate) rec: Sequence<u8>,
    pub(crate) prepared: Prepared,
}

impl Model for Ready {
    ghost use Rattle.event_codec.specs.Records.{IsWritten};
    ghost use Rattle.bank_engine.specs.Views.{ReadyView};

    ghost Value = { ReadyView };

    ghost view = { λ r. record { event = r.event; at = r.at; rec = r.rec; prepared = r.prepared } };

    ghost invariant = { λ r. IsWritten r.rec r.at r.event };
}

impl Ready {
    /// The bytes of the reply. Takes no memory.
    pub fn reply(&self) -> &[u8]
        ensures { result.now ≡ self.now.prepared.reply }
    {
        self.prepared.reply()
    }

    /// The event, its moment and its step. Takes no memory.
    pub(crate) fn into_step(self) -> (Event, Moment, Prepared)
        ensures event { result.0 ≡ self.event }
        ensures at { result.1 ≡ self.at }
        ensures prepared { result.2 ≡ self.prepared }
    {
        let Ready {
            event,
            at,
            rec: _,
            prepared,
        } = self;
        (event, at, prepared)
    }
}

impl Drop for Ready {
    fn drop(self) {
        let Ready {
            event: _,
            at: _,
            rec: _,
            prepared: _,
        } = self;
    }
}
