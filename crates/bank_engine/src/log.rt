//! The log of a bank.

ghost use Rattle.std.specs.Prelude.{◌≡◌, [], ◌∷◌, ◌++◌};
ghost use Rattle.bank_model.specs.declared.log.LogItem.TheVariants.{Effect};

use crate::log_trace::LogTrace;
use crate::publisher::Publisher;
use bank_model::{Entry, Event};
use ofx_types::Moment;
use std::marker::Model;
use std::snapshot::Snapshot;

/// The log of a bank, which contracts alone read, with its endings counted modulo 2^64. However long it grows, it takes no more
/// memory.
#[derive(Drop)]
pub struct Log {
    // the items, for contracts alone
    past: LogTrace,
    ended: u64,
}

impl Model for Log {
    ghost use Rattle.std.specs.Prelude.{◌≡◌, ◌%◌, ◌^◌, List, length};
    ghost use Rattle.bank_model.specs.declared.log.LogItem.{LogItem};
    ghost use Rattle.bank_model.specs.Log.{endings};
    ghost use Rattle.bank_engine.specs.LogTrace.{items_of};

    ghost Value = { List LogItem };

    ghost view = { λ l. items_of l.past };

    ghost invariant = { λ l. l.ended ≡ length (endings (items_of l.past)) % 2 ^ 64 };
}

impl Log {
    /// A log without items.
    pub fn new() -> Log
        ensures { result ≡ [] }
    {
        Log {
            past: LogTrace::Start,
            ended: 0,
        }
    }

    /// One entry more.
    fn effect(&mut self, entry: &Entry)
        ensures { self.new ≡ self.old ++ Effect entry.now ∷ [] }
    {
        self.past = LogTrace::Effect(Snapshot::of(&self.past), Snapshot::of(entry));
    }
}

impl Publisher for Log {
    ghost use Rattle.std.specs.Prelude.{⊤};

    ghost log = { λ l. l };

    ghost expects = { λ l entries. ⊤ };

    ghost through = { λ l. 0 };

    ghost Target = { ⊤ };

    ghost target = { λ l. tt };

    ghost since = { λ l before. ⊤ };

    fn next_number(&self) -> u64 {
        self.ended.wrapping_add(1)
    }

    fn effects(&mut self, entries: &[Entry]) {
        for entry in entries {
            self.effect(entry);
        }
    }

    fn answer(&mut self, event: &Event, at: Moment, reply: &Vec<u8>) {
        self.past = LogTrace::Answer(
            Snapshot::of(&self.past),
            Snapshot::of(event),
            Snapshot::of(&at),
            Snapshot::of(reply),
        );
        self.ended = self.ended.wrapping_add(1);
    }

    fn adopted(&mut self, fault: u64, event: &Event, at: Moment) {
        self.past = LogTrace::Adopted(
            Snapshot::of(&self.past),
            Snapshot::of(&fault),
            Snapshot::of(event),
            Snapshot::of(&at),
        );
        self.ended = self.ended.wrapping_add(1);
    }

    fn failed(&mut self, count: u64, event: &Event, at: Moment) {
        self.past = LogTrace::Failed(
            Snapshot::of(&self.past),
            Snapshot::of(&count),
            Snapshot::of(event),
            Snapshot::of(&at),
        );
        self.ended = self.ended.wrapping_add(1);
    }

    fn unsettled(&mut self, count: u64) {
        self.past = LogTrace::Unsettled(Snapshot::of(&self.past), Snapshot::of(&count));
        self.ended = self.ended.wrapping_add(1);
    }
}
