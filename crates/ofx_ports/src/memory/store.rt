//! A store that holds its text in memory.

ghost use Rattle.std.specs.Prelude.{◌≡◌, ◌≤◌, true, false, [], Some, length, IfOk, IfSome, OnOk, OnErr, IsErrOf, if◌then◌else◌};
ghost use Rattle.std.specs.List.{list_any};
ghost use Rattle.ofx_ports.specs.Faults.{CountsFaults};
ghost use Rattle.ofx_ports.specs.Known.{Stays};
ghost use Rattle.ofx_ports.specs.Saved.{Saved};
ghost use Rattle.ofx_ports.specs.Calls.{fails_next, after_call};

use super::keeper::refill;
use super::schedule::Schedule;
use crate::fault::{FetchFault, PutFault};
use crate::store_keeper::StoreKeeper;
use ofx_types::OutOfMemory;
use std::alloc::{AllocError, Global};
use std::marker::Model;

/// A text in memory. It can be set which of its calls fail, and which of the saves that fail keep their text.
#[derive(Debug, Drop)]
pub struct MemStore {
    text: Vec<u8>,
    landing: Vec<u64>,
    schedule: Schedule,
    alloc: Global,
}

impl Model for MemStore {
    ghost use Rattle.ofx_ports.specs.States.{StoreState};

    ghost Value = { StoreState };

    ghost view = { λ s. record {
      text = s.text.items;
      landing = s.landing.items;
      calls = s.schedule;
    } };
}

impl MemStore {
    ghost use Rattle.ofx_ports.specs.Calls.{Calls};
    ghost use Rattle.ofx_ports.specs.States.{StoreState};

    /// A store in which nothing was saved, whose calls never fail.
    pub fn new(alloc: Global) -> MemStore
        ensures { result ≡ record {
          text = [];
          landing = [];
          calls = record { failing = []; made = 0; faults = 0 };
        } }
    {
        MemStore {
            text: Vec::new(alloc),
            landing: Vec::new(alloc),
            schedule: Schedule::without_faults(alloc),
            alloc,
        }
    }

    /// A store that holds this text and whose calls of the numbers in `failing` fail. Calls of `save` and `load` are
    /// counted together, from 1. A save that fails keeps its text where its number is in `landing` too.
    pub fn failing(
        alloc: Global,
        text: &[u8],
        failing: &[u64],
        landing: &[u64],
    ) -> Result<MemStore, OutOfMemory>
        ensures { IfOk result (λ s. s ≡ record {
          text = text.now;
          landing = landing.now;
          calls = record { failing = failing.now; made = 0; faults = 0 };
        }) }
    {
        Ok(MemStore {
            text: text.to_vec(alloc)?,
            landing: landing.to_vec(alloc)?,
            schedule: Schedule::new(alloc, failing)?,
            alloc,
        })
    }

    /// The text that is there.
    pub fn text(&self) -> &[u8]
        ensures { result.now ≡ self.now.text }
    {
        &self.text
    }

    /// The number of calls of `save` and `load` so far, with those that failed.
    pub fn calls(&self) -> u64
        ensures { result ≡ self.now.calls.made }
    {
        self.schedule.made()
    }
}

// Puts a copy of these bytes in place of the text. A refusal leaves the text as it was.
fn replace(alloc: Global, text: &mut Vec<u8>, bytes: &[u8]) -> Result<(), AllocError>
    ensures replaced { OnOk result (text.new.items ≡ bytes.now) }
    ensures refused { OnErr result (text.new.items ≡ text.old.items) }
{
    let copy = bytes.to_vec(alloc)?;
    *text = copy;
    Ok(())
}

impl StoreKeeper for MemStore {
    ghost use Rattle.ofx_ports.specs.States.{StoreState, text_lands_next};
    ghost use Rattle.ofx_ports.specs.Kept.{put_failed, fetch_failed};

    ghost saved = { λ s. Some s.text };

    ghost faults = { λ s. s.calls.faults };

    fn save(&mut self, text: &[u8]) -> Result<(), PutFault>
        ensures text { Saved (Some self.old.text) (Some self.new.text) text.now result }
        ensures faults { CountsFaults self.old.calls.faults self.new.calls.faults (IsErrOf result PutFault.Failed) }

        // A save fails only where its number is one of those that fail, and succeeds only where it isn't. After one that
        // fails its text is stored where its number is in `landing` too, and otherwise the old one is.
        ensures fails { put_failed result ≡ true → fails_next self.old.calls ≡ true }
        ensures succeeds { OnOk result (fails_next self.old.calls ≡ false) }
        ensures lands { put_failed result ≡ true → self.new.text ≡ (if text_lands_next self.old then text.now else self.old.text) }
        ensures calls { self.new.calls ≡ after_call self.old.calls (put_failed result) }
        ensures landing { self.new.landing ≡ self.old.landing }
    {
        let fails = self.schedule.start();
        let lands = !fails || self.landing.contains(&self.schedule.made());
        if lands && replace(self.alloc, &mut self.text, text).is_err() {
            return Err(PutFault::OutOfMemory);
        }
        if fails {
            self.schedule.fail();
            return Err(PutFault::Failed);
        }
        Ok(())
    }

    fn load(&mut self, into: &mut Vec<u8>) -> Result<(), FetchFault>
        ensures found { OnOk result (IfSome (Some self.old.text) (λ text. into.new.items ≡ text)) }
        ensures refused { OnErr result (into.new.items ≡ []) }
        ensures text { Stays (Some self.old.text) (Some self.new.text) }
        ensures faults { CountsFaults self.old.calls.faults self.new.calls.faults (IsErrOf result FetchFault.Failed) }

        // It fails exactly where its number is one of those that fail.
        ensures fails { fetch_failed result ≡ fails_next self.old.calls }
        ensures calls { self.new.calls ≡ after_call self.old.calls (fetch_failed result) }
        ensures landing { self.new.landing ≡ self.old.landing }
    {
        into.clear();
        if self.schedule.start() {
            self.schedule.fail();
            return Err(FetchFault::Failed);
        }
        if refill(into, &self.text).is_err() {
            return Err(FetchFault::OutOfMemory);
        }
        Ok(())
    }

    fn faults(&self) -> u64 {
        self.schedule.faults()
    }
}
