//! A doorway in memory.

ghost use Rattle.std.specs.Prelude.{◌≡◌, ℕ, List, [], ◌∷◌, ◌++◌, Option, None, Some, Ok, IfOk, IsErr, is_err, IsSome, vec_len};
ghost use Rattle.ofx_ports.specs.Faults.{CountsFaults};
ghost use Rattle.ofx_ports.specs.Known.{Stays, Grows};
ghost use Rattle.ofx_ports.specs.Calls.{fails_next, after_call};
ghost use Rattle.ofx_ports.specs.Doors.{given_by, HasOneOut};

use super::link::MemLink;
use super::schedule::Schedule;
use crate::doorway::Doorway;
use crate::fault::Failed;
use ofx_types::OutOfMemory;
use std::alloc::Global;
use std::marker::Model;
use std::snapshot::Snapshot;

// The links given so far. Proofs alone read them: it takes no memory to remember them.
#[derive(Drop)]
enum LinkTrace {
    Start,
    After(Snapshot<LinkTrace>, Snapshot<MemLink>),
}

/// A doorway that gives the links of a list in order, and is closed after the last one. It has room from the start for
/// all of them to come back.
#[derive(Drop)]
pub struct MemDoor {
    coming: Vec<MemLink>,
    back: Vec<MemLink>,
    given: LinkTrace,
    closings: u64,
    schedule: Schedule,
}

impl Model for MemDoor {
    ghost use Rattle.std.specs.Prelude.{◌+◌, ◌≤◌, length, vec_capacity};
    ghost use Rattle.ofx_ports.specs.States.{DoorState};
    ghost use Rattle.ofx_ports.specs.LinkTrace.{links_given};

    ghost Value = { DoorState };

    ghost view = { λ d. record {
      coming = d.coming.items;
      given = links_given d.given;
      back = d.back.items;
      closings = d.closings;
      calls = d.schedule;
    } };

    ghost invariant = { λ d. (length (links_given d.given) + length d.coming.items ≤ vec_capacity d.back)
        × (length d.back.items ≤ length (links_given d.given)) };
}

impl MemDoor {
    ghost use Rattle.std.specs.Prelude.{[]};
    ghost use Rattle.ofx_ports.specs.States.{DoorState};

    /// A doorway that gives these links. The calls of `accept` of the numbers in `failing` fail, counted from 1.
    pub fn new(alloc: Global, links: Vec<MemLink>, failing: &[u64]) -> Result<MemDoor, OutOfMemory>
        ensures { IfOk result (λ d. d ≡ record {
          coming = links.items;
          given = [];
          back = [];
          closings = 0;
          calls = record { failing = failing.now; made = 0; faults = 0 };
        }) }
    {
        Ok(MemDoor {
            back: Vec::with_capacity(alloc, links.len())?,
            coming: links,
            given: LinkTrace::Start,
            closings: 0,
            schedule: Schedule::new(alloc, failing)?,
        })
    }

    /// The links that came back so far, in order.
    pub fn back(&self) -> &[MemLink]
        ensures { result.now ≡ self.now.back }
    {
        &self.back
    }
}

impl Doorway<MemLink> for MemDoor {
    ghost use Rattle.ofx_ports.specs.States.{DoorState};

    ghost given = { λ d. Some d.given };

    ghost back = { λ d. Some d.back };

    ghost faults = { λ d. d.calls.faults };

    ghost closings = { λ d. d.closings };

    fn accept(&mut self) -> Result<Option<MemLink>, Failed>
        ensures given { Grows (Some self.old.given) (Some self.new.given) (given_by result) }
        ensures back { Stays (Some self.old.back) (Some self.new.back) }
        ensures faults { CountsFaults self.old.calls.faults self.new.calls.faults (IsErr result) }
        ensures closings { CountsFaults self.old.closings self.new.closings (result ≡ Ok None) }
        ensures one_out { IfOk result (λ found. IsSome found → HasOneOut (Some self.new.given) (Some self.new.back)) }

        // A call fails where its number is one of those that fail. Otherwise it gives the next link, while there is one.
        ensures fails { is_err result ≡ fails_next self.old.calls }
        ensures gives { IfOk result (λ link. self.old.coming ≡ given_by result ++ self.new.coming) }
        ensures closed { result ≡ Ok None → self.old.coming ≡ [] }
        ensures calls { self.new.calls ≡ after_call self.old.calls (is_err result) }
    {
        if self.schedule.start() {
            self.schedule.fail();
            return Err(Failed);
        }
        if self.coming.is_empty() {
            self.closings = self.closings.saturating_add(1);
            return Ok(None);
        }
        let link = self.coming.remove(0);
        let before = Snapshot::of(&self.given);
        self.given = LinkTrace::After(before, Snapshot::of(&link));
        Ok(Some(link))
    }

    fn ended(&mut self, link: MemLink)
        requires { HasOneOut (Some self.old.given) (Some self.old.back) }
        ensures given { Stays (Some self.old.given) (Some self.new.given) }
        ensures back { Grows (Some self.old.back) (Some self.new.back) (link ∷ []) }
        ensures faults { self.new.calls.faults ≡ self.old.calls.faults }
        ensures closings { self.new.closings ≡ self.old.closings }
        ensures rest { self.new ≡ record self.old { back = self.old.back ++ link ∷ [] } }
    {
        self.back.push(link).unwrap();
    }
}
