//! A keeper that holds its records in memory.

ghost use Rattle.std.specs.Prelude.{◌≡◌, ℕ, ◌+◌, ◌-◌, ◌≤◌, Bool, true, false, List, [], ◌∷◌, ◌++◌, Some, None, length, slice_get, is_ok, is_some, IfOk, IfSome, OnOk, OnErr, IsErr, is_err, IsErrOf};
ghost use Rattle.ofx_ports.specs.Faults.{CountsFaults};
ghost use Rattle.ofx_ports.specs.Known.{Stays};
ghost use Rattle.ofx_ports.specs.Kept.{Appended, KnowsLanding, counted};
ghost use Rattle.ofx_ports.specs.Calls.{fails_next, after_call};

use super::schedule::Schedule;
use crate::fault::{Failed, FetchFault, PutFault};
use crate::keeper::Keeper;
use ofx_types::OutOfMemory;
use std::alloc::{AllocError, Global};
use std::marker::Model;

// The bytes of one record.
#[derive(Debug, Drop)]
struct Record {
    bytes: Vec<u8>,
}

impl Model for Record {
    ghost use Rattle.std.specs.Prelude.{List, ℕ};

    ghost Value = { List ℕ };

    ghost view = { λ r. r.bytes.items };
}

impl Record {
    fn new(alloc: Global, bytes: &[u8]) -> Result<Record, AllocError>
        ensures { IfOk result (λ r. r ≡ bytes.now) }
    {
        Ok(Record {
            bytes: bytes.to_vec(alloc)?,
        })
    }

    fn as_slice(&self) -> &[u8]
        ensures { result.now ≡ self.now }
    {
        &self.bytes
    }
}

/// Records in memory. It can be set which of its calls fail, and which of the appends that fail keep their record.
#[derive(Debug, Drop)]
pub struct MemKeeper {
    records: Vec<Record>,
    landed: Option<bool>,
    landing: Vec<u64>,
    schedule: Schedule,
    alloc: Global,
}

impl Model for MemKeeper {
    ghost use Rattle.std.specs.Prelude.{◌≡◌, ◌<◌, Some, true, length};
    ghost use Rattle.ofx_ports.specs.States.{KeeperState};

    ghost Value = { KeeperState };

    ghost view = { λ k. record {
      records = k.records.items;
      landed = k.landed;
      landing = k.landing.items;
      calls = k.schedule;
    } };

    ghost invariant = { λ k. k.landed ≡ Some true → 0 < length k.records.items };
}

impl MemKeeper {
    ghost use Rattle.ofx_ports.specs.Calls.{Calls};
    ghost use Rattle.ofx_ports.specs.States.{KeeperState};

    /// An empty keeper whose calls never fail.
    pub fn new(alloc: Global) -> MemKeeper
        ensures { result ≡ record {
          records = [];
          landed = None;
          landing = [];
          calls = record { failing = []; made = 0; faults = 0 };
        } }
    {
        MemKeeper {
            records: Vec::new(alloc),
            landed: None,
            landing: Vec::new(alloc),
            schedule: Schedule::without_faults(alloc),
            alloc,
        }
    }

    /// An empty keeper whose calls of the numbers in `failing` fail. Calls of `append`, `settle` and `fetch` are
    /// counted together, from 1. An append that fails keeps its record where its number is in `landing` too.
    pub fn failing(
        alloc: Global,
        failing: &[u64],
        landing: &[u64],
    ) -> Result<MemKeeper, OutOfMemory>
        ensures { IfOk result (λ k. k ≡ record {
          records = [];
          landed = None;
          landing = landing.now;
          calls = record { failing = failing.now; made = 0; faults = 0 };
        }) }
    {
        Ok(MemKeeper {
            records: Vec::new(alloc),
            landed: None,
            landing: landing.to_vec(alloc)?,
            schedule: Schedule::new(alloc, failing)?,
            alloc,
        })
    }

    /// The number of records that are stored, with one that is to be settled.
    pub fn record_count(&self) -> u64
        ensures { result ≡ length self.now.records }
    {
        self.records.len() as u64
    }

    /// The record of this number, counted from 1.
    pub fn record(&self, number: u64) -> &[u8]
        requires first { 1 ≤ number }
        requires last { number ≤ length self.now.records }
        ensures { slice_get self.now.records (number - 1) ≡ Some result.now }
    {
        self.records[(number - 1) as usize].as_slice()
    }

    /// The number of calls of `append`, `settle` and `fetch` so far, with those that failed.
    pub fn calls(&self) -> u64
        ensures { result ≡ self.now.calls.made }
    {
        self.schedule.made()
    }
}

// Puts a record at the end of a list.
fn store(alloc: Global, records: &mut Vec<Record>, bytes: &[u8]) -> Result<(), AllocError>
    ensures stored { OnOk result (records.new.items ≡ records.old.items ++ bytes.now ∷ []) }
    ensures refused { OnErr result (records.new.items ≡ records.old.items) }
{
    let record = Record::new(alloc, bytes)?;
    records.push(record)?;
    Ok(())
}

// Puts these bytes in place of those that a buffer holds. A refusal leaves it empty.
pub(super) fn refill(into: &mut Vec<u8>, bytes: &[u8]) -> Result<(), AllocError>
    ensures filled { OnOk result (into.new.items ≡ bytes.now) }
    ensures refused { OnErr result (into.new.items ≡ []) }
{
    into.clear();
    into.extend_from_slice(bytes)
}

impl Keeper for MemKeeper {
    ghost use Rattle.ofx_ports.specs.States.{KeeperState, lands_next, settled_size};
    ghost use Rattle.ofx_ports.specs.Kept.{put_failed, fetch_failed};

    ghost records = { λ k. Some k.records };

    ghost size = { λ k. settled_size k.records k.landed };

    ghost unsettled = { λ k. is_some k.landed };

    ghost landed = { λ k. k.landed };

    ghost faults = { λ k. k.calls.faults };

    fn append(&mut self, rec: &[u8]) -> Result<(), PutFault>
        requires { is_some self.old.landed ≡ false }
        ensures list { Appended (Some self.old.records) (Some self.new.records) self.new.landed (is_some self.new.landed) rec.now result }
        ensures size { settled_size self.new.records self.new.landed ≡ counted (settled_size self.old.records self.old.landed) (is_ok result) }
        ensures faults { CountsFaults self.old.calls.faults self.new.calls.faults (IsErrOf result PutFault.Failed) }

        // An append fails only where its number is one of those that fail, and succeeds only where it isn't. The
        // record of one that fails is stored exactly where its number is in `landing` too.
        ensures fails { put_failed result ≡ true → fails_next self.old.calls ≡ true }
        ensures succeeds { OnOk result (fails_next self.old.calls ≡ false) }
        ensures lands { put_failed result ≡ true → self.new.landed ≡ Some (lands_next self.old) }
        ensures calls { self.new.calls ≡ after_call self.old.calls (put_failed result) }
        ensures landing { self.new.landing ≡ self.old.landing }
    {
        let fails = self.schedule.start();
        let lands = !fails || self.landing.contains(&self.schedule.made());
        if lands && store(self.alloc, &mut self.records, rec).is_err() {
            return Err(PutFault::OutOfMemory);
        }
        if fails {
            self.schedule.fail();
            self.landed = Some(lands);
            return Err(PutFault::Failed);
        }
        Ok(())
    }

    fn settle(&mut self) -> Result<bool, Failed>
        ensures list { Stays (Some self.old.records) (Some self.new.records) }
        ensures answer { IfOk result (KnowsLanding (is_some self.old.landed) self.old.landed) }
        ensures settled { OnOk result (is_some self.new.landed ≡ false) }
        ensures size { IfOk result (λ holds. settled_size self.new.records self.new.landed
            ≡ counted (settled_size self.old.records self.old.landed) holds) }
        ensures open { OnErr result (is_some self.new.landed ≡ is_some self.old.landed) }
        ensures kept { OnErr result ((self.new.landed ≡ self.old.landed)
            × (settled_size self.new.records self.new.landed ≡ settled_size self.old.records self.old.landed)) }
        ensures faults { CountsFaults self.old.calls.faults self.new.calls.faults (IsErr result) }

        // It fails exactly where its number is one of those that fail.
        ensures fails { is_err result ≡ fails_next self.old.calls }
        ensures calls { self.new.calls ≡ after_call self.old.calls (is_err result) }
        ensures landing { self.new.landing ≡ self.old.landing }
    {
        if self.schedule.start() {
            self.schedule.fail();
            return Err(Failed);
        }
        let holds = matches!(self.landed, Some(true));
        self.landed = None;
        Ok(holds)
    }

    fn fetch(&mut self, number: u64, into: &mut Vec<u8>) -> Result<(), FetchFault>
        requires settled { is_some self.old.landed ≡ false }
        requires first { 1 ≤ number }
        requires last { number ≤ settled_size self.old.records self.old.landed }
        ensures found { OnOk result (IfSome (Some self.old.records) (λ rs. slice_get rs (number - 1) ≡ Some into.new.items)) }
        ensures refused { OnErr result (into.new.items ≡ []) }
        ensures list { Stays (Some self.old.records) (Some self.new.records) }
        ensures size { settled_size self.new.records self.new.landed ≡ settled_size self.old.records self.old.landed }
        ensures settled { is_some self.new.landed ≡ false }
        ensures faults { CountsFaults self.old.calls.faults self.new.calls.faults (IsErrOf result FetchFault.Failed) }

        // It fails exactly where its number is one of those that fail.
        ensures fails { fetch_failed result ≡ fails_next self.old.calls }
        ensures calls { self.new.calls ≡ after_call self.old.calls (fetch_failed result) }
        ensures landing { self.new.landing ≡ self.old.landing }
    {
        into.clear();
        if self.schedule.start() {
            self.schedule.fail();
            return Err(FetchFault::Failed);
        }
        let record = &self.records[(number - 1) as usize];
        if refill(into, record.as_slice()).is_err() {
            return Err(FetchFault::OutOfMemory);
        }
        Ok(())
    }

    fn len(&self) -> u64 {
        self.records.len() as u64
    }

    fn faults(&self) -> u64 {
        self.schedule.faults()
    }
}
