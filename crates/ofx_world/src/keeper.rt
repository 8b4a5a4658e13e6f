//! A keeper of records in memory, whose next append can be set to fail.

ghost use Rattle.std.specs.Prelude.{◌≡◌, ◌-◌, ◌≤◌, true, false, [], ◌++◌, Some, None, length, slice_get, is_ok, is_some, IfOk, IfSome, OnOk, OnErr, IsErr, IsErrOf};
ghost use Rattle.std.specs.Option.{option_map};
ghost use Rattle.ofx_ports.specs.Faults.{CountsFaults};
ghost use Rattle.ofx_ports.specs.Known.{Stays};
ghost use Rattle.ofx_ports.specs.Kept.{Appended, KnowsLanding, counted, stands_if};
ghost use Rattle.ofx_world.specs.Views.{Unsettled, landed_record, Tries, SettlesAs, Fetches};

use ofx_ports::{Failed, FetchFault, Keeper, PutFault};
use ofx_types::Sequence;
use std::alloc::Global;
use std::marker::Model;

/// A record whose append failed, and whether it is there.
#[derive(Drop)]
struct UnsettledRecord {
    rec: Sequence<u8>,
    landed: bool,
}

/// Records in memory. A fault that is set is the next append's; then what came of its record is unsettled until it is settled.
pub(crate) struct FaultyKeeper {
    records: Vec<Sequence<u8>>,
    unsettled: Option<UnsettledRecord>,
    fault: Option<bool>,
    faults: u64,
    alloc: Global,
}

impl Model for FaultyKeeper {
    ghost use Rattle.std.specs.Prelude.{◌≡◌, ◌<◌, ◌-◌, vec_len, vec_capacity};
    ghost use Rattle.std.specs.Option.{option_map, IfSome};
    ghost use Rattle.ofx_world.specs.Views.{KeeperView, Unsettled};
    ghost use Rattle.ofx_world.specs.declared.keeper.UnsettledRecord.{UnsettledRecord};

    ghost Value = { KeeperView };

    ghost view = { λ k. record {
      records = k.records.items;
      unsettled = option_map (λ (unsettled : UnsettledRecord). record { rec = unsettled.rec; landed = unsettled.landed }) k.unsettled;
      fault = k.fault;
      faults = k.faults;
    } };

    // There is room for a record that is unsettled.
    ghost invariant = { λ k. IfSome k.unsettled (λ (unsettled : UnsettledRecord). 0 < (vec_capacity k.records - vec_len k.records)) };
}

impl Drop for FaultyKeeper {
    fn drop(self) {
        let FaultyKeeper {
            records: _,
            unsettled: _,
            fault: _,
            faults: _,
            alloc: _,
        } = self;
    }
}

impl FaultyKeeper {
    /// A keeper without records. Takes no memory.
    pub(crate) fn new(alloc: Global) -> FaultyKeeper
        ensures { result ≡ record { records = []; unsettled = None; fault = None; faults = 0 } }
    {
        FaultyKeeper {
            records: Vec::new(alloc),
            unsettled: None,
            fault: None,
            faults: 0,
            alloc,
        }
    }

    /// The number of records, without one that is unsettled. Takes no memory.
    pub(crate) fn record_count(&self) -> u64
        ensures { result ≡ length self.now.records }
    {
        self.records.len() as u64
    }

    /// Whether the next append fails, and with its record or without it.
    pub(crate) fn fault(&self) -> Option<bool>
        ensures { result ≡ self.now.fault }
    {
        self.fault
    }

    /// Lets the next append fail, with its record or without it, or succeed. Takes no memory.
    pub(crate) fn set_fault(&mut self, fault: Option<bool>)
        ensures { self.new ≡ record {
          records = self.old.records;
          unsettled = self.old.unsettled;
          fault = fault;
          faults = self.old.faults;
        } }
    {
        self.fault = fault;
    }
}

impl Keeper for FaultyKeeper {
    ghost records = { λ k. Some (k.records ++ landed_record k.unsettled) };

    ghost size = { λ k. length k.records };

    ghost unsettled = { λ k. is_some k.unsettled };

    ghost landed = { λ k. option_map (λ (unsettled : Unsettled). unsettled.landed) k.unsettled };

    ghost faults = { λ k. k.faults };

    // An append fails where a fault is set, which is used up then.
    ghost appends = { Tries };

    ghost settles = { SettlesAs };

    fn append(&mut self, rec: &[u8]) -> Result<(), PutFault>
        requires { is_some self.old.unsettled ≡ false }
        ensures list { Appended (Some (self.old.records ++ landed_record self.old.unsettled)) (Some (self.new.records ++ landed_record self.new.unsettled))
            (option_map (λ (unsettled : Unsettled). unsettled.landed) self.new.unsettled) (is_some self.new.unsettled) rec.now result }
        ensures size { length self.new.records ≡ counted (length self.old.records) (is_ok result) }
        ensures faults { CountsFaults self.old.faults self.new.faults (IsErrOf result PutFault.Failed) }
        ensures appends { Tries self.old self.new rec.now result }
    {
        if self.records.reserve(1).is_err() {
            return Err(PutFault::OutOfMemory);
        }
        let Ok(bytes) = rec.to_vec(self.alloc) else {
            return Err(PutFault::OutOfMemory);
        };
        let rec = Sequence::from_vec(bytes);
        match self.fault.take() {
            None => {
                self.records.push_reserved(rec);
                Ok(())
            }
            Some(landed) => {
                self.unsettled = Some(UnsettledRecord { rec, landed });
                self.faults = self.faults.saturating_add(1);
                Err(PutFault::Failed)
            }
        }
    }

    fn settle(&mut self) -> Result<bool, Failed>
        ensures list { Stays (Some (self.old.records ++ landed_record self.old.unsettled)) (Some (self.new.records ++ landed_record self.new.unsettled)) }
        ensures answer { IfOk result (KnowsLanding (is_some self.old.unsettled) (option_map (λ (unsettled : Unsettled). unsettled.landed) self.old.unsettled)) }
        ensures settled { OnOk result (is_some self.new.unsettled ≡ false) }
        ensures size { IfOk result (λ holds. length self.new.records ≡ counted (length self.old.records) holds) }
        ensures open { OnErr result (is_some self.new.unsettled ≡ is_some self.old.unsettled) }
        ensures kept { OnErr result ((option_map (λ (unsettled : Unsettled). unsettled.landed) self.new.unsettled ≡ option_map (λ (unsettled : Unsettled). unsettled.landed) self.old.unsettled)
            × (length self.new.records ≡ length self.old.records)) }
        ensures faults { CountsFaults self.old.faults self.new.faults (IsErr result) }
        ensures settles { SettlesAs self.old self.new (stands_if result) }
    {
        match self.unsettled.take() {
            None => Ok(false),
            Some(UnsettledRecord { rec, landed }) => {
                if landed {
                    self.records.push_reserved(rec);
                }
                Ok(landed)
            }
        }
    }

    fn fetch(&mut self, number: u64, into: &mut Vec<u8>) -> Result<(), FetchFault>
        requires settled { is_some self.old.unsettled ≡ false }
        requires first { 1 ≤ number }
        requires last { number ≤ length self.old.records }
        ensures found { OnOk result (IfSome (Some (self.old.records ++ landed_record self.old.unsettled)) (λ rs. slice_get rs (number - 1) ≡ Some into.new.items)) }
        ensures refused { OnErr result (into.new.items ≡ []) }
        ensures list { Stays (Some (self.old.records ++ landed_record self.old.unsettled)) (Some (self.new.records ++ landed_record self.new.unsettled)) }
        ensures size { length self.new.records ≡ length self.old.records }
        ensures settled { is_some self.new.unsettled ≡ false }
        ensures faults { CountsFaults self.old.faults self.new.faults (IsErrOf result FetchFault.Failed) }
        ensures kept { self.new ≡ self.old }
        ensures fetches { Fetches result }
    {
        into.clear();
        let rec = &self.records[(number - 1) as usize];
        if into.extend_from_slice(rec.items()).is_err() {
            into.clear();
            return Err(FetchFault::OutOfMemory);
        }
        Ok(())
    }

    fn len(&self) -> u64 {
        self.records.len() as u64
    }

    fn faults(&self) -> u64 {
        self.faults
    }
}
