//! A disk in memory.

ghost use Rattle.std.specs.Prelude.{◌≡◌, ◌+◌, ◌-◌, ◌^◌, ◌<◌, ◌≤◌, true, false, [], ◌∷◌, Some, None, length, max, is_err, IfOk, IsErr, OnOk, OnErr};
ghost use Rattle.ofx_ports.specs.Faults.{CountsFaults, Rose};
ghost use Rattle.ofx_ports.specs.Calls.{fails_next, one_more};
ghost use Rattle.disk_keeper.specs.Disk.{image, overlaid, GoesOn, Breaks, Shows, HasSize, write_of};
ghost use Rattle.disk_keeper.specs.Memory.{reported_by, tried, starved, Syncs, Writes};
ghost use Rattle.disk_keeper.specs.declared.change.Change.TheVariants.{Sync};

use crate::change::{Bytes, Change};
use crate::disk::Disk;
use ofx_ports::{Failed, Schedule};
use ofx_types::OutOfMemory;
use std::alloc::{AllocError, Global};
use std::marker::Model;

mod crash;

/// A disk in memory, which shows all that was done to it. It can be set which of its calls fail, and which of the
/// writes that fail have put their bytes all the same.
pub struct MemDisk {
    found: Vec<u8>,
    // what was done, the oldest first
    changes: Vec<Change>,
    // what a read shows
    bytes: Vec<u8>,
    room: u64,
    landing: Vec<u64>,
    schedule: Schedule,
    memory_faults: u64,
    alloc: Global,
}

// It is written out, so that a caller does not prove again how each part is dropped.
impl Drop for MemDisk {
    fn drop(self) {
        let MemDisk {
            found: _,
            changes: _,
            bytes: _,
            room: _,
            landing: _,
            schedule: _,
            memory_faults: _,
            alloc: _,
        } = self;
    }
}

impl Model for MemDisk {
    ghost use Rattle.std.specs.Prelude.{◌≡◌, ◌≤◌, ◌<◌, ◌^◌, length, reverse};
    ghost use Rattle.disk_keeper.specs.Disk.{image};
    ghost use Rattle.disk_keeper.specs.Memory.{MemState};

    ghost Value = { MemState };

    ghost view = { λ d. record {
      found = d.found.items;
      changes = reverse d.changes.items;
      room = d.room;
      landing = d.landing.items;
      calls = d.schedule;
      memory_faults = d.memory_faults;
    } };

    ghost invariant = { λ d. (d.bytes.items ≡ image d.found.items (reverse d.changes.items)) × (length d.bytes.items ≤ d.room) × (d.room < 2 ^ 63) };
}

impl MemDisk {
    ghost use Rattle.ofx_ports.specs.Calls.{Calls};
    ghost use Rattle.disk_keeper.specs.Memory.{MemState};

    /// A disk with these bytes and room for so many, whose calls never fail.
    pub fn new(alloc: Global, found: &[u8], room: u64) -> Result<MemDisk, OutOfMemory>
        requires fits { length found.now ≤ room }
        requires most { room < 2 ^ 63 }
        ensures { IfOk result (λ d. d ≡ record {
          found = found.now;
          changes = [];
          room = room;
          landing = [];
          calls = record { failing = []; made = 0; faults = 0 };
          memory_faults = 0;
        }) }
    {
        MemDisk::failing(alloc, found, room, &[], &[])
    }

    /// A disk with these bytes and room for so many, whose calls of the numbers in `failing` fail. Reads, writes and
    /// syncs are counted together, from 1. A write that fails puts its bytes where its number is in `landing`
    /// too. A write past the room is a fault, and so is one for which there is no memory.
    pub fn failing(
        alloc: Global,
        found: &[u8],
        room: u64,
        failing: &[u64],
        landing: &[u64],
    ) -> Result<MemDisk, OutOfMemory>
        requires fits { length found.now ≤ room }
        requires most { room < 2 ^ 63 }
        ensures { IfOk result (λ d. d ≡ record {
          found = found.now;
          changes = [];
          room = room;
          landing = landing.now;
          calls = record { failing = failing.now; made = 0; faults = 0 };
          memory_faults = 0;
        }) }
    {
        Ok(MemDisk {
            found: found.to_vec(alloc)?,
            changes: Vec::new(alloc),
            bytes: found.to_vec(alloc)?,
            room,
            landing: landing.to_vec(alloc)?,
            schedule: Schedule::new(alloc, failing)?,
            memory_faults: 0,
            alloc,
        })
    }

    /// The bytes that reads show.
    pub fn bytes(&self) -> &[u8]
        ensures { result.now ≡ image self.now.found self.now.changes }
    {
        &self.bytes
    }

    /// How many times it was changed.
    pub fn changes(&self) -> u64
        ensures { result ≡ length self.now.changes }
    {
        self.changes.len() as u64
    }

    /// How many of its calls failed for want of memory.
    pub fn memory_faults(&self) -> u64
        ensures { result ≡ self.now.memory_faults }
    {
        self.memory_faults
    }

    // Counts a call that fails for want of memory.
    fn starve(&mut self) -> Failed
        ensures counted { self.new ≡ record self.old { memory_faults = one_more self.old.memory_faults; calls = record self.old.calls { faults = one_more self.old.calls.faults } } }
        ensures later { self.old.calls.faults ≤ self.new.calls.faults }
        ensures rose { Rose self.old.calls.faults self.new.calls.faults }
    {
        self.memory_faults = self.memory_faults.saturating_add(1);
        self.schedule.fail();
        Failed
    }

    // Puts bytes at an offset.
    fn put(&mut self, at: u64, bytes: &[u8]) -> Result<(), AllocError>
        requires within { at ≤ length (image self.old.found self.old.changes) }
        requires room { at + length bytes.now ≤ self.old.room }
        ensures put { OnOk result (self.new ≡ record self.old { changes = write_of at bytes.now ∷ self.old.changes }) }
        ensures same { OnErr result (self.new ≡ self.old) }
    {
        let next = overlay(self.alloc, &self.bytes, at, bytes)?;
        let kept = Bytes::new(self.alloc, bytes)?;
        let change = Change::Write(at, bytes.len() as u64, kept);
        if self.changes.push(change).is_err() {
            return Err(AllocError);
        }
        self.bytes = next;
        Ok(())
    }

    // Notes a sync.
    fn note_sync(&mut self) -> Result<(), AllocError>
        ensures noted { OnOk result (self.new ≡ record self.old { changes = Sync ∷ self.old.changes }) }
        ensures same { OnErr result (self.new ≡ self.old) }
    {
        if self.changes.push(Change::Sync).is_err() {
            return Err(AllocError);
        }
        Ok(())
    }
}

// Whether a write puts none of its bytes, by whether it fails and whether they land where it does.
fn is_lost(fails: bool, lands: bool) -> bool
    ensures lost { result ≡ true → (fails ≡ true) × (lands ≡ false) }
    ensures put { result ≡ false → fails ≡ true → lands ≡ true }
{
    fails && !lands
}

// Bytes with others in their place from an offset on.
fn overlay(alloc: Global, old: &[u8], at: u64, bytes: &[u8]) -> Result<Vec<u8>, AllocError>
    ensures { IfOk result (λ new. new.items ≡ overlaid old.now at bytes.now) }
{
    let at = at as usize;
    let mut new = old[..at.min(old.len())].to_vec(alloc)?;
    new.extend_from_slice(bytes)?;
    if at < old.len() && bytes.len() < old.len() - at {
        new.extend_from_slice(&old[at + bytes.len()..])?;
    }
    Ok(new)
}

impl Disk for MemDisk {
    ghost history = { reported_by };

    ghost extent = { λ d. length (image d.found d.changes) };

    ghost faults = { λ d. d.calls.faults };

    fn size(&self) -> u64 {
        self.bytes.len() as u64
    }

    fn read_at(&mut self, at: u64, into: &mut [u8]) -> Result<(), Failed>
        requires { at + length into.old ≤ length (image self.old.found self.old.changes) }
        ensures shown { OnOk result (Shows (reported_by self.old) at into.new) }
        ensures known { HasSize (reported_by self.old) (length (image self.old.found self.old.changes)) }
        ensures history { reported_by self.new ≡ reported_by self.old }
        ensures extent { length (image self.new.found self.new.changes) ≡ length (image self.old.found self.old.changes) }
        ensures faults { CountsFaults self.old.calls.faults self.new.calls.faults (IsErr result) }

        // It fails exactly where its number is one of those that fail.
        ensures fails { is_err result ≡ fails_next self.old.calls }
        ensures calls { self.new ≡ tried self.old (is_err result) self.old.changes }
    {
        if self.schedule.start() {
            self.schedule.fail();
            return Err(Failed);
        }
        let at = at as usize;
        into.copy_from_slice(&self.bytes[at..at + into.len()]);
        Ok(())
    }

    fn write_at(&mut self, at: u64, bytes: &[u8]) -> Result<(), Failed>
        requires offset { at ≤ length (image self.old.found self.old.changes) }
        requires some { 0 < length bytes.now }
        ensures written { OnOk result (GoesOn (reported_by self.old) (reported_by self.new) (write_of at bytes.now ∷ [])) }
        ensures broken { OnErr result (Breaks at (length bytes.now) (reported_by self.old) (reported_by self.new)) }
        ensures quiet { reported_by self.old ≡ None → reported_by self.new ≡ None }
        ensures known { HasSize (reported_by self.old) (length (image self.old.found self.old.changes)) }
        ensures extent { OnOk result (length (image self.new.found self.new.changes)
            ≡ max (length (image self.old.found self.old.changes)) (at + length bytes.now)) }
        ensures no_shorter { length (image self.old.found self.old.changes) ≤ length (image self.new.found self.new.changes) }
        ensures most { OnOk result (at + length bytes.now < 2 ^ 63) }
        ensures faults { CountsFaults self.old.calls.faults self.new.calls.faults (IsErr result) }

        // It fails exactly where its number is one of those that fail, past the room, or for want of memory, and one that fails has
        // put its bytes exactly where it lands.
        ensures tries { Writes self.old self.new (write_of at bytes.now) (at + length bytes.now) result }
    {
        let fails = self.schedule.start();
        let lands = self.landing.contains(&self.schedule.made());
        if bytes.len() as u64 > self.room - at {
            self.schedule.fail();
            return Err(Failed);
        }
        if is_lost(fails, lands) {
            self.schedule.fail();
            return Err(Failed);
        }
        let Ok(()) = self.put(at, bytes) else {
            return Err(self.starve());
        };
        if fails {
            self.schedule.fail();
            return Err(Failed);
        }
        Ok(())
    }

    fn sync(&mut self) -> Result<(), Failed>
        ensures synced { OnOk result (GoesOn (reported_by self.old) (reported_by self.new) (Sync ∷ [])) }
        ensures refused { OnErr result (reported_by self.new ≡ reported_by self.old) }
        ensures quiet { reported_by self.old ≡ None → reported_by self.new ≡ None }
        ensures extent { length (image self.new.found self.new.changes) ≡ length (image self.old.found self.old.changes) }
        ensures faults { CountsFaults self.old.calls.faults self.new.calls.faults (IsErr result) }

        // It fails exactly where its number is one of those that fail, or for want of memory.
        ensures tries { Syncs self.old self.new result }
    {
        if self.schedule.start() {
            self.schedule.fail();
            return Err(Failed);
        }
        if self.note_sync().is_err() {
            return Err(self.starve());
        }
        Ok(())
    }

    fn faults(&self) -> u64 {
        self.schedule.faults()
    }
}
