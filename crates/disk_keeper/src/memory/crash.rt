//! What a crash leaves of a disk in memory.

ghost use Rattle.std.specs.Prelude.{◌≡◌, ℕ, ◌-◌, ◌/◌, ◌%◌, ◌≤◌, List, ◌∷◌, length, take, drop, reverse, nat_lt, if◌then◌else◌, IfOk};
ghost use Rattle.disk_keeper.specs.Disk.{image, overlaid, Torn, MayLeave};
ghost use Rattle.disk_keeper.specs.Memory.{crashed, torn_bytes};
ghost use Rattle.disk_keeper.specs.declared.change.Change.{Change as TheChange};

use super::{MemDisk, overlay};
use crate::change::Change;
use ofx_types::OutOfMemory;
use std::alloc::{AllocError, Global};

/// The bytes that a disk writes at once.
const SECTOR: usize = 512;

/// The ways in which a write is torn.
const WAYS: u64 = 5;

impl MemDisk {
    /// What a crash may have left after the first so many changes, one of many, chosen by a number: its digits in fives are the
    /// ways in which the writes since the last sync are torn.
    pub fn crash_image(&self, moment: u64, choice: u64) -> Result<Vec<u8>, OutOfMemory>
        requires { moment ≤ length self.now.changes }
        ensures may { IfOk result (λ crash. MayLeave self.now.found (drop (length self.now.changes - moment) self.now.changes) crash.items) }
        ensures chosen { IfOk result (λ crash. crash.items ≡ (crashed choice self.now.found (drop (length self.now.changes - moment) self.now.changes)).0) }
    {
        let prefix = &self.changes[..moment as usize];
        Ok(crash_of(self.alloc, &self.found, prefix, choice)?)
    }
}

// What a crash may have left after these changes, the oldest first.
fn crash_of(
    alloc: Global,
    found: &[u8],
    changes: &[Change],
    choice: u64,
) -> Result<Vec<u8>, AllocError>
    ensures may { IfOk result (λ crash. MayLeave found.now (reverse changes.now) crash.items) }
    ensures chosen { IfOk result (λ crash. crash.items ≡ (crashed choice found.now (reverse changes.now)).0) }
{
    let mut shown = found.to_vec(alloc)?;
    let mut crash = found.to_vec(alloc)?;
    let mut left = choice;
    for change in changes {
        crash = crash_after(alloc, &shown, &crash, change, left)?;
        shown = shown_after(alloc, &shown, change)?;
        left = choice_after(change, choice, left);
    }
    Ok(crash)
}

// What a read shows after one more change.
fn shown_after(alloc: Global, shown: &[u8], change: &Change) -> Result<Vec<u8>, AllocError>
    ensures { IfOk result (λ new. (found : List ℕ) (changes : List TheChange) → shown.now ≡ image found changes
        → new.items ≡ image found (change.now ∷ changes)) }
{
    match change {
        Change::Write(at, _, bytes) => {
            let new = overlay(alloc, shown, *at, bytes.as_slice())?;
            Ok(new)
        }
        Change::Sync => {
            let same = shown.to_vec(alloc)?;
            Ok(same)
        }
    }
}

// What a crash leaves after one more change, where so much of the number is left that chooses it.
fn crash_after(
    alloc: Global,
    shown: &[u8],
    crash: &[u8],
    change: &Change,
    left: u64,
) -> Result<Vec<u8>, AllocError>
    ensures may { IfOk result (λ new. (found : List ℕ) (changes : List TheChange) → shown.now ≡ image found changes → MayLeave found changes crash.now
        → MayLeave found (change.now ∷ changes) new.items) }
    ensures chosen { IfOk result (λ new. (found : List ℕ) (changes : List TheChange) (choice : ℕ) → shown.now ≡ image found changes
        → crash.now ≡ (crashed choice found changes).0 → left ≡ (crashed choice found changes).1
        → new.items ≡ (crashed choice found (change.now ∷ changes)).0) }
{
    match change {
        Change::Write(at, size, bytes) => {
            let torn = torn(alloc, crash, *at, *size, bytes.as_slice(), left % WAYS)?;
            Ok(torn)
        }
        Change::Sync => {
            let synced = shown.to_vec(alloc)?;
            Ok(synced)
        }
    }
}

// What is left of the number that chooses after one more change.
fn choice_after(change: &Change, choice: u64, left: u64) -> u64
    ensures { (found : List ℕ) (changes : List TheChange) → left ≡ (crashed choice found changes).1
        → result ≡ (crashed choice found (change.now ∷ changes)).1 }
{
    match change {
        Change::Write(..) => left / WAYS,
        Change::Sync => choice,
    }
}

// What a write of so many bytes at an offset leaves that is torn in one of the ways.
fn torn(
    alloc: Global,
    old: &[u8],
    at: u64,
    size: u64,
    bytes: &[u8],
    way: u64,
) -> Result<Vec<u8>, AllocError>
    ensures may { IfOk result (λ new. Torn at size old.now new.items) }
    ensures chosen { IfOk result (λ new. new.items
        ≡ (if nat_lt (length old.now) at then old.now else overlaid old.now at (torn_bytes way (take size bytes.now)))) }
{
    if at > old.len() as u64 {
        let same = old.to_vec(alloc)?;
        return Ok(same);
    }
    let prefix = torn_prefix(alloc, first_bytes(bytes, size), way)?;
    let new = overlay(alloc, old, at, &prefix)?;
    Ok(new)
}

// The first so many bytes, or all where there are fewer.
#[tactic(auto, using(std::proofs::lemmas::List::take_min, crate::proofs::CrashLemmas::at_most_first))]
fn first_bytes(bytes: &[u8], size: u64) -> &[u8]
    ensures first { result.now ≡ take size bytes.now }
    ensures no_more { length result.now ≤ size }
{
    &bytes[..(size as usize).min(bytes.len())]
}

// What a crash leaves of the bytes of a write.
fn torn_prefix(alloc: Global, bytes: &[u8], way: u64) -> Result<Vec<u8>, AllocError>
    ensures chosen { IfOk result (λ prefix. prefix.items ≡ torn_bytes way bytes.now) }
    ensures no_longer { IfOk result (λ prefix. length prefix.items ≤ length bytes.now) }
{
    match way {
        0 => Ok(Vec::new(alloc)),
        1 => bytes.to_vec(alloc),
        2 => bytes[..bytes.len() - bytes.len() % SECTOR].to_vec(alloc),
        3 => bytes[..bytes.len() / 2].to_vec(alloc),
        _ => vec![in alloc; 1u8; bytes.len()],
    }
}
