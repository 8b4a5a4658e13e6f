//! The engine in memory: a log whose calls do what the model says.

ghost use Rattle.std.specs.Prelude.{◌≡◌, ◌≢◌, ◌↔◌, ◌==◌, ◌+◌, ◌^◌, ◌≤◌, [], Some, None, Err, IfOk, OnOk, OnErr, length, map, option_map, if◌then◌else◌};
ghost use Rattle.postgres_model.specs.Engine.{taken, retaken, appended, append_answer, record_at};
ghost use Rattle.postgres_model.specs.MemView.{answer_of};

use crate::rows::{StoredRow, find, insert, is_any_taken};
use std::alloc::{AllocError, Global};
use std::marker::Model;
use thiserror::Error;

/// Why the engine in memory didn't do a call. Nothing has changed then.
#[derive(Clone, Copy, Debug, PartialEq, Eq, Error)]
pub enum EngineFault {
    /// No epoch is left, or no number.
    #[error("no epoch or no number is left")]
    Spent,
    /// Memory was refused.
    #[error("out of memory")]
    OutOfMemory,
}

impl From<AllocError> for EngineFault {
    ghost use Rattle.postgres_model.specs.declared.engine.EngineFault.TheVariants as faults;

    ghost from_gives = { λ _ e. e ≡ faults.OutOfMemory };

    fn from(_refused: AllocError) -> EngineFault {
        EngineFault::OutOfMemory
    }
}

/// What an append comes to.
#[derive(Clone, Copy, Debug, PartialEq, Eq)]
pub enum Appended {
    /// So many records were inserted: the whole group, or none where the epoch is another.
    Inserted(u64),
    /// A number is taken. Nothing was inserted.
    Duplicate,
}

/// A log in memory, with its fence.
///
/// ```rust
/// use postgres_model::{Appended, MemEngine};
///
/// let mut engine = MemEngine::new(rt.alloc());
/// let epoch = engine.take(1).expect(&rt, "an epoch");
/// let group = [b"one".as_slice(), b"two".as_slice()];
/// assert!(rt; engine.append(epoch, 1, &group) == Ok(Appended::Inserted(2)));
/// // Another keeper takes the log, so that appends under the epoch before insert nothing.
/// engine.take(2).expect(&rt, "an epoch");
/// assert!(rt; engine.append(epoch, 3, &group) == Ok(Appended::Inserted(0)));
/// assert!(rt; engine.fetch(2) == Some(b"two".as_slice()) && engine.fetch(3).is_none());
/// ```
#[derive(Drop)]
pub struct MemEngine {
    alloc: Global,
    epoch: u64,
    holder: u64,
    rows: Vec<StoredRow>,
}

impl Model for MemEngine {
    ghost use Rattle.postgres_model.specs.Engine.{Log};

    ghost Value = { Log };

    ghost view = { λ e. record { epoch = e.epoch; holder = e.holder; rows = e.rows.items } };
}

impl MemEngine {
    /// An empty log that nobody holds.
    pub fn new(alloc: Global) -> MemEngine
        ensures { result ≡ record { epoch = 0; holder = 0; rows = [] } }
    {
        MemEngine {
            alloc,
            epoch: 0,
            holder: 0,
            rows: Vec::new(alloc),
        }
    }

    /// Takes the log, with a token that was never sent before, and gives the new epoch. Takes no memory.
    ///
    /// - `Spent`: the epoch is the last that there is.
    pub fn take(&mut self, token: u64) -> Result<u64, EngineFault>
        ensures log { OnOk result (self.new ≡ taken self.old token) }
        ensures epoch { IfOk result (λ epoch. epoch ≡ self.new.epoch) }
        ensures spent { (result ≡ Err EngineFault.Spent) ↔ (self.old.epoch + 1 ≡ 2 ^ 64) }
        ensures memory { result ≢ Err EngineFault.OutOfMemory }
        ensures refused { OnErr result (self.new ≡ self.old) }
    {
        if self.epoch == u64::MAX {
            return Err(EngineFault::Spent);
        }
        self.epoch += 1;
        self.holder = token;
        Ok(self.epoch)
    }

    /// Takes a new epoch where the holder's token is this one. Else nothing changes, and there is no epoch. Takes no memory.
    ///
    /// - `Spent`: the token is the holder's, and the epoch is the last that there is.
    pub fn retake(&mut self, token: u64) -> Result<Option<u64>, EngineFault>
        ensures log { OnOk result (self.new ≡ retaken self.old token) }
        ensures epoch { IfOk result (λ taken. taken ≡ (if self.old.holder == token then Some self.new.epoch else None)) }
        ensures spent { (result ≡ Err EngineFault.Spent) ↔ ((self.old.holder ≡ token) × (self.old.epoch + 1 ≡ 2 ^ 64)) }
        ensures memory { result ≢ Err EngineFault.OutOfMemory }
        ensures refused { OnErr result (self.new ≡ self.old) }
    {
        if self.holder != token {
            return Ok(None);
        }
        if self.epoch == u64::MAX {
            return Err(EngineFault::Spent);
        }
        self.epoch += 1;
        Ok(Some(self.epoch))
    }

    /// Appends a group of records under an epoch, the first one under this number.
    ///
    /// - `Spent`: the epoch is the log's, and the group's numbers would go past the last that there is.
    /// - `OutOfMemory`.
    pub fn append(
        &mut self,
        epoch: u64,
        first: u64,
        group: &[&[u8]],
    ) -> Result<Appended, EngineFault>
        ensures log { OnOk result (self.new ≡ appended self.old epoch first (map (λ r. r.now) group.now)) }
        ensures answer { IfOk result (λ done. answer_of done ≡ append_answer self.old epoch first (map (λ r. r.now) group.now)) }
        ensures spent { (result ≡ Err EngineFault.Spent) ↔ ((self.old.epoch ≡ epoch) × (2 ^ 64 ≤ first + length group.now)) }
        ensures refused { OnErr result (self.new ≡ self.old) }
    {
        if self.epoch != epoch {
            return Ok(Appended::Inserted(0));
        }
        if group.len() as u64 > u64::MAX - first {
            return Err(EngineFault::Spent);
        }
        if is_any_taken(&self.rows, first, group) {
            return Ok(Appended::Duplicate);
        }
        insert(self.alloc, &mut self.rows, first, group)?;
        Ok(Appended::Inserted(group.len() as u64))
    }

    /// The record of this number.
    pub fn fetch(&self, number: u64) -> Option<&[u8]>
        ensures { option_map (λ r. r.now) result ≡ record_at number self.now.rows }
    {
        find(&self.rows, number)
    }
}
