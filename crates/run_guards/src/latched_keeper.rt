//! A keeper that shuts the server's listener where its file is lost.

ghost use Rattle.std.specs.Prelude.{◌≡◌};
ghost use Rattle.run_guards.specs.Within.{keeper_within};

use crate::latch::Latch;
use disk_keeper::{DiskKeeper, FileDisk};
use ofx_ports::{Failed, FetchFault, Keeper, MemKeeper, PutFault};
use sqlite_keeper::SqliteKeeper;
use std::alloc::Global;
use std::sync::Arc;

/// A keeper of whose records it is known whether nothing more may be kept in their file.
pub trait Losable {
    /// Whether a sync of the file failed, or its path doesn't lead to it any more.
    fn is_file_lost(&self) -> bool;
}

impl Losable for MemKeeper {
    fn is_file_lost(&self) -> bool {
        false
    }
}

impl Losable for SqliteKeeper {
    fn is_file_lost(&self) -> bool {
        self.is_lost()
    }
}

impl Losable for DiskKeeper<FileDisk> {
    fn is_file_lost(&self) -> bool {
        self.disk().is_lost()
    }
}

/// A keeper that answers what the inner keeper answers. Where an append or a settling fails since the file is lost, it shuts the
/// listener: the inner keeper refuses all that follows, so the server ends, and its next run finds out what is on the disk.
///
/// ```rust
/// use ofx_ports::{Keeper, MemKeeper};
/// use run_guards::{Latch, LatchedKeeper};
/// use std::sync::Arc;
///
/// let latch = Arc::new(rt.alloc(), Latch::new()).expect(&rt, "room");
/// let kept = Arc::try_clone(&latch).expect(&rt, "room");
/// // Records in memory have no file that could be lost, so the latch isn't shut.
/// let mut keeper = LatchedKeeper::over(MemKeeper::new(rt.alloc()), kept);
/// assert!(rt; keeper.append(b"one").is_ok() && keeper.len() == 1 && !latch.is_shut());
/// ```
#[derive(Drop)]
pub struct LatchedKeeper<K: Keeper + Losable> {
    keeper: K,
    latch: Arc<Latch, Global>,
}

impl<K: Keeper + Losable> LatchedKeeper<K> {
    /// This keeper, which shuts the listener of this latch.
    pub fn over(keeper: K, latch: Arc<Latch, Global>) -> LatchedKeeper<K>
        ensures { keeper_within result ≡ keeper }
    {
        LatchedKeeper { keeper, latch }
    }

    /// Shuts the listener where the file is lost.
    fn shut_if_lost(&self) {
        if self.keeper.is_file_lost() {
            self.latch.shut();
        }
    }
}

impl<K: Keeper + Losable> Keeper for LatchedKeeper<K> {
    ghost records = { λ k. K.Keeper.records (keeper_within k) };

    ghost size = { λ k. K.Keeper.size (keeper_within k) };

    ghost unsettled = { λ k. K.Keeper.unsettled (keeper_within k) };

    ghost landed = { λ k. K.Keeper.landed (keeper_within k) };

    ghost faults = { λ k. K.Keeper.faults (keeper_within k) };

    fn append(&mut self, rec: &[u8]) -> Result<(), PutFault> {
        let result = self.keeper.append(rec);
        if result.is_err() {
            self.shut_if_lost();
        }
        result
    }

    fn settle(&mut self) -> Result<bool, Failed> {
        let result = self.keeper.settle();
        if result.is_err() {
            self.shut_if_lost();
        }
        result
    }

    fn fetch(&mut self, number: u64, into: &mut Vec<u8>) -> Result<(), FetchFault> {
        self.keeper.fetch(number, into)
    }

    fn len(&self) -> u64 {
        self.keeper.len()
    }

    fn faults(&self) -> u64 {
        self.keeper.faults()
    }
}
