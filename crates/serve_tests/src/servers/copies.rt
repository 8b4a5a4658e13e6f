//! A keeper in memory that puts a copy of each record where its maker finds it.

ghost use Rattle.std.specs.Prelude.{◌≡◌, Some, false, is_some};
ghost use Rattle.ofx_ports.specs.States.{settled_size};

use ofx_ports::{Failed, FetchFault, Keeper, MemKeeper, PutFault};
use std::alloc::Global;
use std::sync::Mutex;

/// Where the copies are put.
pub type Copies = Mutex<Vec<Vec<u8>>>;

/// A keeper in memory. Each record that it appends is copied.
#[derive(Drop)]
pub struct CopyKeeper<'a> {
    pub kept: MemKeeper,
    alloc: Global,
    copies: &'a Copies,
}

impl<'a> CopyKeeper<'a> {
    /// A keeper that goes on from these records, and puts copies of the new ones there.
    pub fn over(alloc: Global, kept: MemKeeper, copies: &'a Copies) -> CopyKeeper<'a>
        ensures { result.kept ≡ kept }
    {
        CopyKeeper {
            kept,
            alloc,
            copies,
        }
    }
}

impl<'a> Keeper for CopyKeeper<'a> {
    ghost records = { λ k. Some k.kept.records };

    ghost size = { λ k. settled_size k.kept.records k.kept.landed };

    ghost unsettled = { λ k. is_some k.kept.landed };

    ghost landed = { λ k. k.kept.landed };

    ghost faults = { λ k. k.kept.calls.faults };

    fn append(&mut self, rec: &[u8]) -> Result<(), PutFault> {
        self.kept.append(rec)?;
        // A bank appends under its lock, so nobody else has the copies then.
        let Ok(copy) = rec.to_vec(self.alloc) else {
            return Ok(());
        };
        if let Some(mut copies) = self.copies.try_lock() {
            let _ = copies.push(copy);
        }
        Ok(())
    }

    fn settle(&mut self) -> Result<bool, Failed> {
        self.kept.settle()
    }

    fn fetch(&mut self, number: u64, into: &mut Vec<u8>) -> Result<(), FetchFault> {
        self.kept.fetch(number, into)
    }

    fn len(&self) -> u64 {
        self.kept.len()
    }

    fn faults(&self) -> u64 {
        self.kept.faults()
    }
}
