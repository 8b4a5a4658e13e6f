//! How many workers have begun.

use std::alloc::{AllocError, Global};
use std::sync::Arc;
use std::sync::atomic::{AtomicU64, Ordering};

/// The workers of a server: how many are wanted, and how many have begun. All copies count together.
#[derive(Drop)]
pub struct Roster {
    begun: Arc<AtomicU64, Global>,
    wanted: u32,
}

impl Roster {
    /// So many workers are wanted, and none has begun.
    pub fn of(alloc: Global, wanted: u32) -> Result<Roster, AllocError> {
        let begun = Arc::new(alloc, AtomicU64::new(0))?;
        Ok(Roster { begun, wanted })
    }

    /// The same roster for another worker.
    pub fn share(&self) -> Result<Roster, AllocError> {
        let begun = Arc::try_clone(&self.begun)?;
        Ok(Roster {
            begun,
            wanted: self.wanted,
        })
    }

    /// One more has begun. Whether it is the first one.
    pub(crate) fn begin(&self) -> bool {
        self.begun.fetch_add(1, Ordering::SeqCst) == 0
    }

    /// Whether all have begun.
    pub(crate) fn is_full(&self) -> bool {
        self.begun() >= u64::from(self.wanted)
    }

    /// How many have begun.
    pub(crate) fn begun(&self) -> u64 {
        self.begun.load(Ordering::SeqCst)
    }

    /// How many are wanted.
    pub(crate) fn wanted(&self) -> u32 {
        self.wanted
    }
}
