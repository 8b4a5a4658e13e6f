//! The keepers that the word RECORDS asks for, besides the one in memory.

ghost use Rattle.std.specs.Prelude.{◌≡◌, false, None};

use ofx_ports::{Failed, FetchFault, Keeper, PutFault};
use run_guards::Losable;

/// The prefix of a word that names a file of records on a disk.
pub const ON_DISK: &str = "disk:";

/// A keeper of records that couldn't be opened: it has one record and refuses every call, so that whoever goes over the
/// records meets the fault at the first.
#[derive(Drop)]
pub struct Unopened {
    pub faults: u64,
    pub is_unsettled: bool,
}

impl Unopened {
    /// A keeper that has refused no call yet.
    pub fn new() -> Unopened
        ensures { result.is_unsettled ≡ false }
    {
        Unopened {
            faults: 0,
            is_unsettled: false,
        }
    }
}

impl Keeper for Unopened {
    ghost records = { λ _. None };

    ghost size = { λ _. 1 };

    ghost unsettled = { λ k. k.is_unsettled };

    ghost landed = { λ _. None };

    ghost faults = { λ k. k.faults };

    fn append(&mut self, _rec: &[u8]) -> Result<(), PutFault> {
        self.faults = self.faults.saturating_add(1);
        self.is_unsettled = true;
        Err(PutFault::Failed)
    }

    fn settle(&mut self) -> Result<bool, Failed> {
        self.faults = self.faults.saturating_add(1);
        Err(Failed)
    }

    fn fetch(&mut self, _number: u64, into: &mut Vec<u8>) -> Result<(), FetchFault> {
        into.clear();
        self.faults = self.faults.saturating_add(1);
        Err(FetchFault::Failed)
    }

    fn len(&self) -> u64 {
        1
    }

    fn faults(&self) -> u64 {
        self.faults
    }
}

/// Nothing is ever kept in a file that wasn't opened.
impl Losable for Unopened {
    fn is_file_lost(&self) -> bool {
        false
    }
}
