//! What a run is handed: the link to the bank, and the store with its lock.

use client_adapters::{BankLink, LockFault, StoreLock};
use client_arguments::Order;
use client_core::Wish;
use ofx_ports::FileStore;
use ofx_types::OutOfMemory;

/// The offset of the word that names the store.
pub const STORE: usize = 1;

/// A link to the port that the arguments name. For `show`, which asks the bank nothing, nobody is called.
pub fn link_for(rt: HostRuntime, order: &Order) -> BankLink {
    match order.wish {
        Wish::Show => BankLink::to_nobody(rt),
        _ => BankLink::to(rt, order.port),
    }
}

/// A store in a file, which no other run has meanwhile.
#[derive(Drop)]
pub struct HeldStore {
    pub text: FileStore<HostRuntime>,
    // None for `show`, which changes nothing
    _lock: Option<StoreLock>,
}

impl HeldStore {
    /// The store at this path, locked for the order.
    pub fn of(rt: HostRuntime, path: &str, order: &Order) -> Result<HeldStore, LockFault> {
        let lock = match order.wish {
            Wish::Show => None,
            _ => Some(StoreLock::of(&rt, path)?),
        };
        match FileStore::at(rt.alloc(), rt, path) {
            Ok(text) => Ok(HeldStore { text, _lock: lock }),
            Err(OutOfMemory) => Err(LockFault::OutOfMemory),
        }
    }
}
