//! The lock of a store, which one run at a time has.

use std::fs::{File, OpenOptions, TryLockError};
use std::os::unix::fs::OpenOptionsExt;

/// Whom the file is for: its owner alone.
const MODE: u32 = 0o600;

/// What the name of the lock's file has after that of the store.
const BESIDE: &str = ".lock";

/// Why a store isn't locked.
#[derive(Clone, Copy, PartialEq, Eq)]
pub enum LockFault {
    /// Another run has it.
    Held,
    /// The file beside the store can't be made, opened or locked.
    Failed,
    /// Memory was refused.
    OutOfMemory,
}

/// The lock of a store: an empty file beside it, whose name has `.lock` at its end, and which is locked as long as this value
/// lives. The file stays when the lock is given up, since a run that removed it could remove the one that another has locked.
#[derive(Drop)]
pub struct StoreLock {
    _file: File,
}

impl StoreLock {
    /// The lock of the store at this path. It is waited for by nobody: where another run has it, that is `Held`.
    pub fn of(rt: &HostRuntime, store: &str) -> Result<StoreLock, LockFault> {
        let mut beside = match String::from_str(rt.alloc(), store) {
            Ok(beside) => beside,
            Err(_) => return Err(LockFault::OutOfMemory),
        };
        if beside.push_str(BESIDE).is_err() {
            return Err(LockFault::OutOfMemory);
        }
        let mut options = OpenOptions::new();
        options.read(true).write(true).create(true).mode(MODE);
        match options.open(rt, beside.as_str()) {
            Ok(file) => locked(file),
            Err(_) => Err(LockFault::Failed),
        }
    }
}

/// The lock that is on this file from now on.
fn locked(file: File) -> Result<StoreLock, LockFault> {
    match file.try_lock() {
        Ok(()) => Ok(StoreLock { _file: file }),
        Err(TryLockError::WouldBlock) => Err(LockFault::Held),
        Err(TryLockError::Error(_)) => Err(LockFault::Failed),
    }
}
