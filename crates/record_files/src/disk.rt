//! A file of records of `disk:PATH`: made, opened, or read without writing.

ghost use Rattle.std.specs.Prelude.{◌≡◌, false, IfOk, IfSome};

use crate::cause::Cause;
use crate::looking::{cause_at, cause_of};
use crate::reading::{bytes_of, open_to_read};
use disk_keeper::{Disk, DiskFault, DiskKeeper, FileDisk, MemDisk};
use std::io::ErrorKind;

/// The most bytes of a file that is copied.
const MAX_BYTES: u64 = i64::MAX as u64;

/// The keeper on the file of this path. One that isn't there or is empty is made, with no records.
pub fn on_disk(rt: &HostRuntime, path: &str) -> Result<DiskKeeper<FileDisk>, Cause>
    ensures settled { IfOk result (λ k. k.unsettled ≡ false) }
{
    let disk = file_at(rt, path)?;
    if disk.size() > 0 {
        keeper_on(disk)
    } else {
        made_on(disk)
    }
}

/// The keeper on the file of this path, where it isn't there or is empty: it is made, with no records. None where it has bytes.
pub fn make_on_disk(rt: &HostRuntime, path: &str) -> Result<Option<DiskKeeper<FileDisk>>, Cause> {
    let disk = file_at(rt, path)?;
    if disk.size() > 0 {
        return Ok(None);
    }
    Ok(Some(made_on(disk)?))
}

/// The keeper on an empty file, with no records.
fn made_on(disk: FileDisk) -> Result<DiskKeeper<FileDisk>, Cause>
    requires { disk.size ≡ 0 }
    ensures settled { IfOk result (λ k. k.unsettled ≡ false) }
{
    match DiskKeeper::make(disk) {
        Ok(keeper) => Ok(keeper),
        Err(_) => Err(Cause::Full),
    }
}

/// The keeper on the file of this path, which has bytes.
pub fn open_on_disk(rt: &HostRuntime, path: &str) -> Result<DiskKeeper<FileDisk>, Cause>
    ensures settled { IfOk result (λ k. k.unsettled ≡ false) }
{
    keeper_on(file_at(rt, path)?)
}

fn file_at(rt: &HostRuntime, path: &str) -> Result<FileDisk, Cause> {
    match FileDisk::open(rt, path) {
        Ok(disk) => Ok(disk),
        Err(error) if matches!(error.kind(), ErrorKind::WouldBlock) => Err(Cause::Held),
        Err(error) => Err(cause_at(rt, path).unwrap_or(cause_of(error))),
    }
}

/// The keeper on a disk that has bytes.
fn keeper_on<D: Disk + Drop>(disk: D) -> Result<DiskKeeper<D>, Cause>
    ensures settled { IfOk result (λ k. k.unsettled ≡ false) }
{
    match DiskKeeper::open(disk) {
        Ok(keeper) => Ok(keeper),
        Err(DiskFault::BadMark(_)) => Err(Cause::NoMark),
        Err(DiskFault::BadRecord(_, number)) => Err(Cause::Cut(number)),
        Err(DiskFault::Failed(_)) => Err(Cause::Failed),
    }
}

/// The keeper on a copy in memory of the file of this path. An empty file has none. Nothing is written.
pub fn read_disk(rt: &HostRuntime, path: &str) -> Result<Option<DiskKeeper<MemDisk>>, Cause>
    ensures settled { IfOk result (λ found. IfSome found (λ k. k.unsettled ≡ false)) }
{
    let mut file = open_to_read(rt, path)?;
    if file.try_lock().is_err() {
        return Err(Cause::Held);
    }
    let bytes = bytes_of(rt, &mut file)?;
    if bytes.is_empty() {
        return Ok(None);
    }
    let size = bytes.len() as u64;
    if size > MAX_BYTES {
        return Err(Cause::NoMemory);
    }
    match MemDisk::new(rt.alloc(), bytes.as_slice(), size) {
        Ok(disk) => Ok(Some(keeper_on(disk)?)),
        Err(_) => Err(Cause::NoMemory),
    }
}
