//! Records that were read without writing, and the bytes of files.

ghost use Rattle.std.specs.Prelude.{◌≡◌, false, None, length};

use crate::cause::Cause;
use crate::looking::{cause_at, cause_of};
use ofx_ports::{Failed, FetchFault, Keeper, PutFault};
use std::alloc::{AllocError, Global};
use std::fs::{File, OpenOptions};
use std::io::{ErrorKind, Read};

/// Records in memory that take no more, and the text of the setup to which they are bound.
pub struct ReadRecords {
    records: Vec<Vec<u8>>,
    pub lines: Option<String>,
    faults: u64,
    pub is_unsettled: bool,
}

// It is written out, so that a caller does not prove again how each part is dropped.
impl Drop for ReadRecords {
    fn drop(self) {
        let ReadRecords {
            records: _,
            lines: _,
            faults: _,
            is_unsettled: _,
        } = self;
    }
}

impl ReadRecords {
    /// No records, bound to no setup.
    pub fn none(alloc: Global) -> ReadRecords
        ensures { result.is_unsettled ≡ false }
    {
        ReadRecords {
            records: Vec::new(alloc),
            lines: None,
            faults: 0,
            is_unsettled: false,
        }
    }

    /// No records, bound to the setup of this text.
    pub fn bound(alloc: Global, lines: String) -> ReadRecords
        ensures { result.is_unsettled ≡ false }
    {
        ReadRecords {
            records: Vec::new(alloc),
            lines: Some(lines),
            faults: 0,
            is_unsettled: false,
        }
    }

    /// How many there are.
    pub fn count(&self) -> u64
        ensures { result ≡ length self.now.records.items }
    {
        self.records.len() as u64
    }

    /// Puts one more after the others.
    pub fn put(&mut self, bytes: Vec<u8>) -> Result<(), AllocError> {
        self.records.push(bytes)?;
        Ok(())
    }
}

/// The records are read; each append fails.
impl Keeper for ReadRecords {
    ghost records = { λ _. None };

    ghost size = { λ k. length k.records.items };

    ghost unsettled = { λ k. k.is_unsettled };

    ghost landed = { λ _. None };

    ghost faults = { λ k. k.faults };

    fn append(&mut self, _rec: &[u8]) -> Result<(), PutFault> {
        self.faults = self.faults.saturating_add(1);
        self.is_unsettled = true;
        Err(PutFault::Failed)
    }

    fn settle(&mut self) -> Result<bool, Failed> {
        self.is_unsettled = false;
        Ok(false)
    }

    fn fetch(&mut self, number: u64, into: &mut Vec<u8>) -> Result<(), FetchFault> {
        into.clear();
        let Some(bytes) = self.records.get((number - 1) as usize) else {
            return Ok(());
        };
        match into.extend_from_slice(bytes) {
            Ok(()) => Ok(()),
            Err(_) => {
                into.clear();
                Err(FetchFault::OutOfMemory)
            }
        }
    }

    fn len(&self) -> u64 {
        self.records.len() as u64
    }

    fn faults(&self) -> u64 {
        self.faults
    }
}

/// The file at this path, opened to be read. It has to be one that a run may write.
pub fn open_to_read(rt: &HostRuntime, path: &str) -> Result<File, Cause> {
    if let Some(cause) = cause_at(rt, path) {
        return Err(cause);
    }
    match OpenOptions::new().read(true).write(true).open(rt, path) {
        Ok(file) => Ok(file),
        Err(error) => Err(cause_of(error)),
    }
}

/// All bytes of a file that is open.
pub fn bytes_of(rt: &HostRuntime, file: &mut File) -> Result<Vec<u8>, Cause> {
    let mut bytes = Vec::new(rt.alloc());
    match file.read_to_end(&mut bytes) {
        Ok(_) => Ok(bytes),
        Err(error) => Err(cause_of(error)),
    }
}

/// All bytes of the file at this path. None where there is no file.
pub fn bytes_if_there(rt: &HostRuntime, path: &str) -> Result<Vec<u8>, Cause> {
    match File::open(rt, path) {
        Ok(mut file) => bytes_of(rt, &mut file),
        Err(error) if matches!(error.kind(), ErrorKind::NotFound) => Ok(Vec::new(rt.alloc())),
        Err(error) => Err(cause_of(error)),
    }
}
