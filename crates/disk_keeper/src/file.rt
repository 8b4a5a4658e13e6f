//! A file on a real disk.

ghost use Rattle.std.specs.Prelude.{◌≡◌, ◌+◌, ◌^◌, ◌<◌, ◌≤◌, Some, None, [], ◌∷◌, length, max, IfOk, IsErr, OnOk, OnErr};
ghost use Rattle.ofx_ports.specs.Faults.{CountsFaults};

use crate::disk::Disk;
use crate::reading::MARK;
use ofx_ports::{Failed, folder_of};
use std::fs::{File, OpenOptions};
use std::io::ErrorKind;
use std::marker::Model;
use std::os::unix::fs::{FileExt, MetadataExt, OpenOptionsExt};
use std::{fs, io};

/// Whom a new file is for: its owner alone.
const MODE: u32 = 0o600;

/// The offset after the last byte that a file can have.
const END: u64 = i64::MAX as u64;

/// The bytes of a page, as it is written again.
const PAGE: usize = 4_096;

/// How many pages at the end of a file are written again where it is opened: more than the longest record has.
const PAGES: u64 = 256;

/// A file on a real disk, open and locked. It says nothing of what the disk holds.
///
/// After a sync that failed it is lost, and each later one fails too: the system may have dropped what was written, and report
/// no further error. So it is where its path doesn't lead to it any more, since the next run wouldn't find what is written.
pub struct FileDisk {
    rt: HostRuntime,
    path: String,
    file: File,
    // which file of the machine it is
    device: u64,
    inode: u64,
    size: u64,
    faults: u64,
    is_lost: bool,
}

// It is written out, so that a caller does not prove again how each part is dropped.
impl Drop for FileDisk {
    fn drop(self) {
        let FileDisk {
            rt: _,
            path: _,
            file: _,
            device: _,
            inode: _,
            size: _,
            faults: _,
            is_lost: _,
        } = self;
    }
}

impl Model for FileDisk {
    ghost use Rattle.std.specs.Prelude.{◌<◌, ◌^◌};
    ghost use Rattle.disk_keeper.specs.FileOnDisk.{FileState};

    ghost Value = { FileState };

    ghost view = { λ d. record { size = d.size; faults = d.faults } };

    ghost invariant = { λ d. d.size < 2 ^ 63 };
}

impl FileDisk {
    /// The file at this path. One that isn't there is made, empty and for its owner alone, and is in its folder for
    /// good. What is no file of this machine, has a second name, or is locked by another run, is refused.
    ///
    /// The last pages of a file of records are written again as they are read, and synced.
    pub fn open(rt: &HostRuntime, path: &str) -> io::Result<FileDisk>
        ensures { IfOk result (λ d. d.faults ≡ 0) }
    {
        let file = open_or_make(rt, path)?;
        file.try_lock()?;
        let metadata = file.metadata()?;
        let size = metadata.len();
        if !metadata.is_file() || metadata.nlink() != 1 || size > END {
            return Err(io::Error::from(ErrorKind::InvalidInput));
        }
        if size == 0 {
            File::open(rt, folder_of(path))?.sync_all()?;
        } else if has_mark(&file) {
            write_end_again(&file, size)?;
        }
        Ok(FileDisk {
            rt: *rt,
            path: String::from_str(rt.alloc(), path)?,
            file,
            device: metadata.dev(),
            inode: metadata.ino(),
            size,
            faults: 0,
            is_lost: false,
        })
    }

    /// Whether a sync failed, or the path didn't lead to the file any more where it was to be synced.
    pub fn is_lost(&self) -> bool {
        self.is_lost
    }

    // Whether the path leads to this file.
    fn is_named(&self) -> bool {
        match fs::metadata(&self.rt, self.path.as_str()) {
            Ok(found) => found.dev() == self.device && found.ino() == self.inode,
            Err(_) => false,
        }
    }

    // Counts a fault.
    fn fail(&mut self) -> Failed
        ensures size { self.new.size ≡ self.old.size }
        ensures rose { CountsFaults self.old.faults self.new.faults (Unit {0}) }
    {
        self.faults = self.faults.saturating_add(1);
        Failed
    }
}

// Opens the file at this path, or makes it.
fn open_or_make(rt: &HostRuntime, path: &str) -> io::Result<File> {
    let mut options = OpenOptions::new();
    options.read(true).write(true);
    match options.open(rt, path) {
        Err(fault) if matches!(fault.kind(), ErrorKind::NotFound) => {
            options.create_new(true).mode(MODE).open(rt, path)
        }
        opened => opened,
    }
}

// Whether a file begins with the mark of a file of records.
fn has_mark(file: &File) -> bool {
    let mut found = [0u8; 8];
    file.read_exact_at(&mut found, 0).is_ok() && found == MARK
}

// Writes the last pages of a file of this size again, as they are read, and syncs them. After a sync that failed, in an earlier
// run, the system may show bytes that aren't on the disk, and take them for written: then no later sync would write them.
fn write_end_again(file: &File, size: u64) -> io::Result<()> {
    let pages = size.div_ceil(PAGE as u64);
    for number in pages.saturating_sub(PAGES)..pages {
        write_again(file, number.saturating_mul(PAGE as u64), size)?;
    }
    file.sync_data()
}

// Writes the page at this offset again, as far as the file goes.
fn write_again(file: &File, at: u64, size: u64) -> io::Result<()> {
    let mut page = [0u8; PAGE];
    let count = size.saturating_sub(at).min(PAGE as u64) as usize;
    let bytes = &mut page[..count];
    file.read_exact_at(bytes, at)?;
    file.write_all_at(bytes, at)
}

impl Disk for FileDisk {
    ghost history = { λ _. None };

    ghost extent = { λ d. d.size };

    ghost faults = { λ d. d.faults };

    fn size(&self) -> u64 {
        self.size
    }

    fn read_at(&mut self, at: u64, into: &mut [u8]) -> Result<(), Failed> {
        match self.file.read_exact_at(into, at) {
            Ok(()) => Ok(()),
            Err(_) => Err(self.fail()),
        }
    }

    fn write_at(&mut self, at: u64, bytes: &[u8]) -> Result<(), Failed> {
        let Some(end) = at.checked_add(bytes.len() as u64) else {
            return Err(self.fail());
        };
        if end > END || self.file.write_all_at(bytes, at).is_err() {
            return Err(self.fail());
        }
        self.size = self.size.max(end);
        Ok(())
    }

    fn sync(&mut self) -> Result<(), Failed> {
        if self.is_lost || !self.is_named() || self.file.sync_data().is_err() {
            self.is_lost = true;
            return Err(self.fail());
        }
        Ok(())
    }

    fn faults(&self) -> u64 {
        self.faults
    }
}
