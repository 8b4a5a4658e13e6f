//! A store in a file.

ghost use Rattle.std.specs.Prelude.{◌≡◌, None, IfOk};
ghost use Rattle.ofx_ports.specs.Adapters.{store_faults};

use crate::adapters::folder::folder_of;
use crate::fault::{FetchFault, PutFault};
use crate::store_keeper::StoreKeeper;
use ofx_types::OutOfMemory;
use std::alloc::Global;
use std::fs::{File, Files, OpenFile, OpenOptions};
use std::io::{ErrorKind, Read, Write};
use std::os::unix::fs::OpenOptionsExt;
use std::{fs, io};

/// Whom the file is for: its owner alone.
const MODE: u32 = 0o600;

/// What the name of the file has after it while a new text is written.
const BESIDE: &str = ".new";

/// A text in a file, for one run at a time. A save writes the new text into a file beside it, whose name has `.new` at its
/// end, brings that to the disk, puts it in place by a rename, and brings the folder to the disk, so that a crash leaves the
/// old text or the new one. A file that isn't there is an empty text.
#[derive(Drop)]
pub struct FileStore<R> {
    rt: R,
    path: String,
    beside: String,
    faults: u64,
}

impl<R: Files + Drop> FileStore<R> {
    /// The store in the file at this path. Nothing is opened or made yet.
    pub fn at(alloc: Global, rt: R, path: &str) -> Result<FileStore<R>, OutOfMemory>
        ensures faults { IfOk result (λ s. store_faults s ≡ 0) }
    {
        let mut beside = String::from_str(alloc, path)?;
        beside.push_str(BESIDE)?;
        Ok(FileStore {
            rt,
            path: String::from_str(alloc, path)?,
            beside,
            faults: 0,
        })
    }
}

// Writes the text into the file beside and renames that over the file. Where this fails, it tries to remove the file beside.
fn put_in_place<R: Files>(rt: &R, path: &str, beside: &str, text: &[u8]) -> io::Result<()> {
    let located = write_beside(rt, beside, text).and_then(|()| fs::rename(rt, beside, path));
    if located.is_err() {
        let _ = fs::remove_file(rt, beside);
        return located;
    }
    File::open(rt, folder_of(path))?.sync_all()
}

// Writes the text into a new file and brings it to the disk. What a run that was cut off left there goes.
fn write_beside<R: Files>(rt: &R, beside: &str, text: &[u8]) -> io::Result<()> {
    let _ = fs::remove_file(rt, beside);
    let mut options = OpenOptions::new();
    options.write(true).create_new(true).mode(MODE);
    let mut file = options.open(rt, beside)?;
    file.write_all(text)?;
    file.sync_all()
}

// Puts what the file holds after what `into` holds. What is no file, as a folder, is refused.
fn read_text<R: Files>(rt: &R, path: &str, into: &mut Vec<u8>) -> io::Result<()> {
    let mut file = match File::open(rt, path) {
        Ok(file) => file,
        Err(fault) if matches!(fault.kind(), ErrorKind::NotFound) => return Ok(()),
        Err(fault) => return Err(fault),
    };
    if !file.metadata()?.is_file() {
        return Err(io::Error::from(ErrorKind::InvalidInput));
    }
    file.read_to_end(into)?;
    Ok(())
}

impl<R: Files + Drop> StoreKeeper for FileStore<R> {
    ghost saved = { λ _. None };

    ghost faults = { store_faults };

    fn save(&mut self, text: &[u8]) -> Result<(), PutFault> {
        if put_in_place(&self.rt, &self.path, &self.beside, text).is_err() {
            self.faults = self.faults.saturating_add(1);
            return Err(PutFault::Failed);
        }
        Ok(())
    }

    fn load(&mut self, into: &mut Vec<u8>) -> Result<(), FetchFault> {
        into.clear();
        let Err(fault) = read_text(&self.rt, &self.path, into) else {
            return Ok(());
        };
        into.clear();
        if matches!(fault.kind(), ErrorKind::OutOfMemory) {
            return Err(FetchFault::OutOfMemory);
        }
        self.faults = self.faults.saturating_add(1);
        Err(FetchFault::Failed)
    }

    fn faults(&self) -> u64 {
        self.faults
    }
}
