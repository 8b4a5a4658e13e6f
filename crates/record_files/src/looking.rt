//! Looking at a path that can't be opened, for the cause that a person can mend.

use crate::cause::Cause;
use ofx_ports::folder_of;
use std::fs::OpenOptions;
use std::io::ErrorKind;
use std::os::unix::fs::MetadataExt;
use std::{fs, io};

/// The cause that an error of the system tells.
pub fn cause_of(error: io::Error) -> Cause {
    match error.kind() {
        ErrorKind::NotFound => Cause::NoFile,
        ErrorKind::NotADirectory => Cause::NoFolder,
        ErrorKind::IsADirectory => Cause::Folder,
        ErrorKind::PermissionDenied => Cause::NoRights,
        ErrorKind::ReadOnlyFilesystem => Cause::ReadOnly,
        ErrorKind::WouldBlock => Cause::Held,
        ErrorKind::StorageFull | ErrorKind::QuotaExceeded | ErrorKind::FileTooLarge => Cause::Full,
        ErrorKind::OutOfMemory => Cause::NoMemory,
        _ => Cause::System(error),
    }
}

/// Whether anything is at this path.
pub fn is_there(rt: &HostRuntime, path: &str) -> bool {
    fs::symlink_metadata(rt, path).is_ok()
}

/// Why no file of records can be opened at this path, as far as the path tells it. None where nothing speaks against it.
pub fn cause_at(rt: &HostRuntime, path: &str) -> Option<Cause> {
    if path.is_empty() {
        return Some(Cause::NoPath);
    }
    match fs::metadata(rt, path) {
        Ok(found) => cause_in(rt, path, &found),
        Err(error) => match error.kind() {
            ErrorKind::NotFound => cause_of_nothing(rt, path),
            _ => Some(cause_of(error)),
        },
    }
}

/// Why a file that is there can't be opened.
fn cause_in(rt: &HostRuntime, path: &str, found: &fs::Metadata) -> Option<Cause> {
    if found.is_dir() {
        return Some(Cause::Folder);
    }
    if !found.is_file() {
        return Some(Cause::NotPlain);
    }
    if let Err(error) = OpenOptions::new().read(true).write(true).open(rt, path) {
        return Some(cause_of(error));
    }
    if found.nlink() > 1 {
        Some(Cause::SecondName)
    } else {
        None
    }
}

/// Why nothing can be made where no file is.
fn cause_of_nothing(rt: &HostRuntime, path: &str) -> Option<Cause> {
    if fs::symlink_metadata(rt, path).is_ok() {
        return Some(Cause::NotPlain);
    }
    match fs::metadata(rt, folder_of(path)) {
        Ok(found) if found.is_dir() => None,
        _ => Some(Cause::NoFolder),
    }
}
