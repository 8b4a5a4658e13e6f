//! The setup of a file of records of `disk:PATH`: `PATH.setup`, a file beside it.

use crate::cause::{Binding, Cause, compared};
use crate::looking::cause_of;
use ofx_ports::folder_of;
use std::alloc::AllocError;
use std::fs::{File, OpenOptions};
use std::io::{ErrorKind, Read, Write};
use std::os::unix::fs::OpenOptionsExt;
use std::{fs, io};

/// Whom the file is for: its owner alone.
const MODE: u32 = 0o600;

/// The most bytes of a setup.
pub const MAX_BYTES: u64 = 262_144;

/// Whether the records at this path are bound to a setup, whose text without passwords is `lines`.
pub fn find_beside(rt: &HostRuntime, path: &str, lines: &str) -> Result<Binding, Cause> {
    let Ok(beside) = beside(rt, path) else {
        return Err(Cause::NoMemory);
    };
    match text_of(rt, beside.as_str()) {
        Ok(began) => compared(rt.alloc(), began.as_str(), lines),
        Err(error) => match error.kind() {
            ErrorKind::NotFound => Ok(Binding::Unbound),
            ErrorKind::PermissionDenied => Err(Cause::NoRightsBeside),
            _ => Err(cause_of(error)),
        },
    }
}

/// Binds the records at this path to a setup, in place of one to which they are bound. It is on the disk when the call returns.
pub fn bind_beside(rt: &HostRuntime, path: &str, lines: &str) -> Result<(), Cause> {
    match written(rt, path, lines) {
        Ok(()) => Ok(()),
        Err(error) => Err(cause_of(error)),
    }
}

/// Writes the file under another name, and then gives it its own. What has that other name is removed first: a draft that an
/// earlier run left, or a link, which isn't followed.
fn written(rt: &HostRuntime, path: &str, lines: &str) -> io::Result<()> {
    let beside = beside(rt, path)?;
    let draft = format!(in rt.alloc(); "{path}.setup.new")?;
    match fs::remove_file(rt, draft.as_str()) {
        Err(error) if !matches!(error.kind(), ErrorKind::NotFound) => return Err(error),
        _ => {}
    }
    let mut options = OpenOptions::new();
    options.write(true).create_new(true).mode(MODE);
    let mut file = options.open(rt, draft.as_str())?;
    file.write_all(lines.as_bytes())?;
    file.sync_all()?;
    fs::rename(rt, draft.as_str(), beside.as_str())?;
    File::open(rt, folder_of(path))?.sync_all()
}

/// The path of the file beside the records at this path.
fn beside(rt: &HostRuntime, path: &str) -> Result<String, AllocError> {
    format!(in rt.alloc(); "{path}.setup")
}

/// The text of a file, of which no more is read than a setup may have.
fn text_of(rt: &HostRuntime, path: &str) -> io::Result<String> {
    let file = File::open(rt, path)?;
    let mut text = String::new(rt.alloc());
    file.take(MAX_BYTES).read_to_string(&mut text)?;
    Ok(text)
}
