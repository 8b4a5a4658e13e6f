//! Which file of the machine a path leads to.

use std::fs;
use std::os::unix::fs::MetadataExt;

/// A file of the machine, by its device and its number there. No file has the number 0.
#[derive(Clone, Copy, PartialEq, Eq)]
pub struct Named {
    device: u64,
    inode: u64,
}

impl Named {
    /// No file.
    pub const NOTHING: Named = Named {
        device: 0,
        inode: 0,
    };

    /// The file to which a path leads.
    pub fn at(rt: &HostRuntime, path: &str) -> Named {
        match fs::metadata(rt, path) {
            Ok(found) => Named {
                device: found.dev(),
                inode: found.ino(),
            },
            Err(_) => Named::NOTHING,
        }
    }

    /// Whether a path leads to this file.
    pub fn is_at(self, rt: &HostRuntime, path: &str) -> bool {
        self.inode != 0 && self == Named::at(rt, path)
    }
}
