//! Who may read a file.

use std::fs;
use std::os::unix::fs::MetadataExt;

/// The rights of those who aren't the owner to read a file, or to write it.
const OF_OTHERS: u32 = 0o066;

/// Whether others than its owner may read or write the file at this path. False where there is none, or it is no plain file.
pub fn is_open_to_others(rt: &HostRuntime, path: &str) -> bool {
    match fs::metadata(rt, path) {
        Ok(found) => found.is_file() && found.mode() & OF_OTHERS != 0,
        Err(_) => false,
    }
}
