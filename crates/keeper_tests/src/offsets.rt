//! What the tests share: folders of their own, and one comparison.

use std::fmt::Debug;
use std::fs;
use std::process::Abort;

/// What was found is what was wanted.
pub fn same<T: PartialEq + Debug + Drop>(rt: &impl Abort, found: T, wanted: T) {
    assert_eq!(rt; found, wanted);
}

/// A new folder for the files of one test.
pub fn folder(rt: &HostRuntime, abort: &impl Abort, name: &str) {
    let _ = fs::remove_dir_all(rt, name);
    fs::create_dir(rt, name).expect(abort, "a new folder");
}

/// The folder of a test that is over goes.
pub fn removed(rt: &HostRuntime, abort: &impl Abort, name: &str) {
    fs::remove_dir_all(rt, name).expect(abort, "a folder to remove");
}
