//! Stores of one text: the one in memory, whose calls of given numbers fail, and the one in a file, which a crash or a save
//! that fails leaves with a whole text.

use crate::same::{same, same_bytes};
use ofx_ports::{FetchFault, FileStore, MemStore, PutFault, StoreKeeper};
use std::fs;
use std::os::unix::fs::PermissionsExt;
use std::process::Abort;

// A new folder for the files of one test.
fn folder(rt: &HostRuntime, abort: &impl Abort, name: &str) {
    let _ = fs::remove_dir_all(rt, name);
    fs::create_dir(rt, name).expect(abort, "a new folder");
}

// The folder of a test that is over goes.
fn removed(rt: &HostRuntime, abort: &impl Abort, name: &str) {
    fs::remove_dir_all(rt, name).expect(abort, "a folder to remove");
}

// A store in the file of this path.
fn in_file(rt: &HostRuntime, abort: &impl Abort, path: &str) -> FileStore<HostRuntime> {
    FileStore::at(rt.alloc(), *rt, path).expect(abort, "a store")
}

#[test]
fn a_store_keeps_its_last_text(rt: HostRuntime) {
    let mut store = MemStore::new(rt.alloc());
    let mut into = b"before".to_vec(rt.alloc()).expect(&rt, "room");
    same(&rt, store.load(&mut into), Ok(()));
    same(&rt, into.len(), 0);
    same(&rt, store.save(b"one"), Ok(()));
    same(&rt, store.save(b"other"), Ok(()));
    same(&rt, store.load(&mut into), Ok(()));
    same_bytes(&rt, &into, b"other");
    same(&rt, store.calls(), 4);
    same(&rt, store.faults(), 0);
}

#[test]
fn a_save_that_fails_leaves_the_old_text_or_the_new_one(rt: HostRuntime) {
    let mut store = MemStore::failing(rt.alloc(), b"old", &[1, 2, 3], &[2]).expect(&rt, "a store");
    let mut into = Vec::new(rt.alloc());
    same(&rt, store.save(b"lost"), Err(PutFault::Failed));
    same_bytes(&rt, store.text(), b"old");
    same(&rt, store.save(b"landed"), Err(PutFault::Failed));
    same_bytes(&rt, store.text(), b"landed");
    same(&rt, store.load(&mut into), Err(FetchFault::Failed));
    same(&rt, store.load(&mut into), Ok(()));
    same_bytes(&rt, &into, b"landed");
    same(&rt, store.faults(), 3);
}

#[test]
fn a_text_outlives_its_store(rt: HostRuntime) {
    folder(&rt, &rt, "store");
    let mut into = b"before".to_vec(rt.alloc()).expect(&rt, "room");
    let mut store = in_file(&rt, &rt, "store/text");
    same(&rt, store.load(&mut into), Ok(()));
    same(&rt, into.len(), 0);
    same(&rt, store.save(b"a longer text"), Ok(()));
    same(&rt, store.save(b"a text"), Ok(()));
    drop(store);
    let text = fs::metadata(&rt, "store/text").expect(&rt, "the file");
    let mode = text.permissions().mode();
    same(&rt, mode & 0o777, 0o600);
    assert!(rt; fs::metadata(&rt, "store/text.new").is_err());
    let mut store = in_file(&rt, &rt, "store/text");
    same(&rt, store.load(&mut into), Ok(()));
    same_bytes(&rt, &into, b"a text");
    same(&rt, store.faults(), 0);
    removed(&rt, &rt, "store");
}

// A crash before the rename leaves a part of the new text beside the file.
#[test]
fn a_crash_leaves_the_old_text_and_the_next_save_goes_on(rt: HostRuntime) {
    folder(&rt, &rt, "crashed");
    let mut into = Vec::new(rt.alloc());
    let mut store = in_file(&rt, &rt, "crashed/text");
    same(&rt, store.save(b"old"), Ok(()));
    fs::write(&rt, "crashed/text.new", b"a part of the ne").expect(&rt, "a file");
    same(&rt, store.load(&mut into), Ok(()));
    same_bytes(&rt, &into, b"old");
    same(&rt, store.save(b"new"), Ok(()));
    same(&rt, store.load(&mut into), Ok(()));
    same_bytes(&rt, &into, b"new");
    removed(&rt, &rt, "crashed");
}

// A folder has the name of the file that the new text is written into, and then that of the text's own file.
#[test]
fn a_file_that_cannot_be_written_or_read_fails(rt: HostRuntime) {
    folder(&rt, &rt, "barred");
    let mut into = Vec::new(rt.alloc());
    let mut store = in_file(&rt, &rt, "barred/text");
    same(&rt, store.save(b"old"), Ok(()));
    fs::create_dir(&rt, "barred/text.new").expect(&rt, "a folder");
    same(&rt, store.save(b"new"), Err(PutFault::Failed));
    same(&rt, store.load(&mut into), Ok(()));
    same_bytes(&rt, &into, b"old");
    let mut other = in_file(&rt, &rt, "barred/text.new");
    same(&rt, other.load(&mut into), Err(FetchFault::Failed));
    same(&rt, into.len(), 0);
    same(&rt, other.save(b"new"), Err(PutFault::Failed));
    same(&rt, other.faults(), 2);
    removed(&rt, &rt, "barred");
}
