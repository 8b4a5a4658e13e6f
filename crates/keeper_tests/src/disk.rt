//! A keeper on a disk: the bytes of its file, what is refused, calls of the disk that fail, and a real file.

ghost use Rattle.std.specs.Prelude.{◌≡◌, ◌+◌, ◌≤◌, false, length, IfOk};

use crate::offsets::{folder, removed, same};
use disk_keeper::{Disk, DiskFault, DiskKeeper, FileDisk, MemDisk};
use ofx_ports::{Failed, FetchFault, Keeper, PutFault};
use std::alloc::Global;
use std::fs;
use std::process::Abort;

/// A keeper on a disk in memory.
pub type InMemory = DiskKeeper<MemDisk>;

/// More bytes than any file of a test has.
const ROOM: u64 = 1 << 20;

/// A disk with these bytes, whose calls don't fail.
pub fn disk(rt: &impl Abort, alloc: Global, found: &[u8]) -> MemDisk {
    assert!(rt; found.len() as u64 <= ROOM);
    MemDisk::new(alloc, found, ROOM).expect(rt, "room")
}

/// A keeper on a new disk, of which the calls of these numbers fail.
pub fn made(rt: &impl Abort, alloc: Global, failing: &[u64], landing: &[u64]) -> InMemory
    ensures settled { result.unsettled ≡ false }
    ensures size { result.size ≡ 0 }
{
    let disk = MemDisk::failing(alloc, &[], ROOM, failing, landing).expect(rt, "room");
    let Ok(keeper) = DiskKeeper::make(disk) else {
        panic!(rt; "a keeper that is made");
    };
    keeper
}

/// A keeper on a disk that has records.
pub fn opened(rt: &impl Abort, disk: MemDisk) -> InMemory
    ensures settled { result.unsettled ≡ false }
{
    let Ok(keeper) = DiskKeeper::open(disk) else {
        panic!(rt; "a keeper that opens");
    };
    keeper
}

/// Keeps a record.
pub fn keep(rt: &impl Abort, keeper: &mut InMemory, bytes: &[u8])
    requires { keeper.old.unsettled ≡ false }
    ensures settled { keeper.new.unsettled ≡ false }
    ensures size { keeper.new.size ≡ keeper.old.size + 1 }
{
    keeper.append(bytes).expect(rt, "a record that is kept");
}

/// What is fetched for this number: these bytes, or nothing where it can't be read.
pub fn fetches(
    rt: &impl Abort,
    keeper: &mut InMemory,
    number: u64,
    into: &mut Vec<u8>,
    wanted: Result<&[u8], FetchFault>,
)
    requires settled { keeper.old.unsettled ≡ false }
    requires first { 1 ≤ number }
    requires last { number ≤ keeper.old.size }
    ensures settled { keeper.new.unsettled ≡ false }
    ensures size { keeper.new.size ≡ keeper.old.size }
{
    match keeper.fetch(number, into) {
        Ok(()) => assert!(rt; wanted == Ok(into.as_slice())),
        Err(fault) => assert!(rt; wanted == Err(fault) && into.is_empty()),
    }
}

const ONE: &[u8] = b"OFXKEEP1\x01\0\0\0\0\0\0\0\x01\xaa\0";

#[test]
fn records_stand_after_the_mark_and_are_found_again(rt: HostRuntime) {
    let mut into = b"before".to_vec(rt.alloc()).expect(&rt, "room");
    let mut keeper = made(&rt, rt.alloc(), &[], &[]);
    keep(&rt, &mut keeper, b"\xaa");
    assert!(rt; keeper.disk().bytes() == ONE);
    let mut keeper = opened(&rt, disk(&rt, rt.alloc(), ONE));
    keep(&rt, &mut keeper, b"");
    keep(&rt, &mut keeper, b"three");
    assert!(rt; keeper.len() == 3);
    fetches(&rt, &mut keeper, 3, &mut into, Ok(b"three"));
    fetches(&rt, &mut keeper, 1, &mut into, Ok(b"\xaa"));
    assert!(rt; keeper.faults() == 0 && keeper.disk().memory_faults() == 0);
}

/// What opening is refused with: 0 where the bytes are no file of records, and otherwise the number of what passes the end.
fn refusal(keeper: Result<InMemory, DiskFault<MemDisk>>) -> Result<(), u64> {
    match keeper {
        Ok(_) => Ok(()),
        Err(DiskFault::Failed(_)) => Err(u64::MAX),
        Err(DiskFault::BadMark(_)) => Err(0),
        Err(DiskFault::BadRecord(_, number)) => Err(number),
    }
}

/// Files, and what opening them is refused with.
const FILES: &[(&[u8], Result<(), u64>)] = &[
    (b"", Err(0)),
    (b"OFXKEEP2\0", Err(0)),
    (b"OFXKEEP1", Err(1)),
    (b"OFXKEEP1\x01", Err(1)),
    (b"OFXKEEP1\x01\0\0\0\0\0\0\0", Err(1)),
    (b"OFXKEEP1\x01\0\0\0\0\0\0\0\x01", Err(1)),
    (b"OFXKEEP1\x01\xff\xff\xff\xff\xff\xff\xff\xff\0", Err(1)),
    (b"OFXKEEP1\x01\0\0\0\0\0\0\0\x01\xaa", Err(2)),
    (b"OFXKEEP1\0", Ok(())),
    (b"OFXKEEP1\x07", Ok(())),
];

#[test]
fn a_file_that_is_cut_is_refused(rt: HostRuntime) {
    for (bytes, wanted) in FILES {
        let found = refusal(DiskKeeper::open(disk(&rt, rt.alloc(), bytes)));
        assert!(rt; found == *wanted);
    }
}

/// Appends a record over a disk of which one call fails, settles it, and answers whether it is there. The calls are counted from
/// the making of the file, which has two.
fn settled(rt: &impl Abort, alloc: Global, failing: u64, landing: &[u64]) -> bool {
    let mut keeper = made(rt, alloc, &[failing], landing);
    same(rt, keeper.append(b"\xaa"), Err(PutFault::Failed));
    let holds = keeper.settle().expect(rt, "an answer");
    keep(rt, &mut keeper, b"\xbb");
    let number = keeper.len();
    same(rt, number, 1 + u64::from(holds));
    let mut into = Vec::new(alloc);
    fetches(rt, &mut keeper, number, &mut into, Ok(b"\xbb"));
    holds
}

/// The call that fails, whether its bytes land, and whether the record is stored.
const STOPS: &[(u64, &[u64], bool)] = &[
    (3, &[], false),
    (3, &[3], false),
    (4, &[], false),
    (4, &[4], false),
    (5, &[], false),
    (5, &[5], false),
    (6, &[], false),
    (7, &[], false),
    (7, &[7], true),
    (8, &[], true),
];

#[test]
fn a_stop_at_each_call_is_settled(rt: HostRuntime) {
    for (failing, landing, holds) in STOPS {
        same(&rt, settled(&rt, rt.alloc(), *failing, landing), *holds);
    }
}

#[test]
fn settling_and_fetching_fail_with_the_disk(rt: HostRuntime) {
    let mut into = b"before".to_vec(rt.alloc()).expect(&rt, "room");
    let mut keeper = made(&rt, rt.alloc(), &[8, 9, 11, 14], &[]);
    same(&rt, keeper.append(b"\xaa"), Err(PutFault::Failed));
    same(&rt, keeper.settle(), Err(Failed));
    same(&rt, keeper.settle(), Err(Failed));
    assert!(rt; keeper.settle() == Ok(true) && keeper.len() == 1);
    fetches(&rt, &mut keeper, 1, &mut into, Err(FetchFault::Failed));
    fetches(&rt, &mut keeper, 1, &mut into, Ok(b"\xaa"));
    same(&rt, keeper.faults(), 4);
}

/// The keeper on the file of this path, which is made where it is empty.
fn on_file(rt: &HostRuntime, abort: &impl Abort, path: &str, count: u64) -> DiskKeeper<FileDisk>
    ensures settled { result.unsettled ≡ false }
    ensures size { result.size ≡ count }
{
    let disk = FileDisk::open(rt, path).expect(abort, "a file");
    let found = if disk.size() == 0 {
        DiskKeeper::make(disk)
    } else {
        DiskKeeper::open(disk)
    };
    let Ok(keeper) = found else {
        panic!(abort; "a keeper");
    };
    assert!(abort; keeper.len() == count);
    keeper
}

const TWO: &[u8] = b"OFXKEEP1\x01\0\0\0\0\0\0\0\x03one\x01\0\0\0\0\0\0\0\x03two\0";

#[test]
fn a_file_outlives_its_keeper_and_is_locked(rt: HostRuntime) {
    folder(&rt, &rt, "kept");
    let mut into = Vec::new(rt.alloc());
    let mut keeper = on_file(&rt, &rt, "kept/records", 0);
    assert!(rt; FileDisk::open(&rt, "kept/records").is_err());
    keeper.append(b"one").expect(&rt, "a record");
    drop(keeper);
    let mut keeper = on_file(&rt, &rt, "kept/records", 1);
    keeper.append(b"two").expect(&rt, "a record");
    keeper.fetch(1, &mut into).expect(&rt, "the first record");
    assert!(rt; into.as_slice() == b"one".as_slice());
    drop(keeper);
    let file = fs::read(&rt, "kept/records").expect(&rt, "the file");
    assert!(rt; file.as_slice() == TWO);
    assert!(rt; FileDisk::open(&rt, "kept").is_err());
    assert!(rt; FileDisk::open(&rt, "none/records").is_err());
    removed(&rt, &rt, "kept");
}
