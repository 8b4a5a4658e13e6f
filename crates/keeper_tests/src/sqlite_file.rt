//! A keeper over an SQLite file: records outlive it, what is no file of records is refused and left alone, and an append that
//! failed is settled by what is in the file.

ghost use Rattle.std.specs.Prelude.{◌≡◌, ◌+◌, ◌≤◌, false};

use crate::offsets::{folder, removed, same};
use ofx_ports::{Failed, FetchFault, Keeper, PutFault};
use sqlite::Connection;
use sqlite_keeper::{RECORDS_TABLE, SqliteKeeper};
use std::fs;
use std::process::Abort;

/// Runs statements on a file as another program would.
fn run(rt: &HostRuntime, abort: &impl Abort, path: &str, statements: &[&str]) {
    let mut database = Connection::open(rt, path).expect(abort, "a database");
    for text in statements {
        database.execute_batch(text).expect(abort, "statements");
    }
    database.close().expect(abort, "a close");
}

/// A keeper with so many records.
fn opened(rt: &HostRuntime, abort: &impl Abort, path: &str, count: u64) -> SqliteKeeper
    ensures settled { result.unsettled ≡ false }
    ensures size { result.size ≡ count }
{
    let keeper = SqliteKeeper::open(rt, path);
    assert!(abort; keeper.len() == count);
    keeper
}

/// Keeps a record.
fn keep(rt: &impl Abort, keeper: &mut SqliteKeeper, bytes: &[u8])
    requires { keeper.old.unsettled ≡ false }
    ensures settled { keeper.new.unsettled ≡ false }
    ensures size { keeper.new.size ≡ keeper.old.size + 1 }
{
    keeper.append(bytes).expect(rt, "a record that is kept");
}

/// What is fetched for this number: these bytes, or nothing where it can't be read.
fn fetches(
    rt: &impl Abort,
    keeper: &mut SqliteKeeper,
    number: u64,
    into: &mut Vec<u8>,
    wanted: Result<&[u8], FetchFault>,
)
    requires settled { keeper.old.unsettled ≡ false }
    requires first { 1 ≤ number }
    requires last { number ≤ keeper.old.size }
    ensures settled { keeper.new.unsettled ≡ false }
    ensures size { keeper.new.size ≡ keeper.old.size }
{
    match keeper.fetch(number, into) {
        Ok(()) => assert!(rt; wanted == Ok(into.as_slice())),
        Err(fault) => assert!(rt; wanted == Err(fault) && into.is_empty()),
    }
}

#[test]
fn records_outlive_their_keeper(rt: HostRuntime) {
    folder(&rt, &rt, "outlive");
    let long = vec![in rt.alloc(); 7u8; 20000].expect(&rt, "room");
    let mut into = b"before".to_vec(rt.alloc()).expect(&rt, "room");
    let mut keeper = opened(&rt, &rt, "outlive/records", 0);
    keep(&rt, &mut keeper, b"");
    keep(&rt, &mut keeper, &long);
    drop(keeper);
    let mut keeper = opened(&rt, &rt, "outlive/records", 2);
    fetches(&rt, &mut keeper, 1, &mut into, Ok(b""));
    fetches(&rt, &mut keeper, 2, &mut into, Ok(&long));
    same(&rt, keeper.settle(), Ok(false));
    drop(keeper);
    removed(&rt, &rt, "outlive");
}

/// A keeper that couldn't be opened has one record, and each call of it fails.
fn is_refused(rt: &HostRuntime, abort: &impl Abort, path: &str) {
    let mut into = Vec::new(rt.alloc());
    let mut keeper = opened(rt, abort, path, 1);
    fetches(abort, &mut keeper, 1, &mut into, Err(FetchFault::Failed));
    same(abort, keeper.append(b"one"), Err(PutFault::Failed));
    same(abort, keeper.settle(), Err(Failed));
    same(abort, keeper.faults(), 3);
}

/// What is refused, and isn't changed by that.
fn is_left_alone(rt: &HostRuntime, abort: &impl Abort, path: &str) {
    let before = fs::read(rt, path).expect(abort, "the file");
    is_refused(rt, abort, path);
    let after = fs::read(rt, path).expect(abort, "the file");
    assert!(abort; after.as_slice() == before.as_slice());
}

const NOTE: &str = "CREATE TABLE note (title TEXT)";

const LOOSE: &str = "CREATE TABLE records (number INTEGER PRIMARY KEY, bytes BLOB)";

#[test]
fn what_is_no_file_of_records_is_refused_and_left_alone(rt: HostRuntime) {
    folder(&rt, &rt, "refused");
    fs::write(&rt, "refused/text", "number,bytes\n1,one\n").expect(&rt, "a file");
    run(&rt, &rt, "refused/note", &[NOTE]);
    run(&rt, &rt, "refused/loose", &[LOOSE]);
    for path in ["refused/text", "refused/note", "refused/loose"] {
        is_left_alone(&rt, &rt, path);
    }
    for path in ["refused", "refused/none/records"] {
        is_refused(&rt, &rt, path);
    }
    // The keeper that has a file open goes on after another was refused.
    let mut held = opened(&rt, &rt, "refused/held", 0);
    is_refused(&rt, &rt, "refused/held");
    keep(&rt, &mut held, b"one");
    drop(held);
    removed(&rt, &rt, "refused");
}

const EACH_ONCE: &str = "CREATE UNIQUE INDEX each_once ON records (bytes)";

/// A keeper over a file in a new folder that refuses bytes that it has, with one record and after an append that failed.
fn stopped(rt: &HostRuntime, abort: &impl Abort, name: &str, path: &str) -> SqliteKeeper {
    folder(rt, abort, name);
    run(rt, abort, path, &[RECORDS_TABLE, EACH_ONCE]);
    let mut keeper = opened(rt, abort, path, 0);
    keep(abort, &mut keeper, b"one");
    same(abort, keeper.append(b"one"), Err(PutFault::Failed));
    keeper
}

/// What is settled is this, and after so many faults.
fn settles(rt: &impl Abort, keeper: &mut SqliteKeeper, wanted: Result<bool, Failed>, faults: u64) {
    same(rt, keeper.settle(), wanted);
    same(rt, keeper.faults(), faults);
}

const SECOND: &str = "INSERT INTO records (number, bytes) VALUES (2, x'02')";

/// Writes a file of records that has the second one and lacks the first over the bytes of the keeper's own.
fn landed(rt: &HostRuntime, abort: &impl Abort) {
    run(rt, abort, "settled/other", &[RECORDS_TABLE, SECOND]);
    let bytes = fs::read(rt, "settled/other").expect(abort, "the file");
    fs::write(rt, "settled/records", bytes.as_slice()).expect(abort, "a file");
    fs::remove_file(rt, "settled/records-wal").expect(abort, "no log");
}

// The keeper's own file has the record, as after an append that failed after its writing, and lacks the first one.
#[test]
fn settling_finds_what_stands_in_the_file(rt: HostRuntime) {
    let mut into = b"before".to_vec(rt.alloc()).expect(&rt, "room");
    let mut keeper = stopped(&rt, &rt, "settled", "settled/records");
    settles(&rt, &mut keeper, Ok(false), 1);
    settles(&rt, &mut keeper, Ok(false), 1);
    drop(keeper);
    let mut keeper = stopped(&rt, &rt, "settled", "settled/records");
    landed(&rt, &rt);
    let holds = keeper.settle().expect(&rt, "an answer");
    assert!(rt; holds && keeper.len() == 2);
    fetches(&rt, &mut keeper, 1, &mut into, Err(FetchFault::Failed));
    fetches(&rt, &mut keeper, 2, &mut into, Ok(b"\x02"));
    keep(&rt, &mut keeper, b"three");
    drop(keeper);
    removed(&rt, &rt, "settled");
}

// A keeper whose path leads to no file, or to another, is lost: nothing is made there, and nothing is taken from there.
#[test]
fn a_file_in_the_place_of_another_is_not_taken(rt: HostRuntime) {
    let mut keeper = stopped(&rt, &rt, "placed", "placed/records");
    assert!(rt; !keeper.is_lost());
    folder(&rt, &rt, "placed");
    settles(&rt, &mut keeper, Err(Failed), 2);
    assert!(rt; keeper.is_lost() && fs::metadata(&rt, "placed/records").is_err());
    run(&rt, &rt, "placed/records", &[RECORDS_TABLE, SECOND]);
    settles(&rt, &mut keeper, Err(Failed), 3);
    drop(keeper);
    let mut keeper = opened(&rt, &rt, "placed/records", 2);
    same(&rt, keeper.settle(), Ok(false));
    drop(keeper);
    removed(&rt, &rt, "placed");
}
