//! A keeper over a file of records.

ghost use Rattle.std.specs.Prelude.{◌≡◌, ◌^◌, ◌<◌, ◌≤◌, false, [], Some, None, is_ok, is_err, if◌then◌else◌, IsSome, IsErr, IsErrOf, IfOk, IfSome, OnOk, OnErr};
ghost use Rattle.ofx_ports.specs.Calls.{one_more};
ghost use Rattle.ofx_ports.specs.Faults.{CountsFaults, Rose};
ghost use Rattle.ofx_ports.specs.Kept.{Appended, KnowsLanding, counted, put_failed, fetch_failed};
ghost use Rattle.sqlite_keeper.specs.SqliteKeeperView.{put_fault, fetch_fault};

use crate::file::RecordFile;
use crate::named::Named;
use crate::refusal::Refusal;
use ofx_ports::{Failed, FetchFault, Keeper, PutFault};
use sqlite::{File, Files};
use std::marker::Model;

/// The records in a file, one row of its table `records` for each, numbered from 1. There are taken to be as many as the greatest
/// number says, and one that is missing fails where it is fetched. No other program can open the file meanwhile.
///
/// A record is on the disk when its append is acknowledged. A keeper over a file that couldn't be opened has one
/// record and refuses every call, so that whoever goes over the records meets the fault at the first.
///
/// After a sync that failed the file is lost, and each later append and settling fails: the system may have dropped what was
/// written, and report no further error. So it is where its path doesn't lead to it any more.
///
/// ```rust
/// use ofx_ports::Keeper;
/// use sqlite_keeper::SqliteKeeper;
///
/// let mut keeper = SqliteKeeper::open(&rt, "records.db");
/// keeper.append(b"one").expect(&rt, "a record on the disk");
/// drop(keeper);
/// // The records outlive their keeper.
/// let mut keeper = SqliteKeeper::open(&rt, "records.db");
/// let mut record = Vec::new(rt.alloc());
/// keeper.fetch(1, &mut record).expect(&rt, "the record");
/// assert!(rt; keeper.len() == 1 && record.as_slice() == b"one".as_slice());
/// ```
pub struct SqliteKeeper {
    rt: HostRuntime,
    path: String,
    // None where it was never opened, or was given up in settling and could not be opened again.
    file: Option<RecordFile>,
    // Which file of the machine it is.
    named: Named,
    // The files after an append that failed, locked until it is settled.
    aside: Option<Files<File>>,
    is_lost: bool,
    // Why it was never opened.
    refusal: Option<Refusal>,
    count: u64,
    is_unsettled: bool,
    faults: u64,
}

impl Model for SqliteKeeper {
    ghost use Rattle.std.specs.Prelude.{◌≡◌, IsSome};
    ghost use Rattle.sqlite_keeper.specs.SqliteKeeperView.{SqliteKeeperView};

    ghost Value = { SqliteKeeperView };

    ghost view = { λ k. record {
      size = k.count;
      unsettled = k.is_unsettled;
      faults = k.faults;
      refusal = k.refusal;
    } };

    ghost invariant = { λ k. IsSome k.refusal → k.count ≡ 1 };
}

// Copies what waits in the log into the file, where that can be done. A log that stays is no loss: it holds the
// records, and is read with the file.
impl Drop for SqliteKeeper {
    fn drop(self) {
        let SqliteKeeper {
            rt: _,
            path: _,
            file,
            named: _,
            aside: _,
            is_lost: _,
            refusal: _,
            count: _,
            is_unsettled: _,
            faults: _,
        } = self;
        if let Some(file) = file {
            file.close();
        }
    }
}

// A file at a path, opened, with the number of its records.
struct Opened {
    path: String,
    file: RecordFile,
    named: Named,
    count: u64,
}

impl Opened {
    fn at(rt: &HostRuntime, path: &str) -> Result<Opened, Refusal> {
        let path = String::from_str(rt.alloc(), path)?;
        let (file, count) = RecordFile::open(rt, path.as_str())?;
        let named = Named::at(rt, path.as_str());
        Ok(Opened {
            path,
            file,
            named,
            count,
        })
    }
}

impl SqliteKeeper {
    /// A keeper over the file at this path. One that isn't there, or is empty, is made with no records.
    ///
    /// What can't be opened is refused: a file that is no database or is damaged, a database of another program, a
    /// folder, a file that may not be written or that another program has open. The file is left as it was. A short
    /// log may be left beside it.
    pub fn open(rt: &HostRuntime, path: &str) -> SqliteKeeper
        ensures settled { result.unsettled ≡ false }
        ensures faults { result.faults ≡ 0 }
        ensures unopened { IsSome result.refusal → result.size ≡ 1 }
    {
        match Opened::at(rt, path) {
            Ok(
                Opened {
                    path,
                    file,
                    named,
                    count,
                },
            ) => SqliteKeeper {
                rt: *rt,
                path,
                file: Some(file),
                named,
                aside: None,
                is_lost: false,
                refusal: None,
                count,
                is_unsettled: false,
                faults: 0,
            },
            Err(refusal) => SqliteKeeper::refused(*rt, refusal),
        }
    }

    // A keeper whose calls are all refused.
    fn refused(rt: HostRuntime, refusal: Refusal) -> SqliteKeeper
        ensures { result ≡ record { size = 1; unsettled = false; faults = 0; refusal = Some refusal } }
    {
        SqliteKeeper {
            rt,
            path: String::new(rt.alloc()),
            file: None,
            named: Named::NOTHING,
            aside: None,
            is_lost: false,
            refusal: Some(refusal),
            count: 1,
            is_unsettled: false,
            faults: 0,
        }
    }

    /// Whether a sync of it failed, or its path didn't lead to it any more where a record was to be written.
    pub fn is_lost(&self) -> bool {
        self.is_lost
    }

    // Whether its path leads to another file, or to none. From then on it is lost.
    fn has_lost_name(&mut self) -> bool
        ensures { self.new ≡ self.old }
    {
        if !self.named.is_at(&self.rt, self.path.as_str()) {
            self.is_lost = true;
        }
        self.is_lost
    }

    // Takes the file apart after an append that failed, since what an error left of it tells nothing. It stays locked. It is lost
    // where a sync failed.
    fn set_aside(&mut self)
        ensures { self.new ≡ self.old }
    {
        if let Some(file) = self.file.take() {
            let files = file.into_files();
            if !files.may_be_used() {
                self.is_lost = true;
            }
            self.aside = Some(files);
        }
    }

    // Writes a record after the others.
    fn write(&mut self, bytes: &[u8]) -> Result<(), Refusal>
        ensures same { self.new ≡ self.old }
        ensures room { OnOk result (self.old.size < 2 ^ 63) }
        ensures unopened { IfSome self.old.refusal (λ why. result ≡ Err why) }
    {
        if let Some(why) = self.refusal {
            return Err(why);
        }
        if self.has_lost_name() {
            return Err(Refusal::Failed);
        }
        let Some(file) = &mut self.file else {
            return Err(Refusal::Failed);
        };
        if self.count >= i64::MAX as u64 {
            return Err(Refusal::Failed);
        }
        file.append(self.count as i64 + 1, bytes)
    }

    // Reads the record of this number into an empty buffer.
    fn read(&mut self, number: u64, into: &mut Vec<u8>) -> Result<(), Refusal>
        ensures same { self.new ≡ self.old }
        ensures kept { OnErr result (into.new.items ≡ into.old.items) }
        ensures unopened { IfSome self.old.refusal (λ why. result ≡ Err why) }
    {
        if let Some(why) = self.refusal {
            return Err(why);
        }
        let Some(file) = &mut self.file else {
            return Err(Refusal::Failed);
        };
        match i64::try_from(number) {
            Ok(number) => file.fetch(number, into),
            Err(_) => Err(Refusal::Failed),
        }
    }

    // Whether the record after the others is in the file.
    fn has_landed(&mut self) -> Result<bool, Refusal>
        ensures same { self.new ≡ self.old }
        ensures room { IfOk result (λ holds. counted self.old.size holds < 2 ^ 63) }
        ensures unopened { IfSome self.old.refusal (λ why. result ≡ Err why) }
    {
        if let Some(why) = self.refusal {
            return Err(why);
        }
        if self.has_lost_name() {
            return Err(Refusal::Failed);
        }
        let greatest = self.reopen()?;
        is_one_more(self.count, greatest)
    }

    // Opens the file anew. The answer is the greatest number in it.
    fn reopen(&mut self) -> Result<u64, Refusal>
        ensures { self.new ≡ self.old }
    {
        self.file = None;
        self.aside = None;
        let (file, greatest) = RecordFile::reopen(&self.rt, self.path.as_str())?;
        self.file = Some(file);
        Ok(greatest)
    }

    fn count_fault(&mut self)
        ensures counted { self.new ≡ record self.old { faults = one_more self.old.faults } }
        ensures later { self.old.faults ≤ self.new.faults }
        ensures rose { Rose self.old.faults self.new.faults }
    {
        self.faults = self.faults.saturating_add(1);
    }
}

// Whether a file whose greatest number is this one has a record more than so many. It has neither fewer nor two more.
fn is_one_more(count: u64, greatest: u64) -> Result<bool, Refusal>
    ensures { IfOk result (λ holds. (greatest ≡ counted count holds) × (greatest < 2 ^ 63)) }
{
    if greatest > i64::MAX as u64 {
        return Err(Refusal::Failed);
    }
    if greatest == count {
        return Ok(false);
    }
    if greatest > 0 && greatest - 1 == count {
        return Ok(true);
    }
    Err(Refusal::Failed)
}

impl Keeper for SqliteKeeper {
    ghost records = { λ _. None };

    ghost size = { λ k. k.size };

    ghost unsettled = { λ k. k.unsettled };

    ghost landed = { λ _. None };

    ghost faults = { λ k. k.faults };

    fn append(&mut self, rec: &[u8]) -> Result<(), PutFault>
        requires { self.old.unsettled ≡ false }
        ensures list { Appended None None None self.new.unsettled rec.now result }
        ensures size { self.new.size ≡ counted self.old.size (is_ok result) }
        ensures faults { CountsFaults self.old.faults self.new.faults (IsErrOf result PutFault.Failed) }

        // The count rises at a fault alone. A keeper over a file that couldn't be opened refuses for that cause.
        ensures counted { self.new.faults ≡ (if put_failed result then one_more self.old.faults else self.old.faults) }
        ensures unopened { IfSome self.old.refusal (λ why. result ≡ Err (put_fault why)) }
        ensures refusal { self.new.refusal ≡ self.old.refusal }
    {
        match self.write(rec) {
            Ok(()) => {
                self.count += 1;
                Ok(())
            }
            Err(Refusal::OutOfMemory) => Err(PutFault::OutOfMemory),
            Err(Refusal::Failed) => {
                self.set_aside();
                self.count_fault();
                self.is_unsettled = true;
                Err(PutFault::Failed)
            }
        }
    }

    fn settle(&mut self) -> Result<bool, Failed>
        ensures answer { IfOk result (KnowsLanding self.old.unsettled None) }
        ensures settled { OnOk result (self.new.unsettled ≡ false) }
        ensures size { IfOk result (λ holds. self.new.size ≡ counted self.old.size holds) }
        ensures open { OnErr result (self.new.unsettled ≡ self.old.unsettled) }
        ensures kept { OnErr result (self.new.size ≡ self.old.size) }
        ensures faults { CountsFaults self.old.faults self.new.faults (IsErr result) }

        // The count rises at a fault alone. A keeper over a file that couldn't be opened fails.
        ensures counted { self.new.faults ≡ (if is_err result then one_more self.old.faults else self.old.faults) }
        ensures unopened { IsSome self.old.refusal → IsErr result }
        ensures refusal { self.new.refusal ≡ self.old.refusal }
    {
        if !self.is_unsettled && self.refusal.is_none() {
            return Ok(false);
        }
        match self.has_landed() {
            Ok(holds) => {
                if holds {
                    self.count += 1;
                }
                self.is_unsettled = false;
                Ok(holds)
            }
            Err(_) => {
                self.count_fault();
                Err(Failed)
            }
        }
    }

    fn fetch(&mut self, number: u64, into: &mut Vec<u8>) -> Result<(), FetchFault>
        requires settled { self.old.unsettled ≡ false }
        requires first { 1 ≤ number }
        requires last { number ≤ self.old.size }
        ensures refused { OnErr result (into.new.items ≡ []) }
        ensures size { self.new.size ≡ self.old.size }
        ensures settled { self.new.unsettled ≡ false }
        ensures faults { CountsFaults self.old.faults self.new.faults (IsErrOf result FetchFault.Failed) }

        // The count rises at a fault alone. A keeper over a file that couldn't be opened refuses for that cause.
        ensures counted { self.new.faults ≡ (if fetch_failed result then one_more self.old.faults else self.old.faults) }
        ensures unopened { IfSome self.old.refusal (λ why. result ≡ Err (fetch_fault why)) }
        ensures refusal { self.new.refusal ≡ self.old.refusal }
    {
        into.clear();
        match self.read(number, into) {
            Ok(()) => Ok(()),
            Err(Refusal::OutOfMemory) => Err(FetchFault::OutOfMemory),
            Err(Refusal::Failed) => {
                self.count_fault();
                Err(FetchFault::Failed)
            }
        }
    }

    fn len(&self) -> u64
        requires { self.now.unsettled ≡ false }
        ensures size { result ≡ self.now.size }
        ensures unopened { IsSome self.now.refusal → result ≡ 1 }
    {
        self.count
    }

    fn faults(&self) -> u64 {
        self.faults
    }
}
