//! The keeper on a disk.

ghost use Rattle.std.specs.Prelude.{◌≡◌, ℕ, ◌+◌, ◌-◌, ◌<◌, ◌≤◌, ◌⊎◌, false, true, List, [], ◌∷◌, ◌++◌, Some, length, slice_get, is_ok, IfOk, IfSome, OnOk, OnErr, IsErr, IsErrOf, if◌then◌else◌};
ghost use Rattle.ofx_ports.specs.Faults.{CountsFaults};
ghost use Rattle.ofx_ports.specs.Known.{Stays};
ghost use Rattle.ofx_ports.specs.Kept.{Appended, KnowsLanding, counted};
ghost use Rattle.disk_keeper.specs.Disk.{AtMostSynced, LeavesOnly, ReportsOn};
ghost use Rattle.disk_keeper.specs.DiskKeeperView.{records_on, landed_on, acknowledged, Lists, ListsWith, NowLeaves, SettlesWith};

use crate::appending::{Reached, append_record};
use crate::begun::Begun;
use crate::disk::Disk;
use crate::fault::DiskFault;
use crate::reading::{FIRST, Found, Gate, find_end, find_gate, read_gate, read_record};
use ofx_ports::{Failed, FetchFault, Keeper, PutFault};
use std::marker::Model;

/// The gate that was read last where it is before the record of this number, and otherwise the first.
fn gate_before(last: Gate, number: u64) -> Gate
    requires { 1 ≤ number }
    ensures before { result.records < number }
    ensures known { (result ≡ last) ⊎ (result ≡ FIRST) }
{
    if last.records < number { last } else { FIRST }
}

/// The bytes of a file of no records: the mark, and a gate that is shut.
const EMPTY: [u8; 9] = *b"OFXKEEP1\0";

/// Records in one file on a disk.
///
/// A record is on the disk when its append is acknowledged. A crash at any moment, within a write too, leaves the
/// acknowledged records in order, and at most the one whose append was begun.
///
/// ```rust
/// use disk_keeper::{DiskKeeper, MemDisk};
/// use ofx_ports::Keeper;
///
/// let alloc = rt.alloc();
/// // A disk in memory with room for 1,024 bytes.
/// let disk = MemDisk::new(alloc, b"", 1024).expect(&rt, "a disk");
/// let Ok(mut keeper) = DiskKeeper::make(disk) else {
///     panic!(rt; "a keeper");
/// };
/// keeper.append(b"one").expect(&rt, "a record on the disk");
/// // The same records are found by a keeper that opens.
/// let disk = MemDisk::new(alloc, keeper.disk().bytes(), 1024).expect(&rt, "a disk");
/// let Ok(mut keeper) = DiskKeeper::open(disk) else {
///     panic!(rt; "a keeper");
/// };
/// let mut record = Vec::new(alloc);
/// keeper.fetch(1, &mut record).expect(&rt, "the record");
/// assert!(rt; keeper.len() == 1 && record.as_slice() == b"one".as_slice());
/// ```
pub struct DiskKeeper<D: Disk> {
    disk: D,
    // the gate after the last record
    end: Gate,
    // the gate that was read last
    last: Gate,
    begun: Begun,
}

// It is written out, so that a caller does not prove again how each part is dropped.
impl<D: Disk> Drop for DiskKeeper<D> {
    fn drop(self) {
        let DiskKeeper {
            disk: _,
            end: _,
            last: _,
            begun: _,
        } = self;
    }
}

impl<D: Disk> Model for DiskKeeper<D> {
    ghost use Rattle.disk_keeper.specs.DiskKeeperView.{DiskKeeperView, keeper_code};

    ghost Value = { DiskKeeperView D };

    ghost coded = { keeper_code D.code };

    ghost use Rattle.disk_keeper.specs.Keeping.{is_begun, IsSound};

    ghost view = { λ k. record { disk = k.disk; size = k.end.records; unsettled = is_begun k.begun } };

    ghost invariant = { λ k. IsSound (D.history k.disk) (D.extent k.disk) k.end k.last k.begun };
}

impl<D: Disk> DiskKeeper<D> {
    ghost use Rattle.disk_keeper.specs.Opening.{disk_of, DiskFailed, Opens};

    /// A keeper on an empty disk, with no records.
    ///
    /// `Failed` only where the disk's count of faults rose in this call. What a crash in this call leaves is open.
    pub fn make(mut disk: D) -> Result<DiskKeeper<D>, DiskFault<D>>
        requires { D.extent disk ≡ 0 }
        ensures made { IfOk result (λ k. (k.size ≡ 0) × (k.unsettled ≡ false)) }
        ensures opens { IfOk result (λ k. IfSome (D.history k.disk) (λ h. records_on (Some h) ≡ Some [])) }
        ensures leaves { IfOk result (λ k. NowLeaves (Lists []) (D.history k.disk)) }
        ensures reports { IfOk result (λ k. ReportsOn (D.history disk) (D.history k.disk)) }
        ensures faults { CountsFaults (D.faults disk) (D.faults (disk_of result)) (DiskFailed result) }
    {
        let Ok(()) = disk.write_at(0, &EMPTY) else {
            return Err(DiskFault::Failed(disk));
        };
        let Ok(()) = disk.sync() else {
            return Err(DiskFault::Failed(disk));
        };
        Ok(DiskKeeper {
            disk,
            end: FIRST,
            last: FIRST,
            begun: Begun::Nothing,
        })
    }

    /// A keeper on a disk that has a file of records, also one that a crash has left. At most a sync is done to the disk, also
    /// where it is handed back.
    ///
    /// - `Failed` only where the disk's count of faults rose in this call.
    /// - `BadMark` where the first eight bytes aren't the mark.
    /// - `BadRecord` with the number of the first record or gate that passes the end.
    pub fn open(mut disk: D) -> Result<DiskKeeper<D>, DiskFault<D>>
        ensures opened { IfOk result (λ k. k.unsettled ≡ false) }
        ensures moments { AtMostSynced (D.history disk) (D.history (disk_of result)) }
        ensures opens { Opens D.history (D.history disk) result }
        ensures leaves { IfOk result (λ k. NowLeaves (Lists (acknowledged D.history k)) (D.history k.disk)) }
        ensures faults { CountsFaults (D.faults disk) (D.faults (disk_of result)) (DiskFailed result) }
    {
        let Ok(()) = disk.sync() else {
            return Err(DiskFault::Failed(disk));
        };
        let Ok(found) = find_end(&mut disk) else {
            return Err(DiskFault::Failed(disk));
        };
        match found {
            Found::End(end) => Ok(DiskKeeper {
                disk,
                end,
                last: FIRST,
                begun: Begun::Nothing,
            }),
            Found::NoMark => Err(DiskFault::BadMark(disk)),
            Found::Past(number) => Err(DiskFault::BadRecord(disk, number)),
        }
    }

    /// The disk.
    pub fn disk(&self) -> &D
        ensures { result.now ≡ self.now.disk }
    {
        &self.disk
    }
}

impl<D: Disk + Send> Keeper for DiskKeeper<D> {
    ghost records = { λ k. records_on (D.history k.disk) };

    ghost size = { λ k. k.size };

    ghost unsettled = { λ k. k.unsettled };

    ghost landed = { λ k. landed_on k.size (records_on (D.history k.disk)) };

    ghost faults = { λ k. D.faults k.disk };

    fn append(&mut self, rec: &[u8]) -> Result<(), PutFault>
        requires { self.old.unsettled ≡ false }
        ensures list { Appended (records_on (D.history self.old.disk)) (records_on (D.history self.new.disk))
            (landed_on self.new.size (records_on (D.history self.new.disk))) self.new.unsettled rec.now result }
        ensures size { self.new.size ≡ counted self.old.size (is_ok result) }
        ensures faults { CountsFaults (D.faults self.old.disk) (D.faults self.new.disk) (IsErrOf result PutFault.Failed) }

        // It takes no memory, so that each refusal is a fault of the disk that is to be settled.
        ensures no_memory { OnErr result (self.new.unsettled ≡ true) }

        // A crash at any moment of the call leaves the acknowledged records, or these and this one.
        ensures moments { LeavesOnly (ListsWith (acknowledged D.history self.old) rec.now) (D.history self.old.disk) (D.history self.new.disk) }
        ensures leaves { OnOk result (NowLeaves (Lists (acknowledged D.history self.new)) (D.history self.new.disk)) }
        ensures awaits { OnErr result (NowLeaves (ListsWith (acknowledged D.history self.new) rec.now) (D.history self.new.disk)) }
        ensures kept { OnErr result (acknowledged D.history self.new ≡ acknowledged D.history self.old) }
    {
        match append_record(&mut self.disk, self.end.offset, rec) {
            Reached::Acknowledged(next) => {
                self.end = Gate {
                    records: self.end.records + 1,
                    offset: next,
                };
                Ok(())
            }
            Reached::Body => {
                self.begun = Begun::Body;
                Err(PutFault::Failed)
            }
            Reached::Gate(next) => {
                self.begun = Begun::Opening(next);
                Err(PutFault::Failed)
            }
        }
    }

    fn settle(&mut self) -> Result<bool, Failed>
        ensures list { Stays (records_on (D.history self.old.disk)) (records_on (D.history self.new.disk)) }
        ensures answer { IfOk result (KnowsLanding self.old.unsettled (landed_on self.old.size (records_on (D.history self.old.disk)))) }
        ensures settled { OnOk result (self.new.unsettled ≡ false) }
        ensures size { IfOk result (λ holds. self.new.size ≡ counted self.old.size holds) }
        ensures open { OnErr result (self.new.unsettled ≡ self.old.unsettled) }
        ensures kept { OnErr result ((landed_on self.new.size (records_on (D.history self.new.disk)) ≡ landed_on self.old.size (records_on (D.history self.old.disk)))
            × (self.new.size ≡ self.old.size)) }
        ensures faults { CountsFaults (D.faults self.old.disk) (D.faults self.new.disk) (IsErr result) }

        // Where a crash leaves the acknowledged records, or these and the one that was begun, it leaves them at any moment of
        // the call, and after an error. After an answer it leaves the acknowledged ones, with that one where it is.
        ensures moments { (begun : List ℕ) → NowLeaves (ListsWith (acknowledged D.history self.old) begun) (D.history self.old.disk)
            → LeavesOnly (ListsWith (acknowledged D.history self.old) begun) (D.history self.old.disk) (D.history self.new.disk) }
        ensures awaits { OnErr result ((begun : List ℕ) → NowLeaves (ListsWith (acknowledged D.history self.old) begun) (D.history self.old.disk)
            → NowLeaves (ListsWith (acknowledged D.history self.new) begun) (D.history self.new.disk)) }
        ensures leaves { OnOk result (NowLeaves (Lists (acknowledged D.history self.new)) (D.history self.new.disk)) }
        ensures holds { IfOk result (λ holds. (begun : List ℕ) → NowLeaves (ListsWith (acknowledged D.history self.old) begun) (D.history self.old.disk)
            → SettlesWith (acknowledged D.history self.old) begun holds (D.history self.old.disk) (acknowledged D.history self.new)) }
    {
        let Ok(()) = self.disk.sync() else {
            return Err(Failed);
        };
        let Ok(gate) = read_gate(&mut self.disk, self.end.offset) else {
            return Err(Failed);
        };
        match self.begun.opened(gate) {
            Some(next) => {
                self.end = Gate {
                    records: self.end.records + 1,
                    offset: next,
                };
                self.begun = Begun::Nothing;
                Ok(true)
            }
            None => {
                self.begun = Begun::Nothing;
                Ok(false)
            }
        }
    }

    fn fetch(&mut self, number: u64, into: &mut Vec<u8>) -> Result<(), FetchFault>
        requires settled { self.old.unsettled ≡ false }
        requires first { 1 ≤ number }
        requires last { number ≤ self.old.size }
        ensures found { OnOk result (IfSome (records_on (D.history self.old.disk)) (λ rs. slice_get rs (number - 1) ≡ Some into.new.items)) }
        ensures refused { OnErr result (into.new.items ≡ []) }
        ensures list { Stays (records_on (D.history self.old.disk)) (records_on (D.history self.new.disk)) }
        ensures size { self.new.size ≡ self.old.size }
        ensures settled { self.new.unsettled ≡ false }
        ensures faults { CountsFaults (D.faults self.old.disk) (D.faults self.new.disk) (IsErrOf result FetchFault.Failed) }

        // A crash at any moment of the call leaves the acknowledged records.
        ensures moments { LeavesOnly (Lists (acknowledged D.history self.old)) (D.history self.old.disk) (D.history self.new.disk) }
        ensures leaves { NowLeaves (Lists (acknowledged D.history self.new)) (D.history self.new.disk) }
    {
        into.clear();
        let from = gate_before(self.last, number);
        let gate = match find_gate(&mut self.disk, from, number) {
            Ok(gate) => gate,
            Err(fault) => return Err(fault),
        };
        self.last = gate;
        read_record(&mut self.disk, gate.offset, into)
    }

    fn len(&self) -> u64 {
        self.end.records
    }

    fn faults(&self) -> u64 {
        self.disk.faults()
    }
}
