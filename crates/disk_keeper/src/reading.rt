//! Reading a file of records: from gate to gate.

ghost use Rattle.std.specs.Prelude.{◌≡◌, ℕ, ◌+◌, ◌<◌, ◌≤◌, ◌^◌, Some, length, drop, slice_index, true, List, [], IsErr, IsErrOf, IfOk, IfSome, OnOk, OnErr};
ghost use Rattle.ofx_ports.specs.Faults.{CountsFaults};
ghost use Rattle.disk_keeper.specs.Disk.{History, shown};
ghost use Rattle.disk_keeper.specs.File.{has_mark as is_marked, size_of, size_bytes};
ghost use Rattle.disk_keeper.specs.Reading.{IsSize, IsStep, IsFound, IsRecord};
ghost use Rattle.disk_keeper.specs.Passing.{Holds, Passed};
ghost use Rattle.disk_keeper.specs.Bounds.{IsWithin, StepsWithin, FoundWithin};

use crate::disk::Disk;
use ofx_ports::{Failed, FetchFault};

/// The mark at the start of a file of records.
pub const MARK: [u8; 8] = *b"OFXKEEP1";

/// The gate before a record.
pub const OPEN: u8 = 1;

/// The gate after the last record.
pub const SHUT: u8 = 0;

/// The bytes of a gate and a length.
pub const HEAD: u64 = 9;

/// A gate, by the number of records before it and its offset.
#[derive(Clone, Copy)]
pub struct Gate {
    pub records: u64,
    pub offset: u64,
}

/// The first gate, after the mark.
pub const FIRST: Gate = Gate {
    records: 0,
    offset: 8,
};

/// What is at a gate.
#[derive(Clone, Copy)]
pub enum ScanStep {
    /// A record, and the next gate.
    Next(Gate),
    /// The end of the records.
    Last,
    /// A record that passes the end of the file.
    Cut,
}

/// What a file was found to be.
#[derive(Clone, Copy)]
pub enum Found {
    /// Records, and the gate after the last one.
    End(Gate),
    /// The mark is missing.
    NoMark,
    /// The record or gate of this number passes the end of the file.
    Past(u64),
}

/// Reads all gates of a file, from the first one on.
pub fn find_end<D: Disk>(disk: &mut D) -> Result<Found, Failed>
    ensures within { IfOk result (FoundWithin (D.extent disk.new)) }
    ensures known { (h : History) → D.history disk.old ≡ Some h → IfOk result (IsFound (shown h)) }
    ensures history { D.history disk.new ≡ D.history disk.old }
    ensures extent { D.extent disk.new ≡ D.extent disk.old }
    ensures faults { CountsFaults (D.faults disk.old) (D.faults disk.new) (IsErr result) }
{
    if !has_mark(disk)? {
        return Ok(Found::NoMark);
    }
    let size = disk.size();
    let mut gate = FIRST;
    while gate.offset < size {
        match pass(disk, gate)? {
            ScanStep::Next(next) => gate = next,
            ScanStep::Last => return Ok(Found::End(gate)),
            ScanStep::Cut => return Ok(Found::Past(gate.records + 1)),
        }
    }
    Ok(Found::Past(gate.records + 1))
}

/// Whether the first eight bytes are the mark.
fn has_mark<D: Disk>(disk: &mut D) -> Result<bool, Failed>
    ensures long { IfOk result (λ marked. marked ≡ true → 8 ≤ D.extent disk.new) }
    ensures known { (h : History) → D.history disk.old ≡ Some h → IfOk result (λ marked. marked ≡ is_marked (shown h)) }
    ensures history { D.history disk.new ≡ D.history disk.old }
    ensures extent { D.extent disk.new ≡ D.extent disk.old }
    ensures faults { CountsFaults (D.faults disk.old) (D.faults disk.new) (IsErr result) }
{
    if disk.size() < MARK.len() as u64 {
        return Ok(false);
    }
    let mut bytes = [0; 8];
    disk.read_at(0, &mut bytes)?;
    Ok(bytes == MARK)
}

/// Reads what is at a gate.
fn pass<D: Disk>(disk: &mut D, gate: Gate) -> Result<ScanStep, Failed>
    requires within { gate.offset < D.extent disk.old }
    requires few { gate.records + 8 ≤ gate.offset }
    ensures within { IfOk result (StepsWithin gate (D.extent disk.new)) }
    ensures known { (h : History) → D.history disk.old ≡ Some h → IfOk result (IsStep gate (shown h)) }
    ensures history { D.history disk.new ≡ D.history disk.old }
    ensures extent { D.extent disk.new ≡ D.extent disk.old }
    ensures faults { CountsFaults (D.faults disk.old) (D.faults disk.new) (IsErr result) }
{
    if read_gate(disk, gate.offset)? != OPEN {
        return Ok(ScanStep::Last);
    }
    match read_size(disk, gate.offset)? {
        Some(size) => Ok(ScanStep::Next(Gate {
            records: gate.records + 1,
            offset: gate.offset + HEAD + size,
        })),
        None => Ok(ScanStep::Cut),
    }
}

/// Reads the gate at this offset.
pub fn read_gate<D: Disk>(disk: &mut D, offset: u64) -> Result<u8, Failed>
    requires { offset < D.extent disk.old }
    ensures known { (h : History) → D.history disk.old ≡ Some h → IfOk result (λ gate. gate ≡ slice_index (shown h) offset) }
    ensures history { D.history disk.new ≡ D.history disk.old }
    ensures extent { D.extent disk.new ≡ D.extent disk.old }
    ensures faults { CountsFaults (D.faults disk.old) (D.faults disk.new) (IsErr result) }
{
    let mut byte = [0];
    disk.read_at(offset, &mut byte)?;
    Ok(byte[0])
}

/// Reads the length of the record after the gate at this offset. None where the record passes the end of the file.
pub fn read_size<D: Disk>(disk: &mut D, offset: u64) -> Result<Option<u64>, Failed>
    requires { offset ≤ D.extent disk.old }
    ensures within { IfOk result (λ found. IfSome found (λ size. (offset + 9 + size ≤ D.extent disk.new) × (D.extent disk.new < 2 ^ 63))) }
    ensures known { (h : History) → D.history disk.old ≡ Some h → offset < length (shown h)
        → IfOk result (IsSize (drop (offset + 1) (shown h))) }
    ensures history { D.history disk.new ≡ D.history disk.old }
    ensures extent { D.extent disk.new ≡ D.extent disk.old }
    ensures faults { CountsFaults (D.faults disk.old) (D.faults disk.new) (IsErr result) }
{
    let left = disk.size() - offset;
    if left < HEAD {
        return Ok(None);
    }
    let mut bytes = [0; 8];
    disk.read_at(offset + 1, &mut bytes)?;
    let size = size_in(&bytes);
    if size > left - HEAD {
        return Ok(None);
    }
    Ok(Some(size))
}

/// The gate before the record of this number, by the lengths of those after a gate before it. `OutOfMemory` where a record
/// would pass the end, which no file of known history has.
pub fn find_gate<D: Disk>(disk: &mut D, from: Gate, number: u64) -> Result<Gate, FetchFault>
    requires within { from.offset ≤ D.extent disk.old }
    requires before { from.records < number }
    ensures within { IfOk result (λ gate. (gate.offset ≤ D.extent disk.new) × (gate.records + 1 ≡ number)) }
    ensures known { (h : History) (rs : List (List ℕ)) → D.history disk.old ≡ Some h → Holds rs (shown h) → Passed rs from
        → number ≤ length rs → IfOk result (Passed rs) }
    ensures history { D.history disk.new ≡ D.history disk.old }
    ensures extent { D.extent disk.new ≡ D.extent disk.old }
    ensures faults { CountsFaults (D.faults disk.old) (D.faults disk.new) (IsErrOf result FetchFault.Failed) }
{
    let mut gate = from;
    while gate.records + 1 < number {
        let size = whole_size(disk, gate.offset)?;
        gate = Gate {
            records: gate.records + 1,
            offset: gate.offset + HEAD + size,
        };
    }
    Ok(gate)
}

/// Reads the record after the gate at this offset into an empty buffer. A refusal leaves it empty.
pub fn read_record<D: Disk>(disk: &mut D, offset: u64, into: &mut Vec<u8>) -> Result<(), FetchFault>
    requires within { offset ≤ D.extent disk.old }
    requires empty { into.old.items ≡ [] }
    ensures found { (h : History) → D.history disk.old ≡ Some h → offset < length (shown h)
        → OnOk result (IsRecord (drop (offset + 1) (shown h)) into.new.items) }
    ensures refused { OnErr result (into.new.items ≡ []) }
    ensures history { D.history disk.new ≡ D.history disk.old }
    ensures extent { D.extent disk.new ≡ D.extent disk.old }
    ensures faults { CountsFaults (D.faults disk.old) (D.faults disk.new) (IsErrOf result FetchFault.Failed) }
{
    let size = whole_size(disk, offset)?;
    let Ok(()) = into.resize(size as usize, 0) else {
        return Err(FetchFault::OutOfMemory);
    };
    let Ok(()) = disk.read_at(offset + HEAD, into) else {
        into.clear();
        return Err(FetchFault::Failed);
    };
    Ok(())
}

/// Reads the length of the record after the gate at this offset. `OutOfMemory` where the record would pass the end.
fn whole_size<D: Disk>(disk: &mut D, offset: u64) -> Result<u64, FetchFault>
    requires { offset ≤ D.extent disk.old }
    ensures within { IfOk result (λ size. (offset + 9 + size ≤ D.extent disk.new) × (D.extent disk.new < 2 ^ 63)) }
    ensures known { (h : History) → D.history disk.old ≡ Some h → offset < length (shown h)
        → IfOk result (λ size. IsSize (drop (offset + 1) (shown h)) (Some size)) }
    ensures history { D.history disk.new ≡ D.history disk.old }
    ensures extent { D.extent disk.new ≡ D.extent disk.old }
    ensures faults { CountsFaults (D.faults disk.old) (D.faults disk.new) (IsErrOf result FetchFault.Failed) }
{
    let Ok(found) = read_size(disk, offset) else {
        return Err(FetchFault::Failed);
    };
    match found {
        Some(size) => Ok(size),
        None => Err(FetchFault::OutOfMemory),
    }
}

/// The length that eight bytes stand for, the most significant first.
fn size_in(bytes: &[u8; 8]) -> u64
    ensures value { result ≡ size_of bytes.now }
    ensures again { size_bytes result ≡ bytes.now }
{
    u64::from_be_bytes(*bytes)
}
