//! One append, as writes and syncs of the disk: the body after the gate, and then the gate.

ghost use Rattle.std.specs.Prelude.{◌≡◌, ℕ, ◌+◌, ◌<◌, ◌≤◌, ◌^◌, List, Some, None, length, IsErr, IfOk, OnOk};
ghost use Rattle.ofx_ports.specs.Faults.{CountsFaults};
ghost use Rattle.disk_keeper.specs.Disk.{History, overlaid, shown};
ghost use Rattle.disk_keeper.specs.Layout.{IsFile};
ghost use Rattle.disk_keeper.specs.Appending.{WritesAfter, HasImage, HasBody, IsSettled, Appends, IsNext, HasNext, Stopped};

use crate::disk::Disk;
use crate::reading::{HEAD, OPEN, SHUT};
use ofx_ports::Failed;

/// How far an append came.
#[derive(Clone, Copy, Drop)]
pub enum Reached {
    /// The record is kept, and the gate after it is at this offset.
    Acknowledged(u64),
    /// The body failed, or its sync.
    Body,
    /// The gate failed, or its sync. The gate after the record is at this offset.
    Gate(u64),
}

/// Appends a record after the gate at this offset, which isn't open.
///
/// The body is on the disk before the gate is opened, so that a whole record follows a gate that is torn open.
pub fn append_record<D: Disk>(disk: &mut D, gate: u64, bytes: &[u8]) -> Reached
    requires within { gate < D.extent disk.old }
    requires most { gate < 2 ^ 63 }
    ensures next { HasNext gate bytes.now (D.extent disk.new) result }
    ensures no_shorter { D.extent disk.old ≤ D.extent disk.new }
    ensures faults { CountsFaults (D.faults disk.old) (D.faults disk.new) (Stopped result) }
    ensures quiet { D.history disk.old ≡ None → D.history disk.new ≡ None }
    ensures known { (h : History) (rs : List (List ℕ)) → D.history disk.old ≡ Some h → IsFile rs gate (shown h) → IsSettled h
        → Appends rs gate bytes.now result h (D.history disk.new) }
{
    let Ok(next) = write_body(disk, gate, bytes) else {
        return Reached::Body;
    };
    let Ok(()) = disk.sync() else {
        return Reached::Body;
    };
    let Ok(()) = disk.write_at(gate, &[OPEN]) else {
        return Reached::Gate(next);
    };
    let Ok(()) = disk.sync() else {
        return Reached::Gate(next);
    };
    Reached::Acknowledged(next)
}

/// Writes the length of a record, its bytes and a gate that is shut after the gate at this offset. The answer is the
/// offset of the new gate.
fn write_body<D: Disk>(disk: &mut D, gate: u64, bytes: &[u8]) -> Result<u64, Failed>
    requires within { gate < D.extent disk.old }
    requires most { gate < 2 ^ 63 }
    ensures next { IfOk result (λ next. IsNext gate bytes.now next (D.extent disk.new)) }
    ensures no_shorter { D.extent disk.old ≤ D.extent disk.new }
    ensures faults { CountsFaults (D.faults disk.old) (D.faults disk.new) (IsErr result) }
    ensures quiet { D.history disk.old ≡ None → D.history disk.new ≡ None }
    ensures suffix { (h : History) → D.history disk.old ≡ Some h → WritesAfter (gate + 1) h (D.history disk.new) }
    ensures written { OnOk result ((h : History) → D.history disk.old ≡ Some h → gate < length (shown h)
        → HasBody gate bytes.now (shown h) (D.history disk.new)) }
{
    let size = (bytes.len() as u64).to_be_bytes();
    write_some(disk, gate + 1, &size)?;
    let start = gate + HEAD;
    write_some(disk, start, bytes)?;
    let next = start + bytes.len() as u64;
    disk.write_at(next, &[SHUT])?;
    Ok(next)
}

/// Writes bytes at an offset. Of none there is nothing to write.
fn write_some<D: Disk>(disk: &mut D, at: u64, bytes: &[u8]) -> Result<(), Failed>
    requires offset { at ≤ D.extent disk.old }
    requires most { at ≤ 2 ^ 63 }
    ensures within { OnOk result (at + length bytes.now ≤ D.extent disk.new) }
    ensures most { OnOk result (at + length bytes.now ≤ 2 ^ 63) }
    ensures no_shorter { D.extent disk.old ≤ D.extent disk.new }
    ensures faults { CountsFaults (D.faults disk.old) (D.faults disk.new) (IsErr result) }
    ensures quiet { D.history disk.old ≡ None → D.history disk.new ≡ None }
    ensures suffix { (h : History) → D.history disk.old ≡ Some h → WritesAfter at h (D.history disk.new) }
    ensures written { OnOk result ((h : History) → D.history disk.old ≡ Some h → at ≤ length (shown h)
        → HasImage (D.history disk.new) (overlaid (shown h) at bytes.now)) }
{
    if bytes.is_empty() {
        return Ok(());
    }
    disk.write_at(at, bytes)
}
