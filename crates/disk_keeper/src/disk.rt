//! A disk, as the keeper sees it: one file that is read and written at any offset, and synced.

ghost use Rattle.std.specs.Prelude.{◌≡◌, ℕ, ◌+◌, ◌^◌, ◌<◌, ◌≤◌, max, [], ◌∷◌, Option, None, length, IsErr, OnOk, OnErr};
ghost use Rattle.ofx_ports.specs.Faults.{CountsFaults};
ghost use Rattle.disk_keeper.specs.Disk.{History, GoesOn, Breaks, Shows, HasSize, write_of};
ghost use Rattle.disk_keeper.specs.declared.change.Change.TheVariants.{Sync};

use ofx_ports::Failed;

/// Bytes on a disk, up to 2^63 - 1 of them.
///
/// A write shows in reads at once. Until a sync, a crash may leave any bytes in its range. A sync that fails changes
/// nothing of what reads show.
pub trait Disk: Drop {
    // what was found on it and what was done to it since, where this is known
    ghost history: { Self → Option History };

    // the number of its bytes
    ghost extent: { Self → ℕ };

    // how many of its calls failed
    ghost faults: { Self → ℕ };

    /// The number of its bytes.
    fn size(&self) -> u64
        ensures size { result ≡ extent self.now }
        ensures most { result < 2 ^ 63 }
        ensures known { HasSize (history self.now) (extent self.now) };

    /// Fills `into` with the bytes from an offset on.
    ///
    /// `Failed` only where the count of faults rose in this call.
    fn read_at(&mut self, at: u64, into: &mut [u8]) -> Result<(), Failed>
        requires { at + length into.old ≤ extent self.old }
        ensures shown { OnOk result (Shows (history self.old) at into.new) }
        ensures known { HasSize (history self.old) (extent self.old) }
        ensures history { history self.new ≡ history self.old }
        ensures extent { extent self.new ≡ extent self.old }
        ensures faults { CountsFaults (faults self.old) (faults self.new) (IsErr result) };

    /// Writes bytes from an offset on, over those that are there and past the end.
    ///
    /// `Failed` only where the count of faults rose in this call. A write past 2^63 - 1 bytes fails.
    fn write_at(&mut self, at: u64, bytes: &[u8]) -> Result<(), Failed>
        requires offset { at ≤ extent self.old }
        requires some { 0 < length bytes.now }
        ensures written { OnOk result (GoesOn (history self.old) (history self.new) (write_of at bytes.now ∷ [])) }
        ensures broken { OnErr result (Breaks at (length bytes.now) (history self.old) (history self.new)) }
        ensures quiet { history self.old ≡ None → history self.new ≡ None }
        ensures known { HasSize (history self.old) (extent self.old) }
        ensures extent { OnOk result (extent self.new ≡ max (extent self.old) (at + length bytes.now)) }
        ensures no_shorter { extent self.old ≤ extent self.new }
        ensures most { OnOk result (at + length bytes.now < 2 ^ 63) }
        ensures faults { CountsFaults (faults self.old) (faults self.new) (IsErr result) };

    /// Puts all that was written on the disk, so that a crash leaves what reads show.
    ///
    /// `Failed` only where the count of faults rose in this call.
    fn sync(&mut self) -> Result<(), Failed>
        ensures synced { OnOk result (GoesOn (history self.old) (history self.new) (Sync ∷ [])) }
        ensures refused { OnErr result (history self.new ≡ history self.old) }
        ensures quiet { history self.old ≡ None → history self.new ≡ None }
        ensures extent { extent self.new ≡ extent self.old }
        ensures faults { CountsFaults (faults self.old) (faults self.new) (IsErr result) };

    /// How many calls failed so far. The count stays at 2^64 - 1.
    fn faults(&self) -> u64
        ensures { result ≡ faults self.now };
}
