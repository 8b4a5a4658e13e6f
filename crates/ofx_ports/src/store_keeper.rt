//! Where one text is kept for good.

ghost use Rattle.std.specs.Prelude.{◌≡◌, ℕ, List, [], Option, IfSome, OnOk, OnErr, IsErrOf};
ghost use Rattle.ofx_ports.specs.Faults.{CountsFaults};
ghost use Rattle.ofx_ports.specs.Known.{Stays};
ghost use Rattle.ofx_ports.specs.Saved.{Saved};

use crate::fault::{FetchFault, PutFault};

/// One text of any bytes, which each save replaces as a whole. Before the first save it is empty.
pub trait StoreKeeper: Drop {
    // the text that is there, where it is known
    ghost saved: { Self → Option (List ℕ) };

    // how many of its calls failed
    ghost faults: { Self → ℕ };

    /// Puts this text in place of the one that is stored.
    ///
    /// - `Failed` only where the count of faults rose in this call. The old text or this one is stored, and no mixture of
    ///   them.
    /// - `OutOfMemory`: the old text is stored.
    fn save(&mut self, text: &[u8]) -> Result<(), PutFault>
        ensures text { Saved (saved self.old) (saved self.new) text.now result }
        ensures faults { CountsFaults (faults self.old) (faults self.new) (IsErrOf result PutFault.Failed) };

    /// Puts the text that is there into `into`, in place of what it held.
    ///
    /// - `Failed` only where the count of faults rose in this call.
    /// - `OutOfMemory`.
    ///
    /// After a refusal `into` is empty.
    fn load(&mut self, into: &mut Vec<u8>) -> Result<(), FetchFault>
        ensures found { OnOk result (IfSome (saved self.old) (λ text. into.new.items ≡ text)) }
        ensures refused { OnErr result (into.new.items ≡ []) }
        ensures text { Stays (saved self.old) (saved self.new) }
        ensures faults { CountsFaults (faults self.old) (faults self.new) (IsErrOf result FetchFault.Failed) };

    /// How many calls failed so far. The count stays at 2^64 - 1.
    fn faults(&self) -> u64
        ensures { result ≡ faults self.now };
}
