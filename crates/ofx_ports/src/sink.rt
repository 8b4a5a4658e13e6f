//! Where bytes go.

ghost use Rattle.std.specs.Prelude.{ℕ, ◌<◌, ◌≤◌, List, Option, length, IfOk, IsErr};
ghost use Rattle.std.specs.Io.KnownBytes.{WriteAppends};
ghost use Rattle.ofx_ports.specs.Faults.{CountsFaults};

use crate::fault::Failed;

/// Bytes that are written in order, as a file or the output of a program.
pub trait Sink {
    // the bytes written so far, where they are known
    ghost held: { Self → Option (List ℕ) };

    // how many of its calls failed
    ghost faults: { Self → ℕ };

    /// Writes the first of these bytes and answers how many it took, which is at least one.
    ///
    /// `Failed` comes only where the count of faults rose in this call. Where the bytes written are known, none was
    /// taken then.
    fn write(&mut self, bytes: &[u8]) -> Result<usize, Failed>
        requires { 0 < length bytes.now }
        ensures count { IfOk result (λ n. (0 < n) × (n ≤ length bytes.now)) }
        ensures bytes { WriteAppends (held self.old) (held self.new) result bytes.now }
        ensures faults { CountsFaults (faults self.old) (faults self.new) (IsErr result) };
}
