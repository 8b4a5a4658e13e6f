//! Where bytes come from.

ghost use Rattle.std.specs.Prelude.{ℕ, ◌<◌, ◌≤◌, List, Option, length, IfOk, IsErr};
ghost use Rattle.std.specs.Io.KnownBytes.{ReadConsumes};
ghost use Rattle.ofx_ports.specs.Faults.{CountsFaults};

use crate::fault::Failed;

/// Bytes that are read in order, as a file or the input of a program.
pub trait Source {
    // the bytes that reads will give from here on, where they are known
    ghost left: { Self → Option (List ℕ) };

    // how many of its calls failed
    ghost faults: { Self → ℕ };

    /// Reads the next bytes to the start of `into` and answers how many they are: at least one, or 0 at the end of
    /// the input. What `into` holds after them is open.
    ///
    /// `Failed` comes only where the count of faults rose in this call, and no byte is lost by it.
    fn read(&mut self, into: &mut [u8]) -> Result<usize, Failed>
        requires { 0 < length into.old }
        ensures count { IfOk result (λ n. n ≤ length into.new) }
        ensures bytes { ReadConsumes (left self.old) (left self.new) result into.new }
        ensures faults { CountsFaults (faults self.old) (faults self.new) (IsErr result) };
}
