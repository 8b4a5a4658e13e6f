//! A link to one peer: bytes come from it, and bytes go to it.

ghost use Rattle.std.specs.Prelude.{◌≡◌, ℕ, ◌<◌, ◌≤◌, List, Option, length, IfOk, IsErr};
ghost use Rattle.std.specs.Io.KnownBytes.{Keeps, ReadConsumes, WriteAppends};
ghost use Rattle.ofx_ports.specs.Faults.{CountsFaults};

use crate::fault::Failed;

/// A source and a sink in one, as a connection. It has one count of faults for its reads and one for its writes, and
/// what one of the two does leaves what is known of the other as it is.
pub trait Link: Drop + Send {
    // the bytes that reads will give from here on, where they are known
    ghost left: { Self → Option (List ℕ) };

    // the bytes written so far, where they are known
    ghost held: { Self → Option (List ℕ) };

    // how many of its reads failed
    ghost read_faults: { Self → ℕ };

    // how many of its writes failed
    ghost write_faults: { Self → ℕ };

    /// Reads the next bytes to the start of `into` and answers how many they are: at least one, or 0 where the peer
    /// has ended the link. What `into` holds after them is open.
    ///
    /// `Failed` comes only where the count of reads' faults rose in this call, and no byte is lost by it.
    fn read(&mut self, into: &mut [u8]) -> Result<usize, Failed>
        requires { 0 < length into.old }
        ensures count { IfOk result (λ n. n ≤ length into.new) }
        ensures bytes { ReadConsumes (left self.old) (left self.new) result into.new }
        ensures faults { CountsFaults (read_faults self.old) (read_faults self.new) (IsErr result) }
        ensures unwritten { Keeps (held self.old) (held self.new) }
        ensures writes { write_faults self.new ≡ write_faults self.old };

    /// Writes the first of these bytes and answers how many it took, which is at least one.
    ///
    /// `Failed` comes only where the count of writes' faults rose in this call. Where the bytes written are known, none
    /// was taken then.
    fn write(&mut self, bytes: &[u8]) -> Result<usize, Failed>
        requires { 0 < length bytes.now }
        ensures count { IfOk result (λ n. (0 < n) × (n ≤ length bytes.now)) }
        ensures bytes { WriteAppends (held self.old) (held self.new) result bytes.now }
        ensures faults { CountsFaults (write_faults self.old) (write_faults self.new) (IsErr result) }
        ensures unread { Keeps (left self.old) (left self.new) }
        ensures reads { read_faults self.new ≡ read_faults self.old };
}
