//! Where links come in.

ghost use Rattle.std.specs.Prelude.{◌≡◌, ℕ, List, [], ◌∷◌, Option, None, Ok, IfOk, IsErr, IsSome};
ghost use Rattle.ofx_ports.specs.Faults.{CountsFaults};
ghost use Rattle.ofx_ports.specs.Known.{Stays, Grows};
ghost use Rattle.ofx_ports.specs.Doors.{given_by, HasOneOut};

use crate::fault::Failed;
use crate::link::Link;

/// Gives links to those who wait for one, and takes them back. Each worker has a doorway of its own, which goes with it
/// to its thread.
pub trait Doorway<L: Link>: Drop + Send {
    // the links that it gave, as they were then, in order, where they are known
    ghost given: { Self → Option (List L) };

    // the links that it took back, in order, where they are known
    ghost back: { Self → Option (List L) };

    // how many of its calls failed
    ghost faults: { Self → ℕ };

    // how often it answered that it is closed
    ghost closings: { Self → ℕ };

    /// The next link, or none where the doorway is closed.
    ///
    /// - `Failed` comes only where the count of faults rose in this call.
    /// - `None` comes only where the count of closings rose in this call.
    ///
    /// Where the links are known, fewer came back than were given once a link is given, so that it can come back.
    fn accept(&mut self) -> Result<Option<L>, Failed>
        ensures given { Grows (given self.old) (given self.new) (given_by result) }
        ensures back { Stays (back self.old) (back self.new) }
        ensures faults { CountsFaults (faults self.old) (faults self.new) (IsErr result) }
        ensures closings { CountsFaults (closings self.old) (closings self.new) (result ≡ Ok None) }
        ensures one_out { IfOk result (λ found. IsSome found → HasOneOut (given self.new) (back self.new)) };

    /// Takes a link back whose connection has ended. Where the links are known, fewer came back than were given.
    fn ended(&mut self, link: L)
        requires { HasOneOut (given self.old) (back self.old) }
        ensures given { Stays (given self.old) (given self.new) }
        ensures back { Grows (back self.old) (back self.new) (link ∷ []) }
        ensures faults { faults self.new ≡ faults self.old }
        ensures closings { closings self.new ≡ closings self.old };
}
