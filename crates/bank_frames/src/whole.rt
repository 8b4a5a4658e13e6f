//! A source read whole.

ghost use Rattle.std.specs.Prelude.{◌≤◌, length, OnOk, IsErr};
ghost use Rattle.std.specs.Io.KnownBytes.{Keeps, IsAtEnd, prepend_known};
ghost use Rattle.ofx_ports.specs.Faults.{CountsFaults};

use crate::ahead::Ahead;
use ofx_ports::{Failed, Source};

/// The most bytes of a source that is read whole: a setup, or the body of a letter.
pub const MAX_INPUT: usize = 262_144;

/// Reads on until the source is at its end, or more bytes are ahead than it may have.
pub fn read_whole<S: Source>(source: &mut S, ahead: &mut Ahead) -> Result<(), Failed>
    ensures kept { Keeps (prepend_known ahead.old (S.left source.old)) (prepend_known ahead.new (S.left source.new)) }
    ensures whole { OnOk result (length ahead.new ≤ 262144 → IsAtEnd (S.left source.new)) }
    ensures faults { CountsFaults (S.faults source.old) (S.faults source.new) (IsErr result) }
{
    while ahead.bytes().len() <= MAX_INPUT {
        if ahead.read_more(source)? == 0 {
            return Ok(());
        }
    }
    Ok(())
}
