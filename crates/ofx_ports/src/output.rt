//! Bytes written whole.

ghost use Rattle.std.specs.Prelude.{◌≡◌, ℕ, ◌≤◌, length, take, OnOk, OnErr, IsErr};
ghost use Rattle.std.specs.Io.KnownBytes.{Appends};
ghost use Rattle.ofx_ports.specs.Faults.{CountsFaults};
ghost use Rattle.ofx_ports.specs.Writes.{AppendsPart};

use crate::fault::Failed;
use crate::sink::Sink;

/// Writes all of the bytes, in as many calls as the sink takes. Where a write fails a prefix of them is written.
pub fn write_whole<W: Sink>(out: &mut W, bytes: &[u8]) -> Result<(), Failed>
    ensures whole { OnOk result (Appends (W.held out.old) (W.held out.new) bytes.now) }
    ensures part { OnErr result (AppendsPart (W.held out.old) (W.held out.new) bytes.now) }
    ensures faults { CountsFaults (W.faults out.old) (W.faults out.new) (IsErr result) }
{
    let mut done = 0;
    while done < bytes.len() {
        done += out.write(&bytes[done..])?;
    }
    Ok(())
}
