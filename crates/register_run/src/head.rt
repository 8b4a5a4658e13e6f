//! The first line of a frame: `FILE`, a space, the number of the file's bytes, and LF.

ghost use Rattle.std.specs.Prelude.{◌≡◌, ◌-◌, ◌↔◌, [], length, slice_get, Some, IsTrue, IfOk, IfSome, IfNone, IsErrOf};
ghost use Rattle.std.specs.Io.KnownBytes.{Keeps, prepend_known};
ghost use Rattle.ofx_ports.specs.Faults.{CountsFaults};
ghost use Rattle.register_run.specs.Heads.{EndsSo, IsHead, IsLine, IsNoHead};

use crate::reading::read_more;
use bank_frames::length_in;
use ofx_ports::{FetchFault, Source};

/// The most bytes of a reply file.
pub(crate) const MAX_FILE: usize = 67_108_864;

/// The most bytes of the first line of a frame, with its LF.
const MAX_HEAD: usize = 14;

/// How a line ends.
#[derive(Clone, Copy)]
pub(crate) enum LineEnd {
    /// With its LF.
    LineFeed,
    /// With the input.
    Input,
    /// Not within the bytes that the first line of a frame may have.
    Nowhere,
}

/// Whether the last of the bytes is an LF.
fn ends_in_line_feed(bytes: &[u8]) -> bool
    ensures { IsTrue result ↔ (slice_get bytes.now (length bytes.now - 1) ≡ Some 10) }
{
    match bytes.last() {
        Some(byte) => *byte == b'\n',
        None => false,
    }
}

/// Reads the first line of a frame, byte by byte.
pub(crate) fn read_line<A: Source>(
    source: &mut A,
    byte: &mut [u8],
    bytes: &mut Vec<u8>,
) -> Result<LineEnd, FetchFault>
    requires byte { length byte.old ≡ 1 }
    requires fresh { bytes.old.items ≡ [] }
    ensures kept { Keeps (A.left source.old) (prepend_known bytes.new.items (A.left source.new)) }
    ensures ends { IfOk result (EndsSo bytes.new.items (A.left source.new)) }
    ensures faults { CountsFaults (A.faults source.old) (A.faults source.new) (IsErrOf result FetchFault.Failed) }
{
    while bytes.len() < MAX_HEAD {
        if read_more(source, byte, bytes)? == 0 {
            return Ok(LineEnd::Input);
        }
        if ends_in_line_feed(bytes) {
            return Ok(LineEnd::LineFeed);
        }
    }
    Ok(LineEnd::Nowhere)
}

/// The size of the file that the first line of a frame announces.
pub(crate) fn size_in(bytes: &[u8]) -> Option<usize>
    requires { IsLine bytes.now }
    ensures some { IfSome result (IsHead bytes.now) }
    ensures none { IfNone result (IsNoHead bytes.now) }
{
    length_in(&bytes[..bytes.len() - 1], MAX_FILE)
}
