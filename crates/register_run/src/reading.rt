//! Bytes read from an input after those that were read before.

ghost use Rattle.std.specs.Prelude.{◌≡◌, ◌<◌, ◌≤◌, ℕ, length, IfOk, OnErr, IsErrOf};
ghost use Rattle.std.specs.Io.KnownBytes.{Keeps};
ghost use Rattle.ofx_ports.specs.Faults.{CountsFaults};
ghost use Rattle.bank_frames.specs.Reads.{ReadsMore};

use ofx_ports::{Failed, FetchFault, Source};

/// Reads at most as many bytes as the chunk has, and appends them. Answers how many they are: 0 at the end of the input.
pub(crate) fn read_more<A: Source>(
    source: &mut A,
    chunk: &mut [u8],
    bytes: &mut Vec<u8>,
) -> Result<usize, FetchFault>
    requires { 0 < length chunk.old }
    ensures most { IfOk result (λ count. count ≤ length chunk.old) }
    ensures more { IfOk result (ReadsMore bytes.old.items bytes.new.items (A.left source.old) (A.left source.new)) }
    ensures stays { OnErr result ((bytes.new.items ≡ bytes.old.items) × Keeps (A.left source.old) (A.left source.new)) }
    ensures faults { CountsFaults (A.faults source.old) (A.faults source.new) (IsErrOf result FetchFault.Failed) }
{
    if bytes.reserve(chunk.len()).is_err() {
        return Err(FetchFault::OutOfMemory);
    }
    match source.read(chunk) {
        Ok(count) => {
            bytes.extend_from_slice(&chunk[..count]).unwrap();
            Ok(count)
        }
        Err(Failed) => Err(FetchFault::Failed),
    }
}
