//! A sink over any writer of the standard library.

ghost use Rattle.std.specs.Prelude.{◌≡◌, ℕ, ◌<◌, ◌≤◌, List, None, length, take, is_err, if◌then◌else◌, IfOk, IsErr};
ghost use Rattle.std.specs.Io.KnownBytes.{Appends, WriteAppends};
ghost use Rattle.ofx_ports.specs.Faults.{CountsFaults};
ghost use Rattle.ofx_ports.specs.Calls.{one_more};
ghost use Rattle.ofx_ports.specs.Adapters.{sink_writer, sink_faults};

use super::TRIES;
use crate::fault::Failed;
use crate::sink::Sink;
use std::io::{ErrorKind, Write};

/// The bytes that a writer takes, as a file or the standard output, which is `io::writer(&rt)` and has no buffer.
///
/// A write that a signal cuts short is made again, up to 64 times. A write that takes none of its bytes is a fault.
/// The writer is flushed after each write, so no byte that was taken waits in a buffer for the end of the program,
/// and a flush that fails is a fault of that write.
#[derive(Drop)]
pub struct WriterSink<W> {
    writer: W,
    faults: u64,
}

impl<W: Write + Drop> WriterSink<W> {
    /// A sink that writes to this writer.
    pub fn new(writer: W) -> WriterSink<W>
        ensures writer { sink_writer result ≡ writer }
        ensures faults { sink_faults result ≡ 0 }
    {
        WriterSink { writer, faults: 0 }
    }
}

impl<W: Write + Drop> Sink for WriterSink<W> {
    ghost held = { λ _. None };

    ghost faults = { sink_faults };

    fn write(&mut self, bytes: &[u8]) -> Result<usize, Failed>
        requires { 0 < length bytes.now }
        ensures count { IfOk result (λ n. (0 < n) × (n ≤ length bytes.now)) }
        ensures faults { CountsFaults (sink_faults self.old) (sink_faults self.new) (IsErr result) }

        // The writer has what was taken. The count rises at a fault alone.
        ensures writer { IfOk result (λ n. Appends (W.contents (sink_writer self.old)) (W.contents (sink_writer self.new)) (take n bytes.now)) }
        ensures counted { sink_faults self.new ≡ (if is_err result then one_more (sink_faults self.old) else sink_faults self.old) }
    {
        if let Ok(count) = write_retrying(&mut self.writer, bytes)
            && self.writer.flush().is_ok()
        {
            return Ok(count);
        }
        self.faults = self.faults.saturating_add(1);
        Err(Failed)
    }
}

// Writes once, and again where a signal cut the write short. The answer is the number of bytes taken, at least one.
pub(super) fn write_retrying<W: Write>(writer: &mut W, bytes: &[u8]) -> Result<usize, Failed>
    ensures count { IfOk result (λ n. (0 < n) × (n ≤ length bytes.now)) }
    ensures taken { WriteAppends (W.contents writer.old) (W.contents writer.new) result bytes.now }
{
    for _ in 0..TRIES {
        match writer.write(bytes) {
            Ok(0) => return Err(Failed),
            Ok(count) => return Ok(count),
            Err(fault) => {
                if !matches!(fault.kind(), ErrorKind::Interrupted) {
                    return Err(Failed);
                }
            }
        }
    }
    Err(Failed)
}
