//! A source over any reader of the standard library.

ghost use Rattle.std.specs.Prelude.{◌≡◌, ℕ, ◌<◌, ◌≤◌, List, Some, None, length, is_err, if◌then◌else◌, IfOk, IsErr};
ghost use Rattle.std.specs.Result.{result_ok};
ghost use Rattle.std.specs.Io.KnownBytes.{ReadConsumes};
ghost use Rattle.ofx_ports.specs.Faults.{CountsFaults};
ghost use Rattle.ofx_ports.specs.Calls.{one_more};
ghost use Rattle.ofx_ports.specs.Adapters.{source_reader, source_faults, ReadsThrough};

use super::TRIES;
use crate::fault::Failed;
use crate::source::Source;
use std::io;
use std::io::{ErrorKind, Read};

/// The bytes that a reader gives, as a file or the standard input. A read that a signal cuts short is made again, up
/// to 64 times.
#[derive(Drop)]
pub struct ReaderSource<R> {
    reader: Option<R>,
    faults: u64,
}

impl<R: Read + Drop> ReaderSource<R> {
    /// A source that reads from this reader.
    pub fn new(reader: R) -> ReaderSource<R>
        ensures reader { source_reader result ≡ Some reader }
        ensures faults { source_faults result ≡ 0 }
    {
        ReaderSource {
            reader: Some(reader),
            faults: 0,
        }
    }

    /// A source over what was to be opened. Where it could not be opened, each read fails.
    pub fn opened(opened: io::Result<R>) -> ReaderSource<R>
        ensures reader { source_reader result ≡ result_ok opened }
        ensures faults { source_faults result ≡ 0 }
    {
        ReaderSource {
            reader: opened.ok(),
            faults: 0,
        }
    }
}

impl<R: Read + Drop> Source for ReaderSource<R> {
    ghost left = { λ _. None };

    ghost faults = { source_faults };

    fn read(&mut self, into: &mut [u8]) -> Result<usize, Failed>
        requires { 0 < length into.old }
        ensures count { IfOk result (λ n. n ≤ length into.new) }
        ensures faults { CountsFaults (source_faults self.old) (source_faults self.new) (IsErr result) }

        // What was never opened always fails. An opened reader loses just the bytes that the read gives. The count
        // rises at a fault alone.
        ensures reader { ReadsThrough R.remaining (source_reader self.old) (source_reader self.new) result into.new }
        ensures counted { source_faults self.new ≡ (if is_err result then one_more (source_faults self.old) else source_faults self.old) }
    {
        if let Some(reader) = &mut self.reader
            && let Ok(count) = read_retrying(reader, into)
        {
            return Ok(count);
        }
        self.faults = self.faults.saturating_add(1);
        Err(Failed)
    }
}

// Reads once, and again where a signal cut the read short.
pub(super) fn read_retrying<R: Read>(reader: &mut R, into: &mut [u8]) -> Result<usize, Failed>
    ensures count { IfOk result (λ n. n ≤ length into.new) }
    ensures bytes { ReadConsumes (R.remaining reader.old) (R.remaining reader.new) result into.new }
{
    for _ in 0..TRIES {
        match reader.read(into) {
            Ok(count) => return Ok(count),
            Err(fault) => {
                if !matches!(fault.kind(), ErrorKind::Interrupted) {
                    return Err(Failed);
                }
            }
        }
    }
    Err(Failed)
}
