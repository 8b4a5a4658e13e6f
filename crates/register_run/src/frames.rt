//! The frames of an input, one after another.

ghost use Rattle.std.specs.Prelude.{◌≡◌, ◌≢◌, ◌≤◌, ◌+◌, ℕ, [], length, IfOk, IsErrOf};
ghost use Rattle.std.specs.Io.KnownBytes.{Keeps, prepend_known, IsAtEnd};
ghost use Rattle.ofx_ports.specs.Faults.{CountsFaults};
ghost use Rattle.register_run.specs.Heads.{IsHead, IsLine};
ghost use Rattle.register_run.specs.NextFrame.{IsNext, EndsAs, ReadsBody};

use crate::head::{LineEnd, read_line, size_in};
use crate::reading::read_more;
use ofx_ports::{FetchFault, Source};
use ofx_types::OutOfMemory;
use std::alloc::Global;

/// How many bytes are read at once.
const CHUNK: usize = 65_536;

/// What comes next in an input.
#[derive(Clone, Copy)]
pub(crate) enum Next {
    /// A frame, whose first line has so many bytes.
    Frame(usize),
    /// The input's end.
    End,
    /// Bytes that begin no frame.
    NoFrame,
}

/// Room for what is read at once.
fn chunk_room(alloc: Global) -> Result<Vec<u8>, OutOfMemory>
    ensures { IfOk result (λ chunk. length chunk.items ≡ 65536) }
{
    match vec![in alloc; 0u8; CHUNK] {
        Ok(chunk) => Ok(chunk),
        Err(_) => Err(OutOfMemory),
    }
}

/// Reads on until so many bytes were read, or the input is at its end. Answers whether they are all there.
fn read_up_to<A: Source>(
    source: &mut A,
    chunk: &mut [u8],
    bytes: &mut Vec<u8>,
    whole: usize,
) -> Result<bool, FetchFault>
    requires room { length chunk.old ≡ 65536 }
    requires ahead { length bytes.old.items ≤ whole }
    ensures body { ReadsBody bytes.old.items whole (A.left source.old) bytes.new.items (A.left source.new) result }
    ensures faults { CountsFaults (A.faults source.old) (A.faults source.new) (IsErrOf result FetchFault.Failed) }
{
    while bytes.len() < whole {
        let room = (whole - bytes.len()).min(CHUNK);
        if read_more(source, &mut chunk[..room], bytes)? == 0 {
            return Ok(false);
        }
    }
    Ok(true)
}

/// Reads the file of a frame whose first line was read.
fn read_file<A: Source>(
    source: &mut A,
    bytes: &mut Vec<u8>,
    size: usize,
) -> Result<Next, FetchFault>
    requires { IsHead bytes.old.items size }
    ensures kept { Keeps (prepend_known bytes.old.items (A.left source.old)) (prepend_known bytes.new.items (A.left source.new)) }
    ensures next { IfOk result (IsNext bytes.new.items (A.left source.new)) }
    ensures faults { CountsFaults (A.faults source.old) (A.faults source.new) (IsErrOf result FetchFault.Failed) }
{
    let head = bytes.len();
    let mut chunk = match chunk_room(*bytes.allocator()) {
        Ok(chunk) => chunk,
        Err(OutOfMemory) => return Err(FetchFault::OutOfMemory),
    };
    if read_up_to(source, &mut chunk, bytes, head + size)? {
        Ok(Next::Frame(head))
    } else {
        Ok(Next::NoFrame)
    }
}

/// What the bytes are with which an input ends, and no line of a frame does.
fn at_end(bytes: &[u8]) -> Next
    ensures { EndsAs bytes.now result }
{
    if bytes.is_empty() {
        Next::End
    } else {
        Next::NoFrame
    }
}

/// Reads the file after the first line of a frame, where the line that was read is one.
fn read_after_line<A: Source>(source: &mut A, bytes: &mut Vec<u8>) -> Result<Next, FetchFault>
    requires { IsLine bytes.old.items }
    ensures kept { Keeps (prepend_known bytes.old.items (A.left source.old)) (prepend_known bytes.new.items (A.left source.new)) }
    ensures next { IfOk result (IsNext bytes.new.items (A.left source.new)) }
    ensures faults { CountsFaults (A.faults source.old) (A.faults source.new) (IsErrOf result FetchFault.Failed) }
{
    match size_in(bytes) {
        Some(size) => read_file(source, bytes, size),
        None => Ok(Next::NoFrame),
    }
}

/// Reads the next frame whole, or as much as shows that there is none.
pub(crate) fn next_frame<A: Source>(source: &mut A, bytes: &mut Vec<u8>) -> Result<Next, FetchFault>
    requires { bytes.old.items ≡ [] }
    ensures kept { Keeps (A.left source.old) (prepend_known bytes.new.items (A.left source.new)) }
    ensures next { IfOk result (IsNext bytes.new.items (A.left source.new)) }
    ensures faults { CountsFaults (A.faults source.old) (A.faults source.new) (IsErrOf result FetchFault.Failed) }
{
    let mut byte = [0u8; 1];
    match read_line(source, &mut byte, bytes) {
        Ok(LineEnd::LineFeed) => read_after_line(source, bytes),
        Ok(LineEnd::Input) => Ok(at_end(bytes)),
        Ok(LineEnd::Nowhere) => Ok(Next::NoFrame),
        Err(fault) => Err(fault),
    }
}
