//! Bytes that were read ahead of what is answered.

ghost use Rattle.std.specs.Prelude.{◌≡◌, ℕ, ◌+◌, ◌-◌, ◌<◌, ◌≤◌, [], ◌++◌, length, take, drop, IfOk, OnErr, IsErr};
ghost use Rattle.std.specs.Io.KnownBytes.{Keeps, ReadConsumes};
ghost use Rattle.ofx_ports.specs.Faults.{CountsFaults};
ghost use Rattle.bank_frames.specs.Reads.{ReadsMore};
ghost use Rattle.bank_frames.specs.Window.{IsWindowOf, in_use};

use ofx_ports::{Failed, Source};
use ofx_types::OutOfMemory;
use std::alloc::Global;
use std::marker::Model;

/// How many bytes are read ahead at most. A whole frame fits.
pub const ROOM: usize = 524_288;

/// The part of a buffer that is in use.
#[derive(Clone, Copy)]
struct Window {
    start: usize,
    end: usize,
}

/// The bytes of a source that were read and not yet used, in order.
#[derive(Drop)]
pub struct Ahead {
    buffer: Vec<u8>,
    window: Window,
}

impl Model for Ahead {
    ghost use Rattle.std.specs.Prelude.{◌≡◌, ℕ, ◌≤◌, List, length};
    ghost use Rattle.bank_frames.specs.Window.{IsWindowOf, in_use};

    ghost Value = { List ℕ };

    ghost view = { λ a. in_use a.window a.buffer.items };

    ghost invariant = { λ a. IsWindowOf a.window a.buffer.items × (length a.buffer.items ≡ 524288) };
}

fn zeros(alloc: Global) -> Result<Vec<u8>, OutOfMemory>
    ensures { IfOk result (λ v. length v.items ≡ 524288) }
{
    Ok(vec![in alloc; 0u8; ROOM]?)
}

/// Moves the bytes between two offsets to the start.
fn shift(buffer: &mut [u8], start: usize, end: usize)
    requires ordered { start ≤ end }
    requires within { end ≤ length buffer.old }
    ensures { take (end - start) buffer.new ≡ take (end - start) (drop start buffer.old) }
{
    buffer.copy_within(start..end, 0);
}

/// Makes room after the bytes between two offsets, and answers the offsets where they are then.
fn make_room(buffer: &mut [u8], start: usize, end: usize) -> (usize, usize)
    requires ordered { start ≤ end }
    requires within { end ≤ length buffer.old }
    requires room { end - start < length buffer.old }
    ensures ordered { result.0 ≤ result.1 }
    ensures room { result.1 < length buffer.new }
    ensures kept { take (result.1 - result.0) (drop result.0 buffer.new) ≡ take (end - start) (drop start buffer.old) }
{
    if end < buffer.len() {
        return (start, end);
    }
    shift(buffer, start, end);
    (0, end - start)
}

/// Reads after what is in use, and leaves that as it is.
fn read_after<S: Source>(source: &mut S, buffer: &mut [u8], end: usize) -> Result<usize, Failed>
    requires { end < length buffer.old }
    ensures kept { take end buffer.new ≡ take end buffer.old }
    ensures count { IfOk result (λ n. end + n ≤ length buffer.new) }
    ensures bytes { ReadConsumes (S.left source.old) (S.left source.new) result (drop end buffer.new) }
    ensures faults { CountsFaults (S.faults source.old) (S.faults source.new) (IsErr result) }
{
    source.read(&mut buffer[end..])
}

/// Reads after the part that is in use. Where none is after it, that part moves to the start first.
fn read_window<S: Source>(
    source: &mut S,
    buffer: &mut [u8],
    window: &mut Window,
) -> Result<usize, Failed>
    requires within { IsWindowOf window.old buffer.old }
    requires room { length (in_use window.old buffer.old) < length buffer.old }
    ensures within { IsWindowOf window.new buffer.new }
    ensures more { IfOk result (ReadsMore (in_use window.old buffer.old) (in_use window.new buffer.new) (S.left source.old) (S.left source.new)) }
    ensures err { OnErr result ((in_use window.new buffer.new ≡ in_use window.old buffer.old) × Keeps (S.left source.old) (S.left source.new)) }
    ensures faults { CountsFaults (S.faults source.old) (S.faults source.new) (IsErr result) }
{
    let (start, end) = make_room(buffer, window.start, window.end);
    window.start = start;
    window.end = end;
    let count = read_after(source, buffer, end)?;
    window.end += count;
    Ok(count)
}

impl Ahead {
    /// Nothing read yet.
    pub fn new(alloc: Global) -> Result<Ahead, OutOfMemory>
        ensures { IfOk result (λ a. a ≡ []) }
    {
        Ok(Ahead {
            buffer: zeros(alloc)?,
            window: Window { start: 0, end: 0 },
        })
    }

    /// The bytes that are ahead.
    pub fn bytes(&self) -> &[u8]
        ensures bytes { result.now ≡ self.now }
        ensures room { length self.now ≤ 524288 }
    {
        &self.buffer[self.window.start..self.window.end]
    }

    /// Uses up the first bytes.
    pub fn consume(&mut self, count: usize)
        requires { count ≤ length self.old }
        ensures { self.new ≡ drop count self.old }
    {
        self.window.start += count;
    }

    /// Reads more bytes after those that are ahead, and answers how many: 0 at the end of the input.
    pub fn read_more<S: Source>(&mut self, source: &mut S) -> Result<usize, Failed>
        requires { length self.old < 524288 }
        ensures more { IfOk result (ReadsMore self.old self.new (S.left source.old) (S.left source.new)) }
        ensures err { OnErr result ((self.new ≡ self.old) × Keeps (S.left source.old) (S.left source.new)) }
        ensures faults { CountsFaults (S.faults source.old) (S.faults source.new) (IsErr result) }
    {
        read_window(source, &mut self.buffer, &mut self.window)
    }
}
