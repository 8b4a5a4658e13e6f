//! The lines and the frames that are written.

ghost use Rattle.std.specs.Prelude.{◌≡◌, ◌≤◌, [], IfOk, vec_capacity};
ghost use Rattle.bank_frames.specs.Frames.{frame};
ghost use Rattle.bank_frames.specs.Lines.{bad_line, due_line, mail_line};

use itoa::Buffer;
use ofx_types::OutOfMemory;
use ofx_values::print_number;
use std::alloc::Global;

/// The line for a file that isn't answered, which reports an offset in it.
pub fn bad_file_line(alloc: Global, offset: u64) -> Result<Vec<u8>, OutOfMemory>
    ensures { IfOk result (λ line. line.items ≡ bad_line offset) }
{
    let mut line = Vec::from_slice(alloc, b"BAD ")?;
    print_number(offset, &mut line)?;
    line.push(b'\n')?;
    Ok(line)
}

/// The most bytes that the line of due work has: its word, one space, a number of twenty digits, and one LF.
const DUE_LINE: usize = 25;

/// Room for the line that says how many events a run of due work had.
pub fn due_work_room(alloc: Global) -> Result<Vec<u8>, OutOfMemory>
    ensures { IfOk result (λ room. (room.items ≡ []) × (25 ≤ vec_capacity room)) }
{
    Ok(Vec::with_capacity(alloc, DUE_LINE)?)
}

/// The line that says how many events a run of due work had, in the room that was made for it. Takes no memory.
pub fn due_work_line(count: u64, room: Vec<u8>) -> Vec<u8>
    requires { (room.items ≡ []) × (25 ≤ vec_capacity room) }
    ensures { result.items ≡ due_line count }
{
    let mut buffer = Buffer::new();
    let mut line = room;
    line.extend_from_slice(b"DUE ").unwrap();
    line.extend_from_slice(buffer.format(count).as_bytes())
        .unwrap();
    line.push(b'\n').unwrap();
    line
}

/// The line that reports the number of a letter's entry.
pub fn letter_line(alloc: Global, number: u64) -> Result<Vec<u8>, OutOfMemory>
    ensures { IfOk result (λ line. line.items ≡ mail_line number) }
{
    let mut line = Vec::from_slice(alloc, b"MAIL ")?;
    print_number(number, &mut line)?;
    line.push(b'\n')?;
    Ok(line)
}

/// The most bytes that a frame's head has: its word, one space, a length of twenty digits, and one LF.
const HEAD: usize = 26;

/// The bytes of a file in their frame.
#[tactic(auto, unfolding(crate::specs::Frames::frame_head))]
pub fn framed(alloc: Global, bytes: &[u8]) -> Result<Vec<u8>, OutOfMemory>
    ensures { IfOk result (λ line. line.items ≡ frame bytes.now) }
{
    let mut line = Vec::with_capacity(alloc, bytes.len().saturating_add(HEAD))?;
    line.extend_from_slice(b"FILE ")?;
    print_number(bytes.len() as u64, &mut line)?;
    line.push(b'\n')?;
    line.extend_from_slice(bytes)?;
    Ok(line)
}
