//! The first line of a frame: `FILE`, a space and the number of the file's bytes, or `DUE`; and LF.

ghost use Rattle.std.specs.Prelude.{IfSome, IfNone};
ghost use Rattle.bank_frames.specs.FirstLine.{EndsLine, HasNoLineEnd};
ghost use Rattle.bank_frames.specs.FrameHead.{IsHeadOf, IsFirstLine, IsNoFirstLine};

use crate::length_line::length_in;

/// The most bytes of a request file.
pub const MAX_FILE: usize = 262_144;

/// The most bytes of the first line of a frame, with its LF.
const MAX_HEAD: usize = 12;

/// The parts of a frame: the bytes of its first line with the LF, and the bytes of the file after it.
#[derive(Clone, Copy, Debug, PartialEq, Eq)]
pub struct FrameSize {
    pub head: usize,
    pub file: usize,
}

/// What a first line calls for.
#[derive(Clone, Copy, Debug, PartialEq, Eq)]
enum FirstLine {
    /// A request file of this many bytes, which comes after the line.
    File(usize),
    /// Due work.
    Due,
}

/// What a line calls for, the line without its LF.
fn first_line(line: &[u8]) -> Option<FirstLine>
    ensures some { IfSome result (IsFirstLine line.now) }
    ensures none { IfNone result (IsNoFirstLine line.now) }
{
    if line == b"DUE".as_slice() {
        return Some(FirstLine::Due);
    }
    match length_in(line, MAX_FILE) {
        Some(file) => Some(FirstLine::File(file)),
        None => None,
    }
}

/// What the bytes that are ahead begin with.
#[derive(Clone, Copy, Debug, PartialEq, Eq)]
pub enum FrameHead {
    /// The first line of a file's frame.
    File(FrameSize),
    /// The line that calls for due work, which is a whole frame.
    Due,
    /// No whole line, and too few bytes to say that none will come.
    Partial,
    /// No first line of a frame, whatever bytes follow.
    NoHead,
}

/// The offset of the first LF among the bytes in which a first line ends.
fn line_end(ahead: &[u8]) -> Option<usize>
    ensures some { IfSome result (λ end. EndsLine ahead.now end) }
    ensures none { IfNone result (HasNoLineEnd ahead.now) }
{
    ahead.iter().take(MAX_HEAD).position(|byte| *byte == b'\n')
}

/// What the bytes begin with.
pub fn frame_head_of(ahead: &[u8]) -> FrameHead
    ensures { IsHeadOf ahead.now result }
{
    match line_end(ahead) {
        None => {
            if ahead.len() < MAX_HEAD {
                FrameHead::Partial
            } else {
                FrameHead::NoHead
            }
        }
        Some(end) => match first_line(&ahead[..end]) {
            None => FrameHead::NoHead,
            Some(FirstLine::Due) => FrameHead::Due,
            Some(FirstLine::File(file)) => FrameHead::File(FrameSize {
                head: end + 1,
                file,
            }),
        },
    }
}
