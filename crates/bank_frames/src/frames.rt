//! The frames of an input, one after another.

ghost use Rattle.std.specs.Prelude.{◌≡◌, ◌<◌, ◌^◌, IfOk, OnErr, IsErr};
ghost use Rattle.std.specs.Io.KnownBytes.{Keeps, prepend_known};
ghost use Rattle.ofx_ports.specs.Faults.{CountsFaults};
ghost use Rattle.bank_frames.specs.NextFrame.{ShowsPrefix, IsLast, IsNext, size_of};
ghost use Rattle.bank_frames.specs.Frames.{BeginsNoFrame};

use crate::ahead::Ahead;
use crate::frame_head::{FrameHead, FrameSize, frame_head_of};
use ofx_ports::{Failed, Source};

/// A frame that is ahead as a whole.
#[derive(Clone, Copy, Debug, PartialEq, Eq)]
pub enum Frame {
    /// A request file after its first line.
    File(FrameSize),
    /// A call for due work.
    Due,
}

/// The bytes of the line that calls for due work.
const DUE_LINE: usize = 4;

impl Frame {
    /// How many bytes it has.
    pub fn size(self) -> usize
        requires { size_of self < 2 ^ 64 }
        ensures { result ≡ size_of self }
    {
        match self {
            Frame::File(size) => size.head + size.file,
            Frame::Due => DUE_LINE,
        }
    }
}

/// What the bytes that are ahead show of the next frame.
#[derive(Clone, Copy, Debug, PartialEq, Eq)]
enum Prefix {
    /// The whole frame is there.
    Whole(Frame),
    /// More bytes are needed.
    Unfinished,
    /// No frame, whatever bytes follow.
    NoFrame,
}

/// What comes next in an input.
#[derive(Clone, Copy, Debug, PartialEq, Eq)]
pub enum Next {
    /// A frame, all of whose bytes are ahead.
    Frame(Frame),
    /// The input's end.
    End,
    /// Bytes that begin no frame.
    NoFrame,
}

fn prefix_of(ahead: &[u8]) -> Prefix
    ensures { ShowsPrefix ahead.now result }
{
    match frame_head_of(ahead) {
        FrameHead::NoHead => Prefix::NoFrame,
        FrameHead::Partial => Prefix::Unfinished,
        FrameHead::Due => Prefix::Whole(Frame::Due),
        FrameHead::File(size) => {
            if ahead.len() - size.head < size.file {
                Prefix::Unfinished
            } else {
                Prefix::Whole(Frame::File(size))
            }
        }
    }
}

/// Reads on until the next frame is ahead as a whole, or the input shows that there is none.
///
/// ```rust
/// use bank_frames::{Ahead, Frame, Next, next_frame};
/// use ofx_ports::MemSource;
///
/// // A file of five bytes, and a call for due work.
/// let mut source = MemSource::new(rt.alloc(), b"FILE 5\nhelloDUE\n").expect(&rt, "a source");
/// let mut ahead = Ahead::new(rt.alloc()).expect(&rt, "room");
/// let Ok(Next::Frame(Frame::File(size))) = next_frame(&mut source, &mut ahead) else {
///     panic!(rt; "a file");
/// };
/// assert!(rt; ahead.bytes()[size.head..].starts_with(b"hello") && size.file == 5);
/// ahead.consume(size.head + size.file);
/// let Ok(Next::Frame(Frame::Due)) = next_frame(&mut source, &mut ahead) else {
///     panic!(rt; "due work");
/// };
/// ```
pub fn next_frame<S: Source>(source: &mut S, ahead: &mut Ahead) -> Result<Next, Failed>
    // No byte is lost.
    ensures kept { Keeps (prepend_known ahead.old (S.left source.old)) (prepend_known ahead.new (S.left source.new)) }
    ensures next { IfOk result (IsNext ahead.new (S.left source.new)) }
    // A read is made, and may fail, only where no whole frame is ahead.
    ensures failed { OnErr result (BeginsNoFrame ahead.new) }
    ensures faults { CountsFaults (S.faults source.old) (S.faults source.new) (IsErr result) }
{
    loop {
        match prefix_of(ahead.bytes()) {
            Prefix::Whole(frame) => return Ok(Next::Frame(frame)),
            Prefix::NoFrame => return Ok(Next::NoFrame),
            Prefix::Unfinished => {}
        }
        if ahead.read_more(source)? == 0 {
            return Ok(at_end(ahead.bytes()));
        }
    }
}

/// What the last bytes of an input are, which begin no frame.
fn at_end(rest: &[u8]) -> Next
    ensures { IsLast rest.now result }
{
    if rest.is_empty() {
        Next::End
    } else {
        Next::NoFrame
    }
}
