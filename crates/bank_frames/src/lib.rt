//! The input and the output of frames: bytes that are read ahead, the frames that they hold, whole or not yet, and the lines that
//! are written for them. What a file in a frame says is nothing to this crate.
#![tactic(auto)]

mod ahead;
mod frame_head;
mod frames;
mod length_line;
mod lines;
mod whole;

pub use ahead::Ahead;
pub use frame_head::FrameSize;
pub use frames::{Frame, Next, next_frame};
pub use length_line::length_in;
pub use lines::{bad_file_line, due_work_line, due_work_room, framed, letter_line};
pub use whole::{MAX_INPUT, read_whole};
