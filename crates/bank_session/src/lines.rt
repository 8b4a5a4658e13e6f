//! What is written for a frame: the reply to a file in its frame, the offset of a file's fault, or the number of events of due
//! work.

ghost use Rattle.std.specs.Prelude.{◌≡◌, ◌≢◌, ℕ, true, false, List, length, Err, IfOk, OnErr, IsErrOf};
ghost use Rattle.ofx_ports.specs.Faults.{CountsFaults};
ghost use Rattle.ofx_ports.specs.Known.{Stays, Grows};
ghost use Rattle.ofx_types.specs.Calendar.{IsMoment};
ghost use Rattle.bank_frames.specs.Frames as frames;
ghost use Rattle.bank_frames.specs.Frames.{IsLength};
ghost use Rattle.bank_session.specs.Answers.{AnswersFile, DoesDue, IsPrefixKept};

use bank_desk::{Answered, Desk, DeskFault, Envelope};
use bank_frames::{bad_file_line, due_work_line, due_work_room, framed};
use ofx_ports::Keeper;
use ofx_types::{Moment, OutOfMemory};
use std::alloc::Global;

/// The frame of a file, in which a reply is written.
#[derive(Clone, Copy, Debug)]
pub struct FileFrame;

impl Envelope for FileFrame {
    ghost use Rattle.bank_frames.specs.Frames.{frame};

    ghost sent = { λ envelope reply. frame reply };

    fn wrap(&self, alloc: Global, reply: &[u8]) -> Result<Vec<u8>, OutOfMemory> {
        framed(alloc, reply)
    }
}

/// What is to be written for the bytes of a file, at most 262,144 of them, at that moment.
pub fn file_line<K: Keeper>(
    alloc: Global,
    desk: &mut Desk,
    keeper: &mut K,
    at: Moment,
    bytes: &[u8],
) -> Result<Vec<u8>, DeskFault>
    requires moment { IsMoment at.0 }
    requires fits { IsLength (length bytes.now) }
    requires settled { K.unsettled keeper.old ≡ false }
    ensures setup { desk.new.setup ≡ desk.old.setup }
    ensures line { IfOk result (λ line. (records : List (List ℕ))
        × AnswersFile desk.old.setup at desk.old.state bytes.now line.items records desk.new.state
        × Grows (K.records keeper.old) (K.records keeper.new) records) }
    ensures refused { result ≡ Err DeskFault.NoMemory → Stays (K.records keeper.old) (K.records keeper.new) }
    ensures unkept { result ≡ Err DeskFault.AppendFailed → (records : List (List ℕ))
        × IsPrefixKept desk.old.setup at desk.old.state (frames.request bytes.now) records
        × Grows (K.records keeper.old) (K.records keeper.new) records }
    ensures settled { result ≢ Err DeskFault.AppendFailed → K.unsettled keeper.new ≡ false }
    ensures unsettled { result ≡ Err DeskFault.AppendFailed → K.unsettled keeper.new ≡ true }
    ensures faults { CountsFaults (K.faults keeper.old) (K.faults keeper.new) (IsErrOf result DeskFault.AppendFailed) }
{
    match desk.answer(alloc, keeper, at, bytes, FileFrame)? {
        Answered::Sent(line) => Ok(line),
        Answered::Bad(offset) => Ok(bad_file_line(alloc, offset)?),
    }
}

/// Does what is due at that moment, and gives the line of how many events that were. Where it isn't done, a prefix of them has
/// happened. The room of the line is taken before the first of them.
pub fn due_line<K: Keeper>(
    alloc: Global,
    desk: &mut Desk,
    keeper: &mut K,
    at: Moment,
) -> Result<Vec<u8>, DeskFault>
    requires moment { IsMoment at.0 }
    requires settled { K.unsettled keeper.old ≡ false }
    ensures setup { desk.new.setup ≡ desk.old.setup }
    ensures line { IfOk result (λ line. (records : List (List ℕ))
        × DoesDue desk.old.setup at desk.old.state line.items records desk.new.state
        × Grows (K.records keeper.old) (K.records keeper.new) records) }
    ensures prefix { OnErr result ((records : List (List ℕ))
        × IsPrefixKept desk.old.setup at desk.old.state frames.due_work records
        × Grows (K.records keeper.old) (K.records keeper.new) records) }
    ensures settled { result ≢ Err DeskFault.AppendFailed → K.unsettled keeper.new ≡ false }
    ensures unsettled { result ≡ Err DeskFault.AppendFailed → K.unsettled keeper.new ≡ true }
    ensures faults { CountsFaults (K.faults keeper.old) (K.faults keeper.new) (IsErrOf result DeskFault.AppendFailed) }
{
    let room = due_work_room(alloc)?;
    let count = desk.due(alloc, keeper, at)?;
    Ok(due_work_line(count, room))
}
