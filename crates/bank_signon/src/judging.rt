//! What the bytes of a file are to the bank: an event, a poll, a failed signon, or no request file.

ghost use Rattle.std.specs.Prelude.{◌≡◌, ◌≤◌, length, IfOk};
ghost use Rattle.ofx_types.specs.FileForm.{SpellsFile};
ghost use Rattle.bank_model.specs.SetupForm.{IsWithinLimits};
ghost use Rattle.bank_model.specs.Sound.{IsSound};
ghost use Rattle.bank_signon.specs.Signon.{fault_offset, IsJudged};

use bank_model::{Setup, is_poll};
use ofx_file::read_request;
use ofx_types::{FileFault, OutOfMemory, RequestFile, UserId};
use std::alloc::Global;

/// What a file is to the bank.
#[derive(Drop)]
pub enum Judgement {
    /// A file of this user, which is an event.
    Event(UserId, RequestFile),
    /// A poll of this user.
    Poll(UserId, RequestFile),
    /// A file whose signon failed.
    Denied(RequestFile),
    /// No request file, and its fault's offset.
    Refused(u64),
}

/// What the bytes of a file of at most 262,144 bytes are to the bank.
///
/// ```rust
/// use bank_model::Setup;
/// use bank_signon::{Judgement, judge};
/// use ofx_file::write_request;
/// use ofx_types::{FileUid, Moment, RequestFile, Sequence, Text, UserId};
///
/// let alloc = rt.alloc();
/// let bytes = b"OFXBANK 1\nBANK 1\nLEAD 5\nWINDOW 3\nENTRIES 99\n\
///     USER alice secret\nACCT 1001 CHECKING 0 alice\n";
/// let setup = Setup::read(alloc, bytes).expect(&rt, "a setup");
/// let file = RequestFile {
///     version: 160,
///     older: None,
///     newer: Some(FileUid::new(b"f1").expect(&rt, "a uid")),
///     user: Text::new(alloc, b"alice", 32).expect(&rt, "a name"),
///     pass: Text::new(alloc, b"secret", 64).expect(&rt, "a password"),
///     asks: Sequence::new(alloc),
/// };
/// let bytes = write_request(alloc, &file, Moment(1_706_702_400)).expect(&rt, "room");
/// let Ok(Judgement::Event(UserId(0), _file)) = judge(alloc, &setup, &bytes) else {
///     panic!(rt; "an event of the first user");
/// };
/// let Ok(Judgement::Refused(0)) = judge(alloc, &setup, b"OFXHEADER:200\r\n") else {
///     panic!(rt; "no request file");
/// };
/// ```
pub fn judge(alloc: Global, setup: &Setup, bytes: &[u8]) -> Result<Judgement, OutOfMemory>
    requires within { IsWithinLimits setup.now }
    requires fits { length bytes.now ≤ 262144 }
    ensures { IfOk result (IsJudged setup.now bytes.now) }
{
    match read_request(alloc, bytes) {
        Ok(file) => Ok(judge_file(setup, bytes, file)),
        Err(fault) => match offset_of(fault) {
            Some(offset) => Ok(Judgement::Refused(offset)),
            None => Err(OutOfMemory),
        },
    }
}

/// The offset of a fault, from the file's first byte. None for want of memory.
fn offset_of(fault: FileFault) -> Option<u64>
    ensures { result ≡ fault_offset fault }
{
    match fault {
        FileFault::Header(at) | FileFault::Syntax(at) | FileFault::Form(at) => Some(at),
        FileFault::OutOfMemory => None,
    }
}

/// What the request file that the bytes spell is to the bank: a poll or an event of the user who signs on, whatever it
/// names and asks about.
fn judge_file(setup: &Setup, bytes: &[u8], file: RequestFile) -> Judgement
    requires within { IsWithinLimits setup.now }
    requires spelled { SpellsFile bytes.now file }
    requires sound { IsSound file }
    ensures { IsJudged setup.now bytes.now result }
{
    match setup.signon(&file.user, &file.pass) {
        Some(user) => {
            if is_poll(&file) {
                Judgement::Poll(user, file)
            } else {
                Judgement::Event(user, file)
            }
        }
        None => Judgement::Denied(file),
    }
}
