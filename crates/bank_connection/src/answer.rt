//! What the body of a request is answered.

ghost use Rattle.std.specs.Prelude.{◌≡◌, ◌<◌, ◌≤◌, ℕ, true, false, codes, List, ◌++◌, length, Option, IfOk, IfSome};
ghost use Rattle.std.specs.Fmt.{decimal};
ghost use Rattle.ofx_types.specs.declared.number.Moment.{Moment as TheMoment};
ghost use Rattle.http_front.specs.HeadText.{IsReplyCode};
ghost use Rattle.bank_model.specs.declared.setup.Setup.{Setup as TheSetup};
ghost use Rattle.bank_model.specs.Polls.{is_poll};
ghost use Rattle.bank_model.specs.Sound.{IsSound};
ghost use Rattle.bank_signon.specs.Signon.{IsSignedOn, IsDenied, IsRefused};
ghost use Rattle.bank_callers.specs.Callers.{CallerView, IsRightView};
ghost use Rattle.http_link.specs.Replies.{line};
ghost use Rattle.bank_connection.specs.Answering.{answer_code, answer_body, reports_no_memory, Answers};

use crate::office::Office;
use bank_model::SubmitFault;
use bank_signon::{Judgement, denial_text, judge};
use itoa::Buffer;
use ofx_ports::Clock;
use ofx_types::{OutOfMemory, RequestFile, UserId};
use std::alloc::Global;

/// What the body of a request is answered.
#[derive(Debug, Drop)]
pub enum Answer {
    /// A reply file.
    File(Vec<u8>),
    /// The body spells no file: a line that reports the offset of the fault.
    Misspelled(Vec<u8>),
    /// A call of the keeper of the records failed.
    KeeperFailed,
    /// Memory was refused.
    NoMemory,
}

impl Answer {
    /// The code of the reply.
    pub fn code(&self) -> u16
        ensures code { result ≡ answer_code self.now }
        ensures is_code { IsReplyCode result }
    {
        match self {
            Answer::File(_) => 200,
            Answer::Misspelled(_) => 400,
            Answer::KeeperFailed => 503,
            Answer::NoMemory => 500,
        }
    }

    /// The body of the reply.
    pub fn body(&self) -> &[u8]
        ensures { result.now ≡ answer_body self.now }
    {
        match self {
            Answer::File(reply) => reply,
            Answer::Misspelled(text) => text,
            Answer::KeeperFailed => b"keeper failed\n",
            Answer::NoMemory => b"no memory\n",
        }
    }

    /// Whether memory was refused.
    pub fn is_no_memory(&self) -> bool
        ensures { result ≡ reports_no_memory self.now }
    {
        matches!(self, Answer::NoMemory)
    }
}

/// Answers the body of a request: what it is to the bank is found out first, then the clock is read if it spells a file, and only
/// then the office is asked.
pub fn answer_to<O: Office, C: Clock>(
    alloc: Global,
    office: &mut O,
    clock: &mut C,
    body: &[u8],
) -> Answer
    requires few { length body.now ≤ 262144 }
    requires ready { O.ready office.old }
    ensures answers { Answers (O.setup office.old) body.now (C.shown clock.old) (C.shown clock.new) (O.knows office.old) (O.knows office.new) result }
    ensures setup { O.setup office.new ≡ O.setup office.old }
    ensures through { O.through office.new ≡ O.through office.old }
    ensures ready { O.ready office.new }
    ensures right { IfSome (O.knows office.new) (IsRightView (O.setup office.new)) }
{
    match judge(alloc, office.setup(), body) {
        Err(OutOfMemory) => Answer::NoMemory,
        Ok(Judgement::Refused(offset)) => misspelled(alloc, offset),
        Ok(Judgement::Denied(file)) => denied(alloc, clock, file),
        Ok(Judgement::Poll(user, file)) => look(office, clock, user, &file),
        Ok(Judgement::Event(user, file)) => ask(office, clock, user, &file),
    }
}

/// The line for a body that spells no file.
fn bad_file_line(alloc: Global, offset: u64) -> Result<Vec<u8>, OutOfMemory>
    ensures { IfOk result (λ text. text.items ≡ line (codes "bad file at " ++ decimal offset)) }
{
    let mut text = Vec::from_slice(alloc, b"bad file at ")?;
    text.extend_from_slice(Buffer::new().format(offset).as_bytes())?;
    text.push(b'\n')?;
    Ok(text)
}

/// The answer to a body that spells no file. Neither the clock nor the office is asked.
fn misspelled(alloc: Global, offset: u64) -> Answer
    ensures { (setup : TheSetup) (body : List ℕ) (shown : Option (List TheMoment)) (known : Option CallerView) →
        IsRefused body offset → Answers setup body shown shown known known result }
{
    match bad_file_line(alloc, offset) {
        Ok(text) => Answer::Misspelled(text),
        Err(OutOfMemory) => Answer::NoMemory,
    }
}

/// The answer to a file whose signon failed. The office isn't asked.
fn denied<C: Clock>(alloc: Global, clock: &mut C, file: RequestFile) -> Answer
    ensures { (setup : TheSetup) (body : List ℕ) (known : Option CallerView) →
        IsDenied setup body file → Answers setup body (C.shown clock.old) (C.shown clock.new) known known result }
{
    let at = clock.now();
    match denial_text(alloc, at, file) {
        Ok(reply) => Answer::File(reply),
        Err(OutOfMemory) => Answer::NoMemory,
    }
}

/// The answer to a user's poll, at the moment that the clock shows.
fn look<O: Office, C: Clock>(
    office: &mut O,
    clock: &mut C,
    user: UserId,
    file: &RequestFile,
) -> Answer
    requires ready { O.ready office.old }
    requires known { user.0 < length (O.setup office.old).users }
    requires sound { IsSound file.now }
    requires poll { is_poll file.now ≡ true }
    ensures answers { (body : List ℕ) → IsSignedOn (O.setup office.old) body file.now user →
        Answers (O.setup office.old) body (C.shown clock.old) (C.shown clock.new) (O.knows office.old) (O.knows office.new) result }
    ensures setup { O.setup office.new ≡ O.setup office.old }
    ensures through { O.through office.new ≡ O.through office.old }
    ensures ready { O.ready office.new }
    ensures right { IfSome (O.knows office.new) (IsRightView (O.setup office.new)) }
{
    let at = clock.now();
    match office.look(user, file, at) {
        Ok(reply) => Answer::File(reply),
        Err(OutOfMemory) => Answer::NoMemory,
    }
}

/// The answer to any other file of a user, at the moment that the clock shows.
fn ask<O: Office, C: Clock>(
    office: &mut O,
    clock: &mut C,
    user: UserId,
    file: &RequestFile,
) -> Answer
    requires ready { O.ready office.old }
    requires known { user.0 < length (O.setup office.old).users }
    requires sound { IsSound file.now }
    requires event { is_poll file.now ≡ false }
    ensures answers { (body : List ℕ) → IsSignedOn (O.setup office.old) body file.now user →
        Answers (O.setup office.old) body (C.shown clock.old) (C.shown clock.new) (O.knows office.old) (O.knows office.new) result }
    ensures setup { O.setup office.new ≡ O.setup office.old }
    ensures through { O.through office.new ≡ O.through office.old }
    ensures ready { O.ready office.new }
    ensures right { IfSome (O.knows office.new) (IsRightView (O.setup office.new)) }
{
    let at = clock.now();
    match office.ask(user, file, at) {
        Ok(reply) => Answer::File(reply),
        Err(SubmitFault::Keeper(_)) => Answer::KeeperFailed,
        Err(SubmitFault::OutOfMemory) => Answer::NoMemory,
    }
}
