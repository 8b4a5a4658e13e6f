//! A sign-on by SCRAM-SHA-256.

ghost use Rattle.std.specs.Prelude.{◌≡◌, IfOk, OnOk, OnErr};
ghost use Rattle.postgres_messages.specs.Views.{message_of, texts};
ghost use Rattle.postgres_talk.specs.SigningOn.{heard_on, start, said, said_otherwise};
ghost use Rattle.postgres_talk.specs.SigningOn as signing_on;
ghost use Rattle.postgres_talk.specs.SignOnView.{client_of, said_of};

use ofx_types::OutOfMemory;
use postgres_messages::{BackendMessage, Texts};
use scram_sha256::{Identity, Replies, ScramFault, replies_to};
use std::alloc::Global;
use std::marker::Model;

/// How far a sign-on has come.
#[derive(Clone, Copy, Debug, PartialEq, Eq)]
pub enum Stage {
    /// The startup was sent.
    Started,
    /// The client's first message is to be sent, or was.
    Greeted,
    /// The client's last message is to be sent, or was.
    Proved,
    /// The server has proved that it knows the password.
    Verified,
    /// The client is signed on, and the server isn't ready yet.
    Admitted,
    /// The server is ready for statements.
    Open,
    /// The server is a standby: another host is to be tried.
    Standby,
    /// The connection is to be given up.
    GivenUp,
}

/// A sign-on since its startup was sent.
pub struct SignOn {
    stage: Stage,
    wanted: Vec<u8>,
}

impl Drop for SignOn {
    fn drop(self) {
        let SignOn {
            stage: _,
            wanted: _,
        } = self;
    }
}

impl Model for SignOn {
    ghost use Rattle.postgres_talk.specs.SigningOn.{SigningOn};

    ghost Value = { SigningOn };

    ghost view = { λ s. record { stage = s.stage; wanted = s.wanted.items } };
}

/// What the client says next.
pub enum Saying {
    Nothing,
    /// Its first message of SCRAM.
    First,
    /// Its last message of SCRAM, which is this.
    Last(Vec<u8>),
}

impl Drop for Saying {
    fn drop(self) {
        match self {
            Saying::Nothing => {}
            Saying::First => {}
            Saying::Last(_) => {}
        }
    }
}

impl SignOn {
    /// The startup was sent.
    pub fn new(alloc: Global) -> SignOn
        ensures { result ≡ start }
    {
        SignOn {
            stage: Stage::Started,
            wanted: Vec::new(alloc),
        }
    }

    /// How far it has come.
    pub fn stage(&self) -> Stage
        ensures { result ≡ self.now.stage }
    {
        self.stage
    }

    /// Takes a message in, and gives what the client says next. The same client is given for each message, its nonce too.
    ///
    /// `OutOfMemory`: the sign-on is as it was.
    pub fn hear(
        &mut self,
        alloc: Global,
        who: Identity,
        message: &BackendMessage,
    ) -> Result<Saying, OutOfMemory>
        ensures heard { OnOk result (self.new ≡ heard_on (client_of who.entry) self.old (message_of message.now)) }
        ensures said { IfOk result (λ saying. said_of saying ≡ said (client_of who.entry) self.old (message_of message.now)) }
        ensures refused { OnErr result (self.new ≡ self.old) }
    {
        match message {
            BackendMessage::Challenge(text) => self.hear_challenge(alloc, who, text),
            _ => {
                let saying = say_to(self.stage, message);
                self.stage = next_stage(&self.wanted, self.stage, message);
                Ok(saying)
            }
        }
    }

    fn hear_challenge(
        &mut self,
        alloc: Global,
        who: Identity,
        text: &[u8],
    ) -> Result<Saying, OutOfMemory>
        ensures heard { OnOk result (self.new ≡ signing_on.challenged (client_of who.entry) self.old text.now self.old.stage) }
        ensures said { IfOk result (λ saying. said_of saying ≡ signing_on.said_to_challenge (client_of who.entry) text.now self.old.stage) }
        ensures refused { OnErr result (self.new ≡ self.old) }
    {
        if !matches!(self.stage, Stage::Greeted) {
            self.stage = Stage::GivenUp;
            return Ok(Saying::Nothing);
        }
        match replies_to(alloc, who, text) {
            Ok(replies) => {
                let Replies { last, wanted } = replies;
                self.stage = Stage::Proved;
                self.wanted = wanted;
                Ok(Saying::Last(last))
            }
            Err(ScramFault::Refused) => {
                self.stage = Stage::GivenUp;
                Ok(Saying::Nothing)
            }
            Err(ScramFault::OutOfMemory) => Err(OutOfMemory),
        }
    }
}

/// What the client says after a message that is no challenge.
fn say_to(stage: Stage, message: &BackendMessage) -> Saying
    ensures { said_of result ≡ said_otherwise stage (message_of message.now) }
{
    match message {
        BackendMessage::Methods(names)
            if matches!(stage, Stage::Started) && names.contains(b"SCRAM-SHA-256") => {
            Saying::First
        }
        _ => Saying::Nothing,
    }
}

/// The stage after a message that is no challenge.
fn next_stage(wanted: &[u8], stage: Stage, message: &BackendMessage) -> Stage
    ensures { result ≡ signing_on.next_stage wanted.now stage (message_of message.now) }
{
    match message {
        BackendMessage::Methods(names) => stage_offered(names, stage),
        BackendMessage::Verifier(text) => stage_verified(text, wanted, stage),
        BackendMessage::SignedOn => match stage {
            Stage::Verified => Stage::Admitted,
            _ => Stage::GivenUp,
        },
        BackendMessage::ProcessKey(_, _) => match stage {
            Stage::Admitted => Stage::Admitted,
            _ => Stage::GivenUp,
        },
        BackendMessage::Setting(name, value) => stage_set(name, value, stage),
        BackendMessage::Ready => match stage {
            Stage::Admitted => Stage::Open,
            _ => Stage::GivenUp,
        },
        BackendMessage::Notice(_) => stage,
        _ => Stage::GivenUp,
    }
}

fn stage_offered(names: &Texts, stage: Stage) -> Stage
    ensures { result ≡ signing_on.offered (texts names.now) stage }
{
    match stage {
        Stage::Started => {
            if names.contains(b"SCRAM-SHA-256") {
                Stage::Greeted
            } else {
                Stage::GivenUp
            }
        }
        _ => Stage::GivenUp,
    }
}

fn stage_verified(text: &[u8], wanted: &[u8], stage: Stage) -> Stage
    ensures { result ≡ signing_on.verified text.now wanted.now stage }
{
    match stage {
        Stage::Proved => {
            if text == wanted {
                Stage::Verified
            } else {
                Stage::GivenUp
            }
        }
        _ => Stage::GivenUp,
    }
}

fn stage_set(name: &[u8], value: &[u8], stage: Stage) -> Stage
    ensures { result ≡ signing_on.set name.now value.now stage }
{
    match stage {
        Stage::Admitted => {
            if name == b"in_hot_standby".as_slice() && value == b"on".as_slice() {
                Stage::Standby
            } else {
                Stage::Admitted
            }
        }
        _ => Stage::GivenUp,
    }
}
