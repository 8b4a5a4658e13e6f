//! A bank on one thread: its book, its accounts in the pool, and what it answers to the bytes of a file.

mod committing;
mod due;

ghost use Rattle.std.specs.Prelude.{◌≡◌, ◌≢◌, ◌+◌, ◌<◌, ◌≤◌, true, false, length, Err, IfOk, IfErr, IfSome, IfNone, OnErr, IsErrOf};
ghost use Rattle.ofx_ports.specs.Faults.{CountsFaults};
ghost use Rattle.ofx_ports.specs.Known.{Stays};
ghost use Rattle.ofx_types.specs.Calendar.{IsMoment};
ghost use Rattle.ofx_types.specs.ReplyForm.{reply_text};
ghost use Rattle.bank_model.specs.SetupForm.{IsWithinLimits};
ghost use Rattle.bank_model.specs.Polls as polls;
ghost use Rattle.bank_model.specs.Rules as rules;
ghost use Rattle.bank_replay.specs.Opening.{RecordsGive, HasCause};
ghost use Rattle.bank_desk.specs.Answering.{Answers, FileUnkept};

use crate::fault::DeskFault;
use bank_engine::{Envelope, SoloEngine};
use bank_model::{Event, Setup};
use bank_replay::{OpenFault, reopen};
use bank_signon::{Judgement, denial_text, judge};
use ofx_file::OfxPrinter;
use ofx_ports::Keeper;
use ofx_types::{Moment, OutOfMemory, RequestFile, UserId};
use std::alloc::Global;
use std::hash::RandomState;
use std::marker::Model;

/// A bank that answers one file after another, and does what is due.
///
/// ```rust
/// use bank_desk::{Answered, Desk};
/// use bank_engine::Bare;
/// use bank_model::Setup;
/// use ofx_ports::MemKeeper;
/// use ofx_types::Moment;
/// use std::hash::RandomState;
///
/// let alloc = rt.alloc();
/// let bytes = b"OFXBANK 1\nBANK 1\nLEAD 5\nWINDOW 3\nENTRIES 99\n\
///     USER alice secret\nACCT 1001 CHECKING 0 alice\n";
/// let setup = Setup::read(alloc, bytes).expect(&rt, "a setup");
/// let keys = RandomState::new(&rt).expect(&rt, "keys");
/// let mut keeper = MemKeeper::new(alloc);
/// let mut desk = Desk::open(alloc, keys, setup, &mut keeper).expect(&rt, "a bank");
/// // The first line of these bytes has a value that isn't allowed, so they are answered by its offset.
/// let (noon, bytes) = (Moment(1_706_702_400), b"OFXHEADER:200\r\n");
/// let Ok(Answered::Bad(0)) = desk.answer(alloc, &mut keeper, noon, bytes, Bare) else {
///     panic!(rt; "no request file");
/// };
/// assert!(rt; keeper.record_count() == 0 && desk.next_number() == Some(1));
/// ```
pub struct Desk {
    engine: SoloEngine<OfxPrinter>,
}

impl Model for Desk {
    ghost use Rattle.std.specs.Prelude.{◌≡◌, None};
    ghost use Rattle.bank_core.specs.BookView.{BookView};

    ghost Value = { BookView };

    ghost view = { λ d. record { setup = d.engine.setup; state = d.engine.state } };

    // A run ends at an append that failed, so nothing is ever pending.
    ghost invariant = { λ d. d.engine.pending ≡ None };
}

/// What is answered to the bytes of a file.
#[derive(Drop)]
pub enum Answered {
    /// The bytes that are to be sent: a reply in its envelope.
    Sent(Vec<u8>),
    /// The file isn't answered: its fault is at this offset, in bytes from its first.
    Bad(u64),
}

impl Desk {
    /// The bank of that setup, in the state after the records that are kept. Clients' names are found by hashes with these keys.
    pub fn open<K: Keeper>(
        alloc: Global,
        keys: RandomState,
        setup: Setup,
        keeper: &mut K,
    ) -> Result<Desk, OpenFault>
        requires within { IsWithinLimits setup }
        requires settled { K.unsettled keeper.old ≡ false }
        ensures setup { IfOk result (λ desk. desk.setup ≡ setup) }
        ensures holds { IfOk result (λ desk. RecordsGive setup (K.records keeper.old) desk.state) }
        ensures cause { IfErr result (HasCause setup (K.records keeper.old)) }
        ensures list { Stays (K.records keeper.old) (K.records keeper.new) }
        ensures settled { K.unsettled keeper.new ≡ false }
        ensures faults { CountsFaults (K.faults keeper.old) (K.faults keeper.new) (IsErrOf result OpenFault.Read) }
    {
        let (book, accounts) = reopen(alloc, keys, keeper, setup, OfxPrinter)?;
        Ok(Desk {
            engine: SoloEngine::new(alloc, book, accounts)?,
        })
    }

    /// The setup, lent.
    pub fn setup(&self) -> &Setup
        ensures setup { result.now ≡ self.now.setup }
        ensures within { IsWithinLimits self.now.setup }
    {
        self.engine.book().setup()
    }

    /// The number of the next entry. None exactly where the bank makes no more entries in its life. Takes no memory.
    pub fn next_number(&self) -> Option<u64>
        ensures next { IfSome result (λ number. number ≡ length self.now.state.entries + 1) }
        ensures some { IfSome result (λ _. length self.now.state.entries < self.now.setup.entries) }
        ensures none { IfNone result (length self.now.state.entries ≡ self.now.setup.entries) }
    {
        self.engine.book().next_number()
    }

    /// What is to be sent for the bytes of a file, at most 262,144 of them, at that moment, in that envelope. Where they are a
    /// user's and no poll the event has happened. Otherwise nothing has, nor where memory is refused or the append of its
    /// record failed; but where the append failed the record may be stored.
    pub fn answer<K: Keeper, E: Envelope>(
        &mut self,
        alloc: Global,
        keeper: &mut K,
        at: Moment,
        bytes: &[u8],
        envelope: E,
    ) -> Result<Answered, DeskFault>
        requires moment { IsMoment at.0 }
        requires fits { length bytes.now ≤ 262144 }
        requires settled { K.unsettled keeper.old ≡ false }
        ensures setup { self.new.setup ≡ self.old.setup }
        ensures answered { IfOk result (Answers (E.sent envelope) self.old.setup at self.old.state bytes.now self.new.state (K.records keeper.old) (K.records keeper.new)) }
        ensures unchanged { OnErr result (self.new ≡ self.old) }
        ensures refused { result ≡ Err DeskFault.NoMemory → Stays (K.records keeper.old) (K.records keeper.new) }
        ensures unkept { result ≡ Err DeskFault.AppendFailed →
            FileUnkept self.old.setup at bytes.now (K.records keeper.old) (K.records keeper.new) (K.landed keeper.new) }
        ensures size { OnErr result (K.size keeper.new ≡ K.size keeper.old) }
        ensures settled { result ≢ Err DeskFault.AppendFailed → K.unsettled keeper.new ≡ false }
        ensures unsettled { result ≡ Err DeskFault.AppendFailed → K.unsettled keeper.new ≡ true }
        ensures faults { CountsFaults (K.faults keeper.old) (K.faults keeper.new) (IsErrOf result DeskFault.AppendFailed) }
    {
        match judge(alloc, self.setup(), bytes)? {
            Judgement::Refused(offset) => Ok(Answered::Bad(offset)),
            Judgement::Denied(file) => Ok(Answered::Sent(denied(alloc, at, file, envelope)?)),
            Judgement::Poll(user, file) => {
                Ok(Answered::Sent(self.polled(alloc, at, user, &file, envelope)?))
            }
            Judgement::Event(user, file) => {
                let event = Event::File(user, file);
                Ok(Answered::Sent(self.commit(alloc, keeper, at, event, envelope)?))
            }
        }
    }

    /// The reply to a poll of a user, who is one of the setup's.
    fn polled<E: Envelope>(
        &self,
        alloc: Global,
        at: Moment,
        user: UserId,
        file: &RequestFile,
        envelope: E,
    ) -> Result<Vec<u8>, OutOfMemory>
        requires moment { IsMoment at.0 }
        requires known { user.0 < length self.now.setup.users }
        requires poll { polls.is_poll file.now ≡ true }
        ensures { IfOk result (λ line. line.items
            ≡ E.sent envelope (reply_text (polls.poll_reply self.now.setup self.now.state user at file.now))) }
    {
        let reply = self.engine.book().poll(alloc, user, file, at)?;
        envelope.wrap(alloc, &reply)
    }
}

/// The reply to a file whose signon failed.
fn denied<E: Envelope>(
    alloc: Global,
    at: Moment,
    file: RequestFile,
    envelope: E,
) -> Result<Vec<u8>, OutOfMemory>
    requires { IsMoment at.0 }
    ensures { IfOk result (λ line. line.items ≡ E.sent envelope (reply_text (rules.denial file at))) }
{
    let reply = denial_text(alloc, at, file)?;
    envelope.wrap(alloc, &reply)
}

impl Drop for Desk {
    fn drop(self) {
        let Desk { engine: _ } = self;
    }
}
