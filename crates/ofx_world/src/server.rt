//! The bank's half of the world: its book and accounts, its records, and what a failed append has left unsettled.

ghost use Rattle.std.specs.Prelude.{◌≡◌, ◌⊎◌, [], false, None, Some, length, OnOk, OnErr, IfOk};
ghost use Rattle.std.specs.Option.{option_map};
ghost use Rattle.ofx_types.specs.Calendar.{IsMoment};
ghost use Rattle.ofx_types.specs.declared.number.UserId.{UserId};
ghost use Rattle.ofx_types.specs.declared.request.RequestFile.{RequestFile};
ghost use Rattle.bank_model.specs.Polls.{is_poll};
ghost use Rattle.bank_model.specs.Rules.{IsLegal, due};
ghost use Rattle.bank_model.specs.SetupForm.{IsWithinLimits};
ghost use Rattle.bank_model.specs.declared.event.Event.{Event};
ghost use Rattle.bank_model.specs.declared.event.Event.TheVariants.{File};
ghost use Rattle.bank_solo.specs.Solo.{AreAccountsIn};
ghost use Rattle.bank_signon.specs.Signon.{IsOfUser, IsSignedOn};
ghost use Rattle.event_codec.specs.Coding.{coded};
ghost use Rattle.event_codec.specs.Records.{Codes};
ghost use Rattle.ofx_world.specs.Kept.{IsRequest};
ghost use Rattle.ofx_world.specs.Server.{fresh, settled, committed, reply_to, due_done, with_fault, WritesLetter, Restarts};

use crate::fault::want_of_memory;
use crate::keeper::FaultyKeeper;
use bank_accounts::Account;
use bank_core::Book;
use bank_engine::{Bare, Log, SoloEngine};
use bank_model::{Event, Setup, SubmitFault};
use bank_replay::reopen;
use ofx_file::{OfxPrinter, read_request};
use ofx_ports::Keeper;
use ofx_types::{Duplicate, Moment, OutOfMemory, RequestFile, Text, UserId};
use std::alloc::Global;
use std::hash::RandomState;
use std::marker::Model;

/// A bank on one thread, with its keeper.
pub(crate) struct Server {
    engine: SoloEngine<OfxPrinter>,
    keeper: FaultyKeeper,
    log: Log,
    keys: RandomState,
    alloc: Global,
}

impl Model for Server {
    ghost use Rattle.ofx_world.specs.Server.{ServerView};
    ghost use Rattle.ofx_world.specs.Kept.{Awaits, pending_seen};

    ghost Value = { ServerView };

    ghost view = { λ s. record {
      setup = s.engine.setup;
      state = s.engine.state;
      records = s.keeper.records;
      pending = pending_seen s.engine.pending s.keeper.unsettled;
      fault = s.keeper.fault;
    } };

    ghost invariant = { λ s. Awaits s.engine.setup s.engine.state s.engine.pending s.keeper.unsettled };
}

impl Server {
    /// A fresh bank of that setup: it has no records, and nothing is pending. Clients' names are found by hashes with these keys.
    pub(crate) fn begin(
        alloc: Global,
        keys: RandomState,
        setup: Setup,
    ) -> Result<Server, OutOfMemory>
        requires { IsWithinLimits setup }
        ensures { IfOk result (λ server. server ≡ fresh setup) }
    {
        let (book, accounts) = Book::begin(alloc, keys, setup, OfxPrinter)?;
        Ok(Server {
            engine: SoloEngine::new(alloc, book, accounts)?,
            keeper: FaultyKeeper::new(alloc),
            log: Log::new(),
            keys,
            alloc,
        })
    }

    /// The setup, lent.
    pub(crate) fn setup(&self) -> &Setup
        ensures setup { result.now ≡ self.now.setup }
        ensures within { IsWithinLimits self.now.setup }
    {
        self.engine.book().setup()
    }

    /// The book and the accounts of the bank, without its keeper.
    pub(crate) fn into_parts(
        self,
        alloc: Global,
    ) -> Result<(Book<OfxPrinter>, Vec<Account>), OutOfMemory>
        ensures setup { IfOk result (λ parts. parts.0.setup ≡ self.setup) }
        ensures state { IfOk result (λ parts. parts.0.state ≡ self.state) }
        ensures accounts { IfOk result (λ parts. AreAccountsIn self.setup self.state parts.1.items) }
    {
        let Server {
            engine,
            keeper: _,
            log: _,
            keys: _,
            alloc: _,
        } = self;
        engine.into_parts(alloc)
    }

    /// The number of records that aren't pending. Takes no memory.
    pub(crate) fn record_count(&self) -> u64
        ensures { result ≡ length self.now.records }
    {
        self.keeper.record_count()
    }

    /// Lets the next append fail, with its record or without it. Takes no memory.
    pub(crate) fn fail_next(&mut self, landed: bool)
        ensures { self.new ≡ with_fault self.old landed }
    {
        self.keeper.set_fault(Some(landed));
    }

    /// Settles what is pending: an event whose record is stored has happened at its moment. Takes no memory.
    pub(crate) fn settle(&mut self)
        ensures settled { self.new ≡ settled self.old }
        ensures pending { self.new.pending ≡ None }
    {
        match self.engine.settle(&mut self.keeper, &mut self.log) {
            Ok(_) => {}
            Err(_) => unreachable!(),
        }
    }

    /// Makes an event happen at that moment, once its record is kept, and gives its reply. Nothing is pending before. Where the
    /// append fails there is no reply, and the event is pending. Where memory is refused nothing has happened.
    fn commit(&mut self, event: Event, at: Moment) -> Result<Option<Vec<u8>>, OutOfMemory>
        requires moment { IsMoment at.0 }
        requires legal { IsLegal self.old.setup self.old.state at event }
        requires settled { self.old.pending ≡ None }
        ensures committed { OnOk result (self.new ≡ committed self.old at event) }
        ensures reply { IfOk result (λ reply. option_map (λ bytes. bytes.items) reply ≡ reply_to self.old at event) }
        ensures codes { OnOk result (Codes (coded at event) at event) }
        ensures refused { OnErr result (self.new ≡ self.old) }
    {
        match self.engine.commit(self.alloc, &mut self.keeper, &mut self.log, event, at, Bare) {
            Ok(reply) => Ok(Some(reply)),
            Err(SubmitFault::Keeper(_)) => Ok(None),
            Err(SubmitFault::OutOfMemory) => Err(OutOfMemory),
        }
    }

    /// The request file in these bytes, with the user who signs on.
    fn read(&self, bytes: &[u8]) -> Result<(UserId, RequestFile), OutOfMemory>
        requires { IsRequest self.now.setup bytes.now }
        ensures of_user { IfOk result (λ found. IsOfUser self.now.setup bytes.now found.0 found.1) }
        ensures no_poll { IfOk result (λ found. is_poll found.1 ≡ false) }
    {
        match read_request(self.alloc, bytes) {
            Ok(file) => match self.setup().signon(&file.user, &file.pass) {
                Some(user) => Ok((user, file)),
                None => unreachable!(),
            },
            Err(fault) => Err(want_of_memory(fault)),
        }
    }

    /// Answers a request that arrives at that moment. What is pending is settled first. None where the append fails.
    #[tactic(auto, using(crate::proofs::Serving::settled_setup))]
    pub(crate) fn deliver(
        &mut self,
        bytes: &[u8],
        at: Moment,
    ) -> Result<Option<Vec<u8>>, OutOfMemory>
        requires moment { IsMoment at.0 }
        requires request { IsRequest self.old.setup bytes.now }
        ensures answered { IfOk result (λ reply. (user : UserId) × (file : RequestFile) × IsSignedOn self.old.setup bytes.now file user
            × (self.new ≡ committed (settled self.old) at (File user file))
            × (option_map (λ bytes. bytes.items) reply ≡ reply_to (settled self.old) at (File user file))) }
        ensures refused { OnErr result ((self.new ≡ self.old) ⊎ (self.new ≡ settled self.old)) }
    {
        let (user, file) = self.read(bytes)?;
        self.settle();
        self.commit(Event::File(user, file), at)
    }

    /// Settles what is pending, and does the next of the due work, where there is any.
    #[tactic(auto, using(crate::proofs::Serving::settled_setup, crate::proofs::Serving::due_settled), unfolding(crate::specs::Server::due_done))]
    pub(crate) fn do_due(&mut self, at: Moment) -> Result<(), OutOfMemory>
        requires { IsMoment at.0 }
        ensures done { OnOk result (self.new ≡ due_done self.old at) }
        ensures codes { OnOk result ((event : Event) → due self.old.setup (settled self.old).state at ≡ Some event
            → Codes (coded at event) at event) }
        ensures refused { OnErr result ((self.new ≡ self.old) ⊎ (self.new ≡ settled self.old)) }
    {
        self.settle();
        match self.engine.book().due(at) {
            Some(event) => {
                let _reply = self.commit(event, at)?;
                Ok(())
            }
            None => Ok(()),
        }
    }

    /// Settles what is pending, and writes a letter, where it is legal.
    #[tactic(auto, using(crate::proofs::Serving::settled_setup))]
    pub(crate) fn write_letter(
        &mut self,
        user: UserId,
        subject: &Text,
        body: &Text,
        at: Moment,
    ) -> Result<(), OutOfMemory>
        requires { IsMoment at.0 }
        ensures written { OnOk result (WritesLetter self.old at user subject.now body.now self.new) }
        ensures refused { OnErr result ((self.new ≡ self.old) ⊎ (self.new ≡ settled self.old)) }
    {
        self.settle();
        let event = Event::Letter(user, subject.copy()?, body.copy()?);
        if !self.engine.book().legal(&event, at) {
            return Ok(());
        }
        let _reply = self.commit(event, at)?;
        Ok(())
    }

    /// Settles what is pending, and starts the bank anew from its records. A fault that is set stays set.
    #[tactic(auto, using(crate::proofs::Serving::settled_setup))]
    pub(crate) fn restart(&mut self) -> Result<(), OutOfMemory>
        ensures restarted { OnOk result (Restarts self.old self.new) }
        ensures refused { OnErr result ((self.new ≡ self.old) ⊎ (self.new ≡ settled self.old)) }
    {
        self.settle();
        let setup = self.setup().copy()?;
        let fault = self.keeper.fault();
        let opened = reopen(self.alloc, self.keys, &mut self.keeper, setup, OfxPrinter);
        self.keeper.set_fault(fault);
        match opened {
            Ok((book, accounts)) => {
                self.engine = SoloEngine::new(self.alloc, book, accounts)?;
                Ok(())
            }
            // By the world's invariant the records are the bank's own, and reading them never fails: it is memory that was refused.
            Err(_) => Err(OutOfMemory),
        }
    }
}

impl Drop for Server {
    fn drop(self) {
        let Server {
            engine: _,
            keeper: _,
            log: _,
            keys: _,
            alloc: _,
        } = self;
    }
}
