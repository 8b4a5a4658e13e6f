//! A client's half of the world: what it knows, and its saved text.

ghost use Rattle.std.specs.Prelude.{◌≡◌, ◌↔◌, IfOk, IsTrue, MatchOption};
ghost use Rattle.std.specs.Option.{option_map};
ghost use Rattle.ofx_types.specs.Calendar.{IsMoment};
ghost use Rattle.ofx_types.specs.FileForm.{SpellsReply};
ghost use Rattle.bank_model.specs.SetupForm.{IsWithinLimits};
ghost use Rattle.bank_model.specs.SetupLookups.{user_of};
ghost use Rattle.ofx_file.specs.Printable.{IsPrintableFile};
ghost use Rattle.ofx_world.specs.Customer as rules;
ghost use Rattle.ofx_world.specs.Customer.{MayMake, MakesFile, MakesNone, IsSavedAs, TakesIn, Restarts, with_pass, pass_at};
ghost use Rattle.ofx_world.specs.Kept.{IsReply, IsUser};

use crate::fault::want_of_memory;
use crate::wishes::is_sound_wish;
use bank_model::Setup;
use client_core::{Client, ClientFault, Wish};
use client_laws::spelled_replies_are_sound;
use client_saved::StoreFault;
use ofx_file::laws::sound_files_are_printable;
use ofx_file::{read_reply, write_request};
use ofx_types::{Duplicate, Moment, OutOfMemory, ReplyFile, RequestFile, Sequence, Text};
use std::alloc::Global;
use std::marker::Model;

/// The number at which no further file has a name.
const MAX_NEXT: u64 = 9_999_999_999;

/// A client, with its saved text.
pub(crate) struct Customer {
    client: Client,
    saved: Sequence<u8>,
}

impl Model for Customer {
    ghost use Rattle.client_saved.specs.SavedText.{IsSavedText};
    ghost use Rattle.ofx_world.specs.Customer.{CustomerView};

    ghost Value = { CustomerView };

    ghost view = { λ c. record { client = c.client; saved = c.saved } };

    // A client saves whatever it comes to know.
    ghost invariant = { λ c. IsSavedText c.saved c.client };
}

impl Drop for Customer {
    fn drop(self) {
        let Customer {
            client: _,
            saved: _,
        } = self;
    }
}

impl Customer {
    /// A client that saves what it knows.
    pub(crate) fn new(client: Client) -> Result<Customer, OutOfMemory>
        ensures { IfOk result (λ customer. IsSavedAs client customer) }
    {
        let saved = Sequence::from_vec(client.save_text()?);
        Ok(Customer { client, saved })
    }

    /// The client, lent.
    pub(crate) fn client(&self) -> &Client
        ensures { result.now ≡ self.now.client }
    {
        &self.client
    }

    /// The client as it starts from its saved text.
    fn loaded(&self, alloc: Global) -> Result<Client, OutOfMemory>
        ensures { IfOk result (λ client. client ≡ self.now.client) }
    {
        match Client::load_text(alloc, self.saved.items()) {
            Ok(client) => Ok(client),
            Err(StoreFault::OutOfMemory) => Err(OutOfMemory),
            Err(StoreFault::Bad(_)) => unreachable!(),
        }
    }

    /// The customer whose client has started anew from its saved text.
    pub(crate) fn restarted(&self, alloc: Global) -> Result<Customer, OutOfMemory>
        ensures { IfOk result (λ customer. Restarts self.now customer) }
    {
        Ok(Customer {
            client: self.loaded(alloc)?,
            saved: Sequence::from_vec(Vec::from_slice(alloc, self.saved.items())?),
        })
    }

    /// Whether the client may make the file of a wish: nothing is outstanding, a number is left, and the wish is sound.
    fn may_make(&self, wish: &Wish) -> bool
        ensures { IsTrue result ↔ MayMake self.now.client wish.now }
    {
        self.client.outstanding().is_none() && self.client.next() < MAX_NEXT && is_sound_wish(wish)
    }

    /// The customer who has made the file of a wish and saved that, and the file as it is sent. None where no file is made. It is
    /// made by a client that starts from the saved text, so that where memory is refused nothing has happened.
    pub(crate) fn made(
        &self,
        alloc: Global,
        setup: &Setup,
        wish: &Wish,
        at: Moment,
    ) -> Result<Option<(Customer, Vec<u8>)>, OutOfMemory>
        requires moment { IsMoment at.0 }
        requires within { IsWithinLimits setup.now }
        requires user { IsUser setup.now self.now.client.user }
        ensures { IfOk result (λ done. MatchOption done (MakesNone self.now wish.now at)
            (λ pair. MakesFile setup.now self.now wish.now at pair.0 pair.1.items)) }
    {
        if !self.may_make(wish) {
            return Ok(None);
        }
        let mut client = self.loaded(alloc)?;
        match client.make_file(wish, at) {
            Ok(()) => {
                let customer = Customer::new(client)?;
                match customer.sent(alloc, setup)? {
                    Some(file) => Ok(Some((customer, file))),
                    None => unreachable!(),
                }
            }
            Err(ClientFault::OutOfMemory) => Err(OutOfMemory),
            Err(_) => Ok(None),
        }
    }

    /// The outstanding file as it is sent, where there is one: with the user's password, as it was made at its moment.
    pub(crate) fn sent(&self, alloc: Global, setup: &Setup) -> Result<Option<Vec<u8>>, OutOfMemory>
        requires within { IsWithinLimits setup.now }
        requires user { IsUser setup.now self.now.client.user }
        ensures { IfOk result (λ file. option_map (λ bytes. bytes.items) file ≡ option_map (rules.sent setup.now) self.now.client.outstanding) }
    {
        // For the proof alone: the outstanding file is sound, so it may be printed.
        self.client.known();
        sound_files_are_printable();
        let Some(file) = self.client.outstanding() else {
            return Ok(None);
        };
        match self.client.made_at() {
            Some(at) => Ok(Some(written(alloc, setup, file, at)?)),
            None => unreachable!(),
        }
    }

    /// The customer who has accepted a reply and saved that. None where the client refuses the reply.
    pub(crate) fn accepted(
        &self,
        alloc: Global,
        bytes: &[u8],
    ) -> Result<Option<Customer>, OutOfMemory>
        requires { IsReply bytes.now }
        ensures { IfOk result (λ done. MatchOption done (TakesIn self.now bytes.now self.now)
            (λ customer. TakesIn self.now bytes.now customer)) }
    {
        // For the proof alone: what bytes spell may be taken in.
        spelled_replies_are_sound();
        let reply = read(alloc, bytes)?;
        let mut client = self.loaded(alloc)?;
        match client.accept(&reply) {
            Ok(_report) => Ok(Some(Customer::new(client)?)),
            Err(ClientFault::OutOfMemory) => Err(OutOfMemory),
            Err(_) => Ok(None),
        }
    }
}

/// The reply file in these bytes.
fn read(alloc: Global, bytes: &[u8]) -> Result<ReplyFile, OutOfMemory>
    requires { IsReply bytes.now }
    ensures { IfOk result (λ reply. SpellsReply bytes.now reply) }
{
    match read_reply(alloc, bytes) {
        Ok(reply) => Ok(reply),
        Err(fault) => Err(want_of_memory(fault)),
    }
}

/// A file as it is sent, which was made at that moment.
#[tactic(auto, unfolding(crate::specs::Customer::sent))]
fn written(
    alloc: Global,
    setup: &Setup,
    file: &RequestFile,
    at: Moment,
) -> Result<Vec<u8>, OutOfMemory>
    requires within { IsWithinLimits setup.now }
    requires user { IsUser setup.now file.now.user }
    requires printable { IsPrintableFile file.now at }
    ensures { IfOk result (λ bytes. bytes.items ≡ rules.sent setup.now (record { at = at; file = file.now })) }
{
    let file = signed(setup, file)?;
    write_request(alloc, &file, at)
}

/// The file with the password that its user has in the setup.
fn signed(setup: &Setup, file: &RequestFile) -> Result<RequestFile, OutOfMemory>
    requires within { IsWithinLimits setup.now }
    requires user { IsUser setup.now file.now.user }
    ensures { IfOk result (λ signed. signed ≡ with_pass setup.now file.now) }
{
    Ok(RequestFile {
        version: file.version,
        older: file.older.copy()?,
        newer: file.newer.copy()?,
        user: file.user.copy()?,
        pass: password(setup, &file.user)?,
        asks: file.asks.copy()?,
    })
}

/// The password that a user of the setup has.
fn password(setup: &Setup, name: &Text) -> Result<Text, OutOfMemory>
    requires within { IsWithinLimits setup.now }
    requires user { IsUser setup.now name.now }
    ensures { IfOk result (λ pass. pass ≡ pass_at setup.now (user_of setup.now name.now)) }
{
    match setup.user(name) {
        Some(user) => setup.users.items()[user.0 as usize].pass.copy(),
        None => unreachable!(),
    }
}
