//! The bank of a rehearsal, and its clients.

ghost use Rattle.std.specs.Prelude.{◌≡◌, ◌<◌, ◌≤◌, [], length, slice_index_or, IfOk};
ghost use Rattle.ofx_types.specs.TextRules.{trimmed};
ghost use Rattle.bank_model.specs.SetupForm.{lines_of};
ghost use Rattle.bank_model.specs.Sound.{IsTextWithin};
ghost use Rattle.client_core.specs.ClientForm.{new_client};
ghost use Rattle.ofx_world.specs.Rehearsal as rules;
ghost use Rattle.ofx_world.specs.Rehearsal.{ended, number_names, rehearsed_setup, rehearsed_clients};
ghost use Rattle.ofx_world.specs.World.{Begins};

use crate::world::World;
use bank_model::{Setup, SetupFault};
use client_core::Client;
use ofx_types::{AcctKind, AcctName, OutOfMemory, Text};
use std::alloc::Global;
use std::hash::RandomState;

/// Three users with an account each, and one account that belongs to all of them.
const SETUP: &[u8] = b"OFXBANK 1\n\
    BANK 1\n\
    LEAD 2\n\
    WINDOW 4\n\
    ENTRIES 9999999999\n\
    USER u0 p\n\
    USER u1 p\n\
    USER u2 p\n\
    ACCT 100 CHECKING 100000 u0\n\
    ACCT 101 CHECKING 100000 u1\n\
    ACCT 102 CHECKING 100000 u2\n\
    ACCT 103 CHECKING 100000 u0 u1 u2\n";

/// A world in which nothing has happened yet.
#[tactic(auto, using(crate::proofs::Rehearsed::within, crate::proofs::Rehearsed::new_clients))]
pub(crate) fn rehearsed_world(alloc: Global, keys: RandomState) -> Result<World, OutOfMemory>
    ensures { IfOk result (Begins rehearsed_setup rehearsed_clients) }
{
    World::new(alloc, keys, setup(alloc)?, clients(alloc)?)
}

/// The bytes of the setup.
fn setup_bytes() -> &'static [u8]
    ensures lines { result.now ≡ ended (lines_of rehearsed_setup) }
    ensures small { length result.now ≤ 262144 }
{
    SETUP
}

#[tactic(auto, using(crate::proofs::Rehearsed::spelled), unfolding(bank_model::specs::SetupOutcome::Answers))]
fn setup(alloc: Global) -> Result<Setup, OutOfMemory>
    ensures { IfOk result (λ setup. setup ≡ rehearsed_setup) }
{
    match Setup::read(alloc, setup_bytes()) {
        Ok(setup) => Ok(setup),
        Err(SetupFault::OutOfMemory) => Err(OutOfMemory),
        Err(SetupFault::SetupLine(_)) => unreachable!(),
    }
}

/// A client for each user.
fn clients(alloc: Global) -> Result<Vec<Client>, OutOfMemory>
    ensures { IfOk result (λ clients. clients.items ≡ rehearsed_clients) }
{
    let mut clients = Vec::new(alloc);
    clients.push(client(alloc, b"k0", b"u0")?)?;
    clients.push(client(alloc, b"k1", b"u1")?)?;
    clients.push(client(alloc, b"k2", b"u2")?)?;
    Ok(clients)
}

/// A new client of a name that a client may have.
fn client(alloc: Global, name: &[u8], user: &[u8]) -> Result<Client, OutOfMemory>
    requires { IsTextWithin 32 (trimmed user.now) }
    ensures { IfOk result (λ client. client ≡ new_client (trimmed name.now) (trimmed user.now)) }
{
    match Client::new(alloc, text(alloc, name)?, text(alloc, user)?) {
        Ok(client) => Ok(client),
        Err(_) => Err(OutOfMemory),
    }
}

/// The account of a number from 0 to 3.
pub(crate) fn account(alloc: Global, number: u32) -> Result<AcctName, OutOfMemory>
    requires { number < 4 }
    ensures { IfOk result (λ account. account ≡ rules.account number) }
{
    Ok(AcctName {
        bank: text(alloc, b"1")?,
        number: text(alloc, number_name(number))?,
        kind: AcctKind::Checking,
    })
}

/// By what the account of a number is known.
#[tactic(auto, using(crate::proofs::Rehearsed::last_name))]
fn number_name(number: u32) -> &'static [u8]
    requires { number < 4 }
    ensures { trimmed result.now ≡ slice_index_or number_names number [] }
{
    match number {
        0 => b"100",
        1 => b"101",
        2 => b"102",
        _ => b"103",
    }
}

/// The text of a few letters.
pub(crate) fn text(alloc: Global, letters: &[u8]) -> Result<Text, OutOfMemory>
    ensures { IfOk result (λ text. text ≡ trimmed letters.now) }
{
    match Text::new(alloc, letters, 32) {
        Ok(text) => Ok(text),
        Err(_) => Err(OutOfMemory),
    }
}
