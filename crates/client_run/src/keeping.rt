//! The text that is kept: the client in it, and how a client is saved.

ghost use Rattle.std.specs.Prelude.{◌≡◌, ◌↔◌, IsTrue, IfOk, IfErr};
ghost use Rattle.bank_model.specs.Sound.{IsTextWithin};
ghost use Rattle.client_saved.specs.Bounds.{IsName};
ghost use Rattle.client_core.specs.ClientForm.{new_client};
ghost use Rattle.client_run.specs.Saves.{FindsIn, IsOurs, Opens, Saves};

use crate::stop::StoreOpenFault;
use client_arguments::Order;
use client_core::Client;
use ofx_ports::{PutFault, StoreKeeper};
use ofx_types::Duplicate;
use std::alloc::Global;

/// The number at which no further file has a name.
const MAX_NEXT: u64 = 9_999_999_999;

/// Whether the client is the one that the arguments name, for their user, and has a number left for a file.
fn is_ours(order: &Order, client: &Client) -> bool
    ensures { IsTrue result ↔ IsOurs order.now client.now }
{
    *client.name() == order.name && *client.user() == order.user && client.next() < MAX_NEXT
}

/// A new client of the name and the user of the arguments.
fn new_client(alloc: Global, order: &Order) -> Result<Client, StoreOpenFault>
    ensures found { IfOk result (λ client. client ≡ new_client order.now.name order.now.user) }
    ensures refused { IfErr result (λ fault. fault ≡ StoreOpenFault.OutOfMemory) }
{
    let client = Client::new(alloc, order.name.copy()?, order.user.copy()?);
    match client {
        Ok(client) => Ok(client),
        Err(_) => Err(StoreOpenFault::OutOfMemory),
    }
}

/// The client in a text, where it is the one that the arguments name.
#[tactic(auto, using(crate::proofs::Kept::new_found))]
fn client_in(alloc: Global, order: &Order, text: &[u8]) -> Result<Client, StoreOpenFault>
    ensures { FindsIn order.now text.now result }
{
    if text.is_empty() {
        return new_client(alloc, order);
    }
    let client = Client::load_text(alloc, text)?;
    if is_ours(order, &client) {
        Ok(client)
    } else {
        Err(StoreOpenFault::NotOurs)
    }
}

/// The client that is kept, where it is the one that the arguments name. An empty text is a new client.
#[tactic(auto, using(crate::proofs::Kept::found_in))]
pub(crate) fn open_client<S: StoreKeeper>(
    alloc: Global,
    order: &Order,
    store: &mut S,
) -> Result<Client, StoreOpenFault>
    ensures { Opens order.now (record { text = S.saved store.old; faults = S.faults store.old })
        (record { text = S.saved store.new; faults = S.faults store.new }) result }
{
    let mut text = Vec::new(alloc);
    store.load(&mut text)?;
    client_in(alloc, order, &text)
}

/// Saves what a client knows.
#[tactic(auto, using(crate::proofs::Kept::saved_so))]
pub(crate) fn save<S: StoreKeeper>(client: &Client, store: &mut S) -> Result<(), PutFault>
    ensures { Saves client.now (record { text = S.saved store.old; faults = S.faults store.old })
        (record { text = S.saved store.new; faults = S.faults store.new }) result }
{
    match client.save_text() {
        Ok(text) => store.save(&text),
        Err(_) => Err(PutFault::OutOfMemory),
    }
}
