//! Commands for which a file is made.

ghost use Rattle.std.specs.Prelude.{◌≡◌, ◌≢◌, ◌<◌, ℕ, List, [], None, OnOk};
ghost use Rattle.client_core.specs.Wishes.{IsSoundWish};
ghost use Rattle.client_run.specs.Commands.{Resumes, Makes, Acts};

use crate::keeping::save;
use crate::ports::Ports;
use crate::sending::send_outstanding;
use crate::stop::ClientStop;
use client_core::{Client, Wish};
use http_link::Incoming;
use ofx_ports::{Clock, Link, Sink, StoreKeeper};
use ofx_types::Text;
use std::alloc::Global;

/// Sends a file that is outstanding from an earlier run again, and takes its reply in. Nothing is outstanding then, and the
/// number of the next file is as before.
fn resume<L: Link, S: StoreKeeper, W: Sink>(
    alloc: Global,
    client: &mut Client,
    pass: &Text,
    incoming: &mut Incoming,
    link: &mut L,
    store: &mut S,
    out: &mut W,
) -> Result<(), ClientStop>
    requires { incoming.old ≡ [] }
    ensures resumes { Resumes pass.now client.old.outstanding client.old
        (record { left = L.left link.old; sent = L.held link.old; read_faults = L.read_faults link.old; write_faults = L.write_faults link.old })
        (record { text = S.saved store.old; faults = S.faults store.old })
        (record { held = W.held out.old; faults = W.faults out.old })
        client.new incoming.new
        (record { left = L.left link.new; sent = L.held link.new; read_faults = L.read_faults link.new; write_faults = L.write_faults link.new })
        (record { text = S.saved store.new; faults = S.faults store.new })
        (record { held = W.held out.new; faults = W.faults out.new }) result }
    ensures free { OnOk result (client.new.outstanding ≡ None) }
    ensures number { OnOk result (client.new.next ≡ client.old.next) }
{
    if client.outstanding().is_none() {
        return Ok(());
    }
    send_outstanding(alloc, client, pass, incoming, link, store, out)
}

/// Makes the file of the wish at the moment that the clock shows, and saves the client.
#[tactic(auto, using(crate::proofs::Outstanding::made_holds))]
fn make<S: StoreKeeper, C: Clock>(
    client: &mut Client,
    wish: &Wish,
    store: &mut S,
    clock: &mut C,
) -> Result<(), ClientStop>
    requires free { client.old.outstanding ≡ None }
    requires number { client.old.next < 9999999999 }
    requires wish { IsSoundWish wish.now }
    ensures makes { Makes wish.now client.old (record { text = S.saved store.old; faults = S.faults store.old }) (C.shown clock.old)
        client.new (record { text = S.saved store.new; faults = S.faults store.new }) (C.shown clock.new) result }
    ensures outstanding { OnOk result (client.new.outstanding ≢ None) }
{
    let at = clock.now();
    if let Err(fault) = client.make_file(wish, at) {
        return Err(ClientStop::Refused(fault));
    }
    match save(client, store) {
        Ok(()) => Ok(()),
        Err(fault) => Err(ClientStop::Keep(fault)),
    }
}

/// Sends an outstanding file first, then makes the file of the wish, saves it, sends it and takes its reply in.
pub(crate) fn act<L: Link, S: StoreKeeper, C: Clock, W: Sink>(
    alloc: Global,
    client: &mut Client,
    pass: &Text,
    wish: &Wish,
    link: &mut L,
    store: &mut S,
    clock: &mut C,
    out: &mut W,
) -> Result<(), ClientStop>
    requires number { client.old.next < 9999999999 }
    requires wish { IsSoundWish wish.now }
    ensures { Acts pass.now wish.now client.old
        (⟦<(L, S, C, W) as Ports>⟧.seen (link.old, store.old, clock.old, out.old))
        (⟦<(L, S, C, W) as Ports>⟧.seen (link.new, store.new, clock.new, out.new)) result }
{
    let mut incoming = Incoming::new(alloc);
    resume(alloc, client, pass, &mut incoming, link, store, out)?;
    make(client, wish, store, clock)?;
    send_outstanding(alloc, client, pass, &mut incoming, link, store, out)
}
