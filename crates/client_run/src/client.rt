//! Whole runs of the customer's program.

ghost use Rattle.std.specs.Prelude.{◌≡◌, ◌<◌};
ghost use Rattle.client_run.specs.Commands.{Works};
ghost use Rattle.ofx_types.specs.declared.told.Told.{Told as WhatIsReported};
ghost use Rattle.client_run.specs.Run.{Runs, IsOrderRun, IsClientRun};

use crate::checking::check;
use crate::keeping::open_client;
use crate::making::act;
use crate::ports::Ports;
use crate::showing::show;
use crate::status::{plain, report_of_end};
use crate::stop::ClientStop;
use client_arguments::{ArgumentsFault, Order, order_of};
use client_core::{Client, Wish};
use ofx_ports::{Clock, Link, Sink, StoreKeeper};
use ofx_types::{Status, Text, Told};
use std::alloc::Global;

/// Does what is wished, with the client that was found.
#[tactic(auto, using(crate::proofs::Working::does_work))]
fn work<L: Link, S: StoreKeeper, C: Clock, W: Sink>(
    alloc: Global,
    client: &mut Client,
    order: &Order,
    link: &mut L,
    store: &mut S,
    clock: &mut C,
    out: &mut W,
) -> Result<(), ClientStop>
    requires { client.old.next < 9999999999 }
    ensures { Works order.now.pass order.now.wish client.old
        (⟦<(L, S, C, W) as Ports>⟧.seen (link.old, store.old, clock.old, out.old))
        (⟦<(L, S, C, W) as Ports>⟧.seen (link.new, store.new, clock.new, out.new)) result }
{
    match &order.wish {
        Wish::Show => show(alloc, client, out),
        Wish::Check(account) => check(alloc, client, &order.pass, account, link, clock, out),
        wish => act(alloc, client, &order.pass, wish, link, store, clock, out),
    }
}

/// Finds the client that is kept and does what is wished.
fn run<L: Link, S: StoreKeeper, C: Clock, W: Sink>(
    alloc: Global,
    order: &Order,
    link: &mut L,
    store: &mut S,
    clock: &mut C,
    out: &mut W,
) -> Result<(), ClientStop>
    ensures { Runs order.now
        (⟦<(L, S, C, W) as Ports>⟧.seen (link.old, store.old, clock.old, out.old))
        (⟦<(L, S, C, W) as Ports>⟧.seen (link.new, store.new, clock.new, out.new)) result }
{
    let mut client = match open_client(alloc, order, store) {
        Ok(client) => client,
        Err(fault) => return Err(ClientStop::Open(fault)),
    };
    work(alloc, &mut client, order, link, store, clock, out)
}

/// Does what the arguments order, over a link to the bank, and says how the run ended.
///
/// The arguments are PORT, STORE, CLIENT, USER, PASS, BANK and one command; PORT and STORE were used to open the link and the
/// store. The client in the store's text goes on from where it was; an empty text is a new client. For `show` it is printed
/// what the client keeps. For `check` a poll is sent, and the newest tokens of an account's objects are printed; nothing is
/// saved. For every other command a file that is outstanding from an earlier run is sent again first and its reply is taken in.
/// Then the file of the command is made at the moment that the clock shows and saved, and only then sent; its reply is taken
/// in, the client saved, and only then the lines that report it are printed (OFX 1.6, "File-Based Error Recovery", "Data
/// Synchronization").
///
/// | Status | Note | Where |
/// |---|---|---|
/// | 0 | | all was done, saved and printed |
/// | 2 | | the arguments have another form, or the store is another client's or user's, or no number is left for a file |
/// | 5 | | a read of the link failed |
/// | 6 | | a write of the link or of the output failed |
/// | 7 | | memory was refused |
/// | 8 | | a call of the store failed |
/// | 11 | the code | the reply's HTTP code isn't 200; after 400 the outstanding file is given up, and that is saved |
/// | 12 | an offset | the reply's body spells no reply file |
/// | 12 | the number of a reply, from 1 | this one doesn't answer what was asked |
/// | 13 | | the reply is to another file |
/// | 14 | the code | the signon failed |
/// | 15 | an offset | the store's text has no form |
/// | 16 | | the reply's head has no form or no usable length |
/// | 17 | a number of bytes | the link ended so far into the reply |
/// | 18 | an id | no store has the row that the command names |
///
/// With 2 and 15 nothing is sent, printed or saved. With 5, 11 to 14, 16 and 17 the file stays outstanding, but for 400.
///
/// ```rust
/// use client_run::client_told;
/// use ofx_ports::{MemClock, MemLink, MemSink, MemStore};
/// use ofx_types::{Moment, Status, Text};
///
/// let alloc = rt.alloc();
/// let mut arguments = Vec::new(alloc);
/// for word in "8080 alice.store c1 alice secret 121099999 show".split(' ') {
///     let word = Text::new(alloc, word.as_bytes(), 64).expect(&rt, "a word");
///     arguments.push(word).expect(&rt, "room");
/// }
/// // A new client keeps nothing, and nothing is sent to show that.
/// let mut link = MemLink::new(alloc, b"", 1024).expect(&rt, "a link");
/// let mut store = MemStore::new(alloc);
/// let mut clock = MemClock::new(alloc, &[Moment(0)]).expect(&rt, "a clock");
/// let mut out = MemSink::new(alloc, 1024).expect(&rt, "a sink");
/// let told = client_told(
///     alloc, &arguments, &mut link, &mut store, &mut clock, &mut out,
/// );
/// assert!(rt; told.status == Status(0) && link.held().is_empty());
/// assert!(rt; out.held() == b"client c1 next 1 done NONE\n".as_slice());
/// ```
pub fn client_told<L: Link, S: StoreKeeper, C: Clock, W: Sink>(
    alloc: Global,
    arguments: &[Text],
    link: &mut L,
    store: &mut S,
    clock: &mut C,
    out: &mut W,
) -> Told
    ensures { IsClientRun arguments.now
        (⟦<(L, S, C, W) as Ports>⟧.seen (link.old, store.old, clock.old, out.old))
        (⟦<(L, S, C, W) as Ports>⟧.seen (link.new, store.new, clock.new, out.new)) result }
{
    match order_of(arguments) {
        Ok(order) => order_told(alloc, &order, link, store, clock, out),
        Err(ArgumentsFault::Usage) => plain(2),
        Err(ArgumentsFault::OutOfMemory) => plain(7),
    }
}

/// Does what `client_told` does, by what its arguments order.
pub fn order_told<L: Link, S: StoreKeeper, C: Clock, W: Sink>(
    alloc: Global,
    order: &Order,
    link: &mut L,
    store: &mut S,
    clock: &mut C,
    out: &mut W,
) -> Told
    ensures { IsOrderRun order.now
        (⟦<(L, S, C, W) as Ports>⟧.seen (link.old, store.old, clock.old, out.old))
        (⟦<(L, S, C, W) as Ports>⟧.seen (link.new, store.new, clock.new, out.new)) result }
{
    report_of_end(run(alloc, order, link, store, clock, out))
}

/// Does what `client_told` does, and answers the status alone.
pub fn client_run<L: Link, S: StoreKeeper, C: Clock, W: Sink>(
    alloc: Global,
    arguments: &[Text],
    link: &mut L,
    store: &mut S,
    clock: &mut C,
    out: &mut W,
) -> Status
    ensures { (what : WhatIsReported) × (what.status ≡ result) × IsClientRun arguments.now
        (⟦<(L, S, C, W) as Ports>⟧.seen (link.old, store.old, clock.old, out.old))
        (⟦<(L, S, C, W) as Ports>⟧.seen (link.new, store.new, clock.new, out.new)) what }
{
    client_told(alloc, arguments, link, store, clock, out).status
}
