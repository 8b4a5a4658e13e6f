//! How a reply is taken in.

ghost use Rattle.std.specs.Prelude.{◌≡◌, ◌++◌, map, Ok, IfOk, IfErr, OnOk, OnErr};
ghost use Rattle.client_core.specs.Accepting as rules;
ghost use Rattle.client_core.specs.ReportLines.{IsRefusal};
ghost use Rattle.client_core.specs.Taking.{reported_of, GivesTaken};

use crate::answering::first_unanswered;
use crate::fault::ClientFault;
use crate::report::{Report, ReportLines};
use crate::reporting::report_replies;
use crate::stores::open_store;
use client_saved::{ClientState, Stores, is_same_object};
use client_store::Store;
use ofx_types::{
    Ask, AskReply, Duplicate, FileUid, OutOfMemory, ReplyFile, RequestFile, SyncAsk, SyncReply,
};
use std::alloc::Global;

/// What a reply was taken into, before the client has it.
#[derive(Drop)]
struct Taken {
    /// The file that it answers.
    done: Option<FileUid>,
    /// The stores after it.
    stores: Stores,
    /// The lines that report it.
    lines: ReportLines,
}

// ---- stores

/// Takes a reply into a store, where this is the object's.
fn accept_if_asked(store: &mut Store, ask: &SyncAsk, reply: &SyncReply) -> Result<(), OutOfMemory>
    ensures { OnOk result (store.new ≡ rules.taken_by ask.now reply.now store.old) }
{
    if is_same_object(store.object(), &ask.object) {
        return store.take(&ask.kind, reply);
    }
    Ok(())
}

fn accept_each(stores: &mut [Store], ask: &SyncAsk, reply: &SyncReply) -> Result<(), OutOfMemory>
    ensures { OnOk result (stores.new ≡ map (rules.taken_by ask.now reply.now) stores.old) }
{
    for store in stores.iter_mut() {
        accept_if_asked(store, ask, reply)?;
    }
    Ok(())
}

fn accept_sync(
    alloc: Global,
    stores: &mut Vec<Store>,
    ask: &SyncAsk,
    reply: &SyncReply,
) -> Result<(), OutOfMemory>
    ensures { OnOk result (stores.new.items ≡ rules.taken_into ask.now reply.now stores.old.items) }
{
    open_store(alloc, &ask.object, stores)?;
    accept_each(stores.as_mut_slice(), ask, reply)
}

fn accept_one(
    alloc: Global,
    stores: &mut Vec<Store>,
    ask: &Ask,
    reply: &AskReply,
) -> Result<(), OutOfMemory>
    ensures { OnOk result (stores.new.items ≡ rules.stores_with ask.now reply.now stores.old.items) }
{
    match (ask, reply) {
        (Ask::Sync(ask), AskReply::Sync(reply)) => accept_sync(alloc, stores, ask, reply),
        _ => Ok(()),
    }
}

/// Takes each reply into the stores in its turn, and adds the lines that report it.
fn accept_all(
    alloc: Global,
    stores: &mut Vec<Store>,
    lines: &mut ReportLines,
    asks: &[Ask],
    replies: &[AskReply],
) -> Result<(), OutOfMemory>
    ensures stores { OnOk result (stores.new.items ≡ rules.stores_after asks.now replies.now stores.old.items) }
    ensures lines { OnOk result (lines.new ≡ lines.old ++ rules.lines_along asks.now replies.now stores.old.items) }
{
    let mut left = asks;
    let mut reported = replies;
    while let [ask, rest @ ..] = left {
        let [reply, others @ ..] = reported else {
            return Ok(());
        };
        accept_one(alloc, stores, ask, reply)?;
        report_replies(alloc, ask, reply, stores, lines)?;
        left = rest;
        reported = others;
    }
    Ok(())
}

// ---- the reply

fn accept_replies(
    alloc: Global,
    client: &ClientState,
    file: &RequestFile,
    replies: &[AskReply],
) -> Result<Taken, OutOfMemory>
    ensures { IfOk result (λ taken. reported_of client.now taken ≡ rules.with_replies client.now file.now replies.now) }
{
    let mut stores = client.stores.copy()?.into_vec();
    let mut lines = ReportLines::new(alloc);
    accept_all(alloc, &mut stores, &mut lines, file.asks.items(), replies)?;
    Ok(Taken {
        done: file.newer.copy()?,
        stores: Stores::from_vec(stores),
        lines,
    })
}

/// Whether two files bear one name, or none.
fn is_same_name(name: &Option<FileUid>, other: &Option<FileUid>) -> bool
    ensures { result ≡ rules.same_name name.now other.now }
{
    match (name, other) {
        (Some(name), Some(other)) => name.as_bytes() == other.as_bytes(),
        (None, None) => true,
        _ => false,
    }
}

/// Why a reply to a file is refused, if it is. Takes no memory.
fn refusal_for(file: &RequestFile, reply: &ReplyFile) -> Option<ClientFault>
    ensures { result ≡ rules.refusal_for file.now reply.now }
{
    if !is_same_name(&file.newer, &reply.newer) {
        return Some(ClientFault::NotMine);
    }
    if reply.signon != 0 {
        return Some(ClientFault::Signon(reply.signon));
    }
    match first_unanswered(file.asks.items(), reply.replies.items()) {
        Some(number) => Some(ClientFault::Shape(number)),
        None => None,
    }
}

fn accept_for(
    alloc: Global,
    client: &ClientState,
    file: &RequestFile,
    reply: &ReplyFile,
) -> Result<Taken, ClientFault>
    ensures { GivesTaken client.now (rules.accepted_for client.now file.now reply.now) result }
{
    match refusal_for(file, reply) {
        Some(fault) => Err(fault),
        None => Ok(accept_replies(alloc, client, file, reply.replies.items())?),
    }
}

#[tactic(auto, unfolding(crate::specs::Accepting::accepted))]
fn take(alloc: Global, client: &ClientState, reply: &ReplyFile) -> Result<Taken, ClientFault>
    ensures { GivesTaken client.now (rules.accepted client.now reply.now) result }
{
    match &client.outstanding {
        Some(kept) => accept_for(alloc, client, &kept.file, reply),
        None => Err(ClientFault::NotMine),
    }
}

/// Takes the reply to the outstanding file in. After any refusal the client is as before.
pub(crate) fn accept(
    alloc: Global,
    client: &mut ClientState,
    reply: &ReplyFile,
) -> Result<Report, ClientFault>
    ensures accepted { IfOk result (λ report. rules.accepted client.old reply.now
        ≡ Ok (record { after = client.new; lines = report.lines })) }
    ensures refusal { IfErr result (λ fault. IsRefusal (rules.accepted client.old reply.now) fault) }
    ensures err { OnErr result (client.new ≡ client.old) }
{
    let taken = take(alloc, client, reply)?;
    client.done = taken.done;
    client.outstanding = None;
    client.stores = taken.stores;
    Ok(Report { lines: taken.lines })
}
