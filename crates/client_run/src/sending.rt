//! The outstanding file: sent, answered, and what its reply makes of the client saved and reported.

ghost use Rattle.std.specs.Prelude.{◌≡◌, ◌≢◌, None, OnOk};
ghost use Rattle.std.specs.List.{AllByRecursion};
ghost use Rattle.client_core.specs.ReportLines.{IsSoundReply};
ghost use Rattle.client_run.specs.Sending as rules;
ghost use Rattle.client_run.specs.Sending.{SendsOutstanding};

use crate::calling::exchange;
use crate::keeping::save;
use crate::printing::print_lines;
use crate::stop::{CallStop, ClientStop};
use client_core::Client;
use client_laws::spelled_replies_are_sound;
use http_link::Incoming;
use ofx_file::laws::sound_files_are_printable;
use ofx_ports::{Link, PutFault, Sink, StoreKeeper};
use ofx_types::{ReplyFile, Text};
use std::alloc::Global;

/// The code of a reply that says that the bank can't read the file.
const BAD_REQUEST: u16 = 400;

/// Whether the bank says that it can't read the file.
fn is_bad_request(stop: CallStop) -> bool
    ensures { result ≡ rules.is_bad_request stop }
{
    match stop {
        CallStop::Http(code) => code == BAD_REQUEST,
        _ => false,
    }
}

/// What a run ends with after the last print.
pub(crate) fn print_end(reported: Result<(), PutFault>) -> Result<(), ClientStop>
    ensures { result ≡ rules.print_end reported }
{
    match reported {
        Ok(()) => Ok(()),
        Err(fault) => Err(ClientStop::Print(fault)),
    }
}

/// Gives the outstanding file up, and saves that.
fn give_up<S: StoreKeeper>(client: &mut Client, store: &mut S, stop: CallStop) -> ClientStop
    ensures { rules.GivesUpSo client.old stop (record { text = S.saved store.old; faults = S.faults store.old }) client.new
        (record { text = S.saved store.new; faults = S.faults store.new }) result }
{
    client.discard();
    match save(client, store) {
        Ok(()) => ClientStop::Call(stop),
        Err(fault) => ClientStop::Keep(fault),
    }
}

/// Takes the reply to the outstanding file in, saves the client, and prints what is reported of it.
#[tactic(auto, using(crate::proofs::Outstanding::accepted_frees))]
fn take<S: StoreKeeper, W: Sink>(
    alloc: Global,
    client: &mut Client,
    reply: &ReplyFile,
    store: &mut S,
    out: &mut W,
) -> Result<(), ClientStop>
    requires { AllByRecursion IsSoundReply reply.now.replies }
    ensures judges { rules.Judges client.old reply.now
        (record { text = S.saved store.old; faults = S.faults store.old })
        (record { held = W.held out.old; faults = W.faults out.old }) client.new
        (record { text = S.saved store.new; faults = S.faults store.new })
        (record { held = W.held out.new; faults = W.faults out.new }) result }
    ensures free { OnOk result (client.new.outstanding ≡ None) }
    ensures number { OnOk result (client.new.next ≡ client.old.next) }
{
    let report = match client.accept(reply) {
        Ok(report) => report,
        Err(fault) => return Err(ClientStop::Refused(fault)),
    };
    match save(client, store) {
        Ok(()) => print_end(print_lines(alloc, report.lines.items(), out)),
        Err(fault) => Err(ClientStop::Keep(fault)),
    }
}

/// Sends the outstanding file and reads the reply to it.
fn call<L: Link>(
    alloc: Global,
    client: &Client,
    pass: &Text,
    incoming: &mut Incoming,
    link: &mut L,
) -> Result<ReplyFile, CallStop>
    requires { client.now.outstanding ≢ None }
    ensures { rules.Calls pass.now client.now.outstanding incoming.old
        (record { left = L.left link.old; sent = L.held link.old; read_faults = L.read_faults link.old; write_faults = L.write_faults link.old })
        incoming.new
        (record { left = L.left link.new; sent = L.held link.new; read_faults = L.read_faults link.new; write_faults = L.write_faults link.new })
        result }
{
    client.known();
    sound_files_are_printable();
    match (client.outstanding(), client.made_at()) {
        (Some(file), Some(at)) => exchange(alloc, incoming, link, pass, file, at),
        _ => unreachable!(),
    }
}

/// Sends the outstanding file, and takes the reply to it in. A file that the bank can't read is given up.
pub(crate) fn send_outstanding<L: Link, S: StoreKeeper, W: Sink>(
    alloc: Global,
    client: &mut Client,
    pass: &Text,
    incoming: &mut Incoming,
    link: &mut L,
    store: &mut S,
    out: &mut W,
) -> Result<(), ClientStop>
    requires { client.old.outstanding ≢ None }
    ensures settles { SendsOutstanding pass.now client.old incoming.old
        (record { left = L.left link.old; sent = L.held link.old; read_faults = L.read_faults link.old; write_faults = L.write_faults link.old })
        (record { text = S.saved store.old; faults = S.faults store.old })
        (record { held = W.held out.old; faults = W.faults out.old })
        client.new incoming.new
        (record { left = L.left link.new; sent = L.held link.new; read_faults = L.read_faults link.new; write_faults = L.write_faults link.new })
        (record { text = S.saved store.new; faults = S.faults store.new })
        (record { held = W.held out.new; faults = W.faults out.new }) result }
    ensures free { OnOk result (client.new.outstanding ≡ None) }
    ensures number { OnOk result (client.new.next ≡ client.old.next) }
{
    spelled_replies_are_sound();
    match call(alloc, client, pass, incoming, link) {
        Ok(reply) => take(alloc, client, &reply, store, out),
        Err(stop) => {
            if is_bad_request(stop) {
                Err(give_up(client, store, stop))
            } else {
                Err(ClientStop::Call(stop))
            }
        }
    }
}
