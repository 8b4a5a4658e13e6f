//! One exchange over the link: a file is sent, and the reply to it is read.

ghost use Rattle.std.specs.Prelude.{◌≡◌, ◌≤◌, vec_capacity, IfOk};
ghost use Rattle.std.specs.Io.KnownBytes.{Keeps};
ghost use Rattle.ofx_types.specs.PrintedFile.{file_text};
ghost use Rattle.ofx_file.specs.Printable.{IsPrintableFile};
ghost use Rattle.http_link.specs.Responses.{HoldsReply};
ghost use Rattle.client_run.specs.Exchange as rules;
ghost use Rattle.client_run.specs.Exchange.{with_pass, request_bytes, Sends, Receives, Exchanges};
ghost use Rattle.client_run.specs.Stopping as stopping;

use crate::stop::CallStop;
use http_link::{CallFault, Incoming, Response, next_reply, post};
use ofx_file::{read_reply, write_request};
use ofx_ports::{Failed, Link};
use ofx_types::{Duplicate, FileFault, Moment, OutOfMemory, ReplyFile, RequestFile, Text};
use std::alloc::Global;

/// Room for the head of a request.
const HEAD_ROOM: usize = 512;

/// The code of a reply that has a reply file as its body.
const OK: u16 = 200;

/// Why no reply came.
pub(crate) fn call_stop(fault: CallFault) -> CallStop
    ensures { result ≡ stopping.call_stop fault }
{
    match fault {
        CallFault::ReadFault => CallStop::ReadFailed,
        CallFault::BadHead => CallStop::BadHead,
        CallFault::Cut(count) => CallStop::Cut(count),
        CallFault::OutOfMemory => CallStop::NoMemory,
    }
}

/// Why a body is no reply file.
fn body_stop(fault: FileFault) -> CallStop
    ensures { result ≡ stopping.body_stop fault }
{
    match fault {
        FileFault::Header(at) | FileFault::Syntax(at) | FileFault::Form(at) => {
            CallStop::BadReply(at)
        }
        FileFault::OutOfMemory => CallStop::NoMemory,
    }
}

/// The file with the password of the arguments.
fn signed(pass: &Text, file: &RequestFile) -> Result<RequestFile, OutOfMemory>
    ensures { IfOk result (λ signed. signed ≡ with_pass pass.now file.now) }
{
    Ok(RequestFile {
        version: file.version,
        older: file.older.copy()?,
        newer: file.newer.copy()?,
        user: file.user.copy()?,
        pass: pass.copy()?,
        asks: file.asks.copy()?,
    })
}

/// The file in its printed form, with the password of the arguments, as it was made at that moment.
fn written(
    alloc: Global,
    pass: &Text,
    file: &RequestFile,
    at: Moment,
) -> Result<Vec<u8>, OutOfMemory>
    requires { IsPrintableFile file.now at }
    ensures { IfOk result (λ text. text.items ≡ file_text (with_pass pass.now file.now) at) }
{
    let file = signed(pass, file)?;
    write_request(alloc, &file, at)
}

/// Sends the request of a file.
fn send<L: Link>(
    alloc: Global,
    link: &mut L,
    pass: &Text,
    file: &RequestFile,
    at: Moment,
) -> Result<(), CallStop>
    requires { IsPrintableFile file.now at }
    ensures sends { Sends (request_bytes pass.now file.now at) (L.held link.old) (L.held link.new)
        (L.write_faults link.old) (L.write_faults link.new) result }
    ensures unread { Keeps (L.left link.old) (L.left link.new) }
    ensures reads { L.read_faults link.new ≡ L.read_faults link.old }
{
    let text = written(alloc, pass, file, at)?;
    let mut room = head_room(alloc)?;
    match post(&mut room, link, &text) {
        Ok(()) => Ok(()),
        Err(Failed) => Err(CallStop::WriteFailed),
    }
}

/// Room for the head of a request.
fn head_room(alloc: Global) -> Result<Vec<u8>, OutOfMemory>
    ensures { IfOk result (λ room. 512 ≤ vec_capacity room) }
{
    Ok(Vec::with_capacity(alloc, HEAD_ROOM)?)
}

/// The reply file that is the body of a reply at the start of the bytes that have come.
#[tactic(auto, using(crate::proofs::Received::body_unfound, crate::proofs::Received::body_spelled))]
fn body_of(alloc: Global, bytes: &[u8], answer: Response) -> Result<ReplyFile, CallStop>
    requires { HoldsReply bytes.now answer }
    ensures { rules.ReadsBody bytes.now answer result }
{
    if answer.code != OK {
        return Err(CallStop::Http(answer.code));
    }
    match read_reply(alloc, &bytes[answer.head..answer.size]) {
        Ok(reply) => Ok(reply),
        Err(fault) => Err(body_stop(fault)),
    }
}

/// Reads the next reply, and uses up its bytes where it brings a reply file.
#[tactic(auto, using(crate::proofs::Received::prefix_used))]
fn receive<L: Link>(
    alloc: Global,
    incoming: &mut Incoming,
    link: &mut L,
) -> Result<ReplyFile, CallStop>
    ensures receives { Receives incoming.old
        (record { left = L.left link.old; sent = L.held link.old; read_faults = L.read_faults link.old; write_faults = L.write_faults link.old })
        incoming.new
        (record { left = L.left link.new; sent = L.held link.new; read_faults = L.read_faults link.new; write_faults = L.write_faults link.new })
        result }
    ensures unwritten { Keeps (L.held link.old) (L.held link.new) }
    ensures writes { L.write_faults link.new ≡ L.write_faults link.old }
{
    match next_reply(incoming, link) {
        Ok(answer) => {
            let reply = body_of(alloc, incoming.bytes(), answer)?;
            incoming.consume(answer.size);
            Ok(reply)
        }
        Err(fault) => Err(call_stop(fault)),
    }
}

/// Sends a file that was made at that moment, and reads the reply to it.
pub(crate) fn exchange<L: Link>(
    alloc: Global,
    incoming: &mut Incoming,
    link: &mut L,
    pass: &Text,
    file: &RequestFile,
    at: Moment,
) -> Result<ReplyFile, CallStop>
    requires { IsPrintableFile file.now at }
    ensures { Exchanges (request_bytes pass.now file.now at) incoming.old
        (record { left = L.left link.old; sent = L.held link.old; read_faults = L.read_faults link.old; write_faults = L.write_faults link.old })
        incoming.new
        (record { left = L.left link.new; sent = L.held link.new; read_faults = L.read_faults link.new; write_faults = L.write_faults link.new })
        result }
{
    send(alloc, link, pass, file, at)?;
    receive(alloc, incoming, link)
}
