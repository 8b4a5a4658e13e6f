//! What is reported of the end of a run.

ghost use Rattle.std.specs.Prelude.{◌≡◌};
ghost use Rattle.client_run.specs.Stopping as rules;

use crate::stop::{CallStop, ClientStop, StoreOpenFault};
use client_core::ClientFault;
use ofx_ports::PutFault;
use ofx_types::{Note, Status, Told};

/// A status with its note.
fn noted(status: u8, note: Note) -> Told
    ensures { result ≡ rules.reported status note }
{
    Told {
        status: Status(status),
        note,
    }
}

/// A status alone.
pub(crate) fn plain(status: u8) -> Told
    ensures { result ≡ rules.reported status Note.Plain }
{
    noted(status, Note::Plain)
}

/// A status with one number.
fn numbered(status: u8, number: u64) -> Told
    ensures { result ≡ rules.reported status (Note.Place number) }
{
    noted(status, Note::Place(number))
}

fn report_of_open(fault: StoreOpenFault) -> Told
    ensures { result ≡ rules.reported_of_open fault }
{
    match fault {
        StoreOpenFault::NotOurs => plain(2),
        StoreOpenFault::Bad(at) => numbered(15, at),
        StoreOpenFault::Failed => plain(8),
        StoreOpenFault::OutOfMemory => plain(7),
    }
}

fn report_of_call(stop: CallStop) -> Told
    ensures { result ≡ rules.reported_of_call stop }
{
    match stop {
        CallStop::ReadFailed => plain(5),
        CallStop::WriteFailed => plain(6),
        CallStop::NoMemory => plain(7),
        CallStop::Http(code) => numbered(11, u64::from(code)),
        CallStop::BadReply(at) => numbered(12, at),
        CallStop::BadHead => plain(16),
        CallStop::Cut(count) => numbered(17, count),
    }
}

fn report_of_refusal(fault: ClientFault) -> Told
    ensures { result ≡ rules.reported_of_refusal fault }
{
    match fault {
        ClientFault::Shape(number) => noted(12, Note::Shape(number)),
        ClientFault::NotMine => plain(13),
        ClientFault::Signon(code) => numbered(14, u64::from(code)),
        ClientFault::NoRow(id) => numbered(18, id),
        ClientFault::BadName => plain(2),
        ClientFault::OutOfMemory => plain(7),
    }
}

fn report_of_save(fault: PutFault) -> Told
    ensures { result ≡ rules.reported_of_save fault }
{
    match fault {
        PutFault::Failed => plain(8),
        PutFault::OutOfMemory => plain(7),
    }
}

fn report_of_print(fault: PutFault) -> Told
    ensures { result ≡ rules.reported_of_print fault }
{
    match fault {
        PutFault::Failed => plain(6),
        PutFault::OutOfMemory => plain(7),
    }
}

/// What is reported of an end.
pub(crate) fn report_of_end(end: Result<(), ClientStop>) -> Told
    ensures { result ≡ rules.reported_of end }
{
    match end {
        Ok(()) => plain(0),
        Err(ClientStop::Open(fault)) => report_of_open(fault),
        Err(ClientStop::Call(stop)) => report_of_call(stop),
        Err(ClientStop::Refused(fault)) => report_of_refusal(fault),
        Err(ClientStop::Keep(fault)) => report_of_save(fault),
        Err(ClientStop::Print(fault)) => report_of_print(fault),
    }
}
