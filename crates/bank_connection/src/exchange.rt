//! One exchange of a connection.

ghost use Rattle.std.specs.Prelude.{◌≡◌, ◌<◌, ◌≤◌, ◌||◌, ◌==◌, ℕ, false, Ok, Option, List, length, take, IfSome, vec_capacity};
ghost use Rattle.ofx_types.specs.declared.number.Moment.{Moment};
ghost use Rattle.bank_model.specs.declared.setup.Setup.{Setup};
ghost use Rattle.http_link.specs.Requests.{IsRefusedByHead};
ghost use Rattle.bank_callers.specs.Callers.{CallerView, IsRightView};
ghost use Rattle.http_link.specs.Incoming.{HoldsWhole};
ghost use Rattle.bank_connection.specs.Answering.{reports_no_memory};
ghost use Rattle.bank_connection.specs.Connection.{around};
ghost use Rattle.bank_connection.specs.Steps.{closing, Exchanges};

use crate::answer::{Answer, answer_to};
use crate::office::Office;
use http_front::Head;
use http_link::{Incoming, Refusal, ServeError, send};
use ofx_ports::{Clock, Failed, Link};
use std::alloc::Global;

/// The most exchanges of a connection.
pub const MAX_EXCHANGES: u32 = 100;

/// Refuses a request of so many bytes for its head.
pub fn refuse<L: Link>(
    incoming: &mut Incoming,
    room: &mut Vec<u8>,
    link: &mut L,
    refusal: Refusal,
    size: usize,
) -> Result<(), ServeError>
    requires request { (size ≤ length incoming.old) × IsRefusedByHead (take size incoming.old) refusal }
    requires room { 512 ≤ vec_capacity room.old }
    ensures exchange { (setup : Setup) (number : ℕ) (shown : Option (List Moment)) (known : Option CallerView) →
        Exchanges setup number incoming.old incoming.new
        (around (L.left link.old) (L.read_faults link.old) (L.held link.old) (L.write_faults link.old) shown known)
        (around (L.left link.new) (L.read_faults link.new) (L.held link.new) (L.write_faults link.new) shown known)
        (closing result) }
    ensures reads { L.read_faults link.new ≡ L.read_faults link.old }
    ensures writes { L.write_faults link.old ≤ L.write_faults link.new }
{
    incoming.consume(size);
    match send(room, link, refusal.code(), refusal.body(), true) {
        Ok(()) => Ok(()),
        Err(Failed) => Err(ServeError::WriteFault),
    }
}

/// Answers a whole request of so many bytes, which is the exchange of this number, and returns whether the connection ends
/// after it. What it is answered is settled before a byte of the reply is written, and the head of the reply takes no memory.
pub fn exchange<O: Office, L: Link, C: Clock>(
    alloc: Global,
    office: &mut O,
    link: &mut L,
    clock: &mut C,
    incoming: &mut Incoming,
    room: &mut Vec<u8>,
    head: Head,
    size: usize,
    number: u32,
) -> Result<bool, ServeError>
    requires ready { O.ready office.old }
    requires few { number ≤ 100 }
    requires request { HoldsWhole incoming.old head size }
    requires room { 512 ≤ vec_capacity room.old }
    ensures exchange { Exchanges (O.setup office.old) number incoming.old incoming.new
        (around (L.left link.old) (L.read_faults link.old) (L.held link.old) (L.write_faults link.old) (C.shown clock.old) (O.knows office.old))
        (around (L.left link.new) (L.read_faults link.new) (L.held link.new) (L.write_faults link.new) (C.shown clock.new) (O.knows office.new))
        result }
    ensures goes_on { result ≡ Ok false → number < 100 }
    ensures setup { O.setup office.new ≡ O.setup office.old }
    ensures through { O.through office.new ≡ O.through office.old }
    ensures ready { O.ready office.new }
    ensures right { IfSome (O.knows office.new) (IsRightView (O.setup office.new)) }
    ensures reads { L.read_faults link.new ≡ L.read_faults link.old }
    ensures writes { L.write_faults link.old ≤ L.write_faults link.new }
{
    let answer = answer_to(alloc, office, clock, &incoming.bytes()[head.size..size]);
    incoming.consume(size);
    let closes = closes_after(&head, &answer, number);
    match send(room, link, answer.code(), answer.body(), closes) {
        Ok(()) => Ok(closes),
        Err(Failed) => Err(ServeError::WriteFault),
    }
}

/// Whether the connection ends after the reply of this number.
fn closes_after(head: &Head, answer: &Answer, number: u32) -> bool
    requires { number ≤ 100 }
    ensures value { result ≡ (head.now.last || reports_no_memory answer.now || number == 100) }
    ensures goes_on { result ≡ false → number < 100 }
{
    head.last || answer.is_no_memory() || number == MAX_EXCHANGES
}
