//! A worker: one connection after another.

ghost use Rattle.std.specs.Prelude.{◌≡◌, ◌≤◌, ◌⊎◌, ℕ, [], ◌∷◌, Some, Result};
ghost use Rattle.ofx_ports.specs.Faults.{Rose};
ghost use Rattle.ofx_types.specs.declared.number.Moment.{Moment as TheMoment};
ghost use Rattle.bank_connection.specs.Connection.{around, Converses};
ghost use Rattle.bank_due.specs.declared.fault.DueFault.{DueFault as WhyLeft};
ghost use Rattle.http_link.specs.declared.served.Served.{Served as Ended};
ghost use Rattle.http_link.specs.declared.served.ServeError.{ServeError as WhyUnserved};
ghost use Rattle.bank_server.specs.Connected.{faces, door_view};
ghost use Rattle.bank_server.specs.Turns.{Works, DoesDueAt, missed_in, greatest};
ghost use Rattle.bank_shared.specs.Holds.{IsPassOf, caller_of};

use crate::connection::serve_connection;
use bank_due::{DueFault, due_run};
use bank_model::Printer;
use bank_shared::{Bank, BankName, Pass};
use ofx_ports::{Clock, Doorway, Failed, Gate, Keeper, Link};
use ofx_types::Status;
use std::alloc::Global;
use std::sync::Wait;

/// How a worker ended.
#[derive(Clone, Copy, Debug, PartialEq, Eq)]
pub struct WorkerEnd {
    /// The number of links that it served and handed back.
    pub served: u32,
    /// The number of its due runs that ended for want of memory.
    pub missed: u32,
    /// 0, or 5 where its doorway failed.
    pub status: Status,
}

/// Serves connections one after another: `most` of them, or 4,294,967,295 where that is 0. Before each it reads the clock and does
/// what is due at that moment; where this isn't done to its end, it goes on all the same. Each link that the doorway gives is
/// served to its end, and then handed back.
///
/// The status is 0 where it served as many as it may or the doorway was closed, and 5 where the doorway failed.
pub fn serve_worker<
    R: Wait,
    N: BankName,
    K: Keeper,
    P: Printer,
    L: Link,
    D: Doorway<L>,
    C: Clock,
    G: Gate,
>(
    bank: &Bank<N, K, P>,
    rt: &R,
    alloc: Global,
    pass: &mut Pass,
    door: &mut D,
    clock: &mut C,
    gate: &G,
    most: u32,
) -> WorkerEnd
    requires pass { IsPassOf N.setup N.opening N.board pass.old }
    ensures works { Works (faces L.left L.read_faults L.held L.write_faults) N.setup most
        (door_view (D.given door.old) (D.back door.old) (D.faults door.old) (D.closings door.old))
        (door_view (D.given door.new) (D.back door.new) (D.faults door.new) (D.closings door.new))
        (C.shown clock.old) (C.shown clock.new) (caller_of N.opening pass.old) (caller_of N.opening pass.new) result }
    ensures pass { IsPassOf N.setup N.opening N.board pass.new }
    ensures status { (result.status.0 ≡ 0) ⊎ (result.status.0 ≡ 5) }
    ensures full { result.status.0 ≡ 0 → (result.served ≡ greatest most) ⊎ Rose (D.closings door.old) (D.closings door.new) }
    ensures failed { result.status.0 ≡ 5 → Rose (D.faults door.old) (D.faults door.new) }
    ensures few { result.served ≤ greatest most }
{
    let limit = most_links(most);
    let mut served = 0;
    let mut missed = 0;
    while served < limit {
        missed += missed_due(bank, rt, pass, clock, gate);
        match door.accept() {
            Ok(Some(link)) => {
                door.ended(served_link(bank, rt, alloc, pass, link, clock, gate));
            }
            Ok(None) => return ended(served, missed, 0),
            Err(Failed) => return ended(served, missed, 5),
        }
        served += 1;
    }
    ended(served, missed, 0)
}

/// The most links of a worker.
fn most_links(most: u32) -> u32
    ensures { result ≡ greatest most }
{
    if most == 0 { u32::MAX } else { most }
}

/// Does what is due at the moment that the clock shows, and answers 1 where memory was refused for it, otherwise 0.
fn missed_due<R: Wait, N: BankName, K: Keeper, P: Printer, C: Clock, G: Gate>(
    bank: &Bank<N, K, P>,
    rt: &R,
    pass: &mut Pass,
    clock: &mut C,
    gate: &G,
) -> u32
    requires pass { IsPassOf N.setup N.opening N.board pass.old }
    ensures does { (at : TheMoment) × (due : Result ℕ WhyLeft)
        × DoesDueAt N.setup (C.shown clock.old) (C.shown clock.new) (caller_of N.opening pass.old) (caller_of N.opening pass.new) at due
        × (result ≡ missed_in (due ∷ [])) }
    ensures pass { IsPassOf N.setup N.opening N.board pass.new }
    ensures one { result ≤ 1 }
{
    let at = clock.now();
    let run = due_run(bank, rt, pass, at, gate);
    bank.known(pass);
    match run {
        Err(DueFault::OutOfMemory) => 1,
        _ => 0,
    }
}

/// A link that is served to its end.
fn served_link<R: Wait, N: BankName, K: Keeper, P: Printer, L: Link, C: Clock, G: Gate>(
    bank: &Bank<N, K, P>,
    rt: &R,
    alloc: Global,
    pass: &mut Pass,
    link: L,
    clock: &mut C,
    gate: &G,
) -> L
    requires pass { IsPassOf N.setup N.opening N.board pass.old }
    ensures serves { (answer : Result Ended WhyUnserved) × Converses N.setup
        (around (L.left link) (L.read_faults link) (L.held link) (L.write_faults link) (C.shown clock.old) (Some (caller_of N.opening pass.old)))
        (around (L.left result) (L.read_faults result) (L.held result) (L.write_faults result) (C.shown clock.new) (Some (caller_of N.opening pass.new)))
        answer }
    ensures pass { IsPassOf N.setup N.opening N.board pass.new }
{
    let mut link = link;
    // How the connection ended is for its peer alone: the next one is served all the same.
    let _ended = serve_connection(bank, rt, alloc, pass, &mut link, clock, gate);
    link
}

/// An end with this status.
fn ended(served: u32, missed: u32, status: u8) -> WorkerEnd
    ensures served { result.served ≡ served }
    ensures missed { result.missed ≡ missed }
    ensures status { result.status.0 ≡ status }
{
    WorkerEnd {
        served,
        missed,
        status: Status(status),
    }
}
