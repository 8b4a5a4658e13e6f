//! All workers of a server, each in a thread of its own.

ghost use Rattle.std.specs.Prelude.{◌≡◌, ℕ, [], IfOk, length, map, slice_get, Some};
ghost use Rattle.bank_server.specs.Connected.{faces, door_view};
ghost use Rattle.bank_server.specs.Turns.{Works};
ghost use Rattle.bank_server.specs.AllTurns.{first_other};
ghost use Rattle.bank_shared.specs.Holds.{IsPassOf, caller_of};
ghost use Rattle.bank_server.specs.declared.workers.Worked.{Worked as OneEnded};

use crate::jobs::{Job, jobs_for};
use crate::worker::{WorkerEnd, serve_worker};
use bank_model::Printer;
use bank_shared::{Bank, BankName, Opened, Pass};
use ofx_ports::{Clock, Doorway, Gate, Keeper, Link};
use ofx_types::{OutOfMemory, Status};
use std::alloc::Global;
use std::sync::Wait;
use std::thread::{Threads, map_vec};

/// A worker that has ended, with what it had.
#[derive(Drop)]
pub struct Worked<D: Drop, C: Drop> {
    /// Its doorway.
    pub door: D,
    /// Its clock.
    pub clock: C,
    /// Its pass of the bank.
    pub pass: Pass,
    /// How it ended.
    pub end: WorkerEnd,
}

/// How all workers ended.
#[derive(Drop)]
pub struct AllEnd<D: Drop, C: Drop> {
    /// The first status other than 0 among theirs, otherwise 0.
    pub status: Status,
    /// The workers, in their order.
    pub ends: Vec<Worked<D, C>>,
}

/// Begins the bank and serves it: a worker for each doorway and clock, in a thread of its own where one can be made, as
/// `serve_worker`. Ends when all of them have ended.
///
/// Each pass that comes back is one of this bank's, and what it has seen of the log is legal. After `OutOfMemory` some workers may
/// not have run.
pub fn serve_all<
    N: BankName + Send + Sync,
    R: Threads + Wait + Sync,
    K: Keeper + Send,
    P: Printer + Send + Sync,
    L: Link,
    D: Doorway<L>,
    C: Clock + Drop + Send,
    G: Gate + Sync,
>(
    rt: &R,
    alloc: Global,
    opened: Opened<K, P>,
    workers: Vec<(D, C)>,
    gate: &G,
    most: u32,
) -> Result<AllEnd<D, C>, OutOfMemory>
    requires setup { opened.setup ≡ N.setup }
    requires opening { opened.state ≡ N.opening }
    requires first { opened.opened ≡ N.first }
    requires board { opened.board ≡ N.board }
    requires tables { opened.tables ≡ N.tables }
    ensures count { IfOk result (λ all. length all.ends.items ≡ length workers.items) }
    ensures each { IfOk result (λ all. (i : ℕ) (worker : (D × C)) (worked : OneEnded D C) → slice_get workers.items i ≡ Some worker → slice_get all.ends.items i ≡ Some worked
        → IsPassOf N.setup N.opening N.board worked.pass × Works (faces L.left L.read_faults L.held L.write_faults) N.setup most
        (door_view (D.given worker.0) (D.back worker.0) (D.faults worker.0) (D.closings worker.0))
        (door_view (D.given worked.door) (D.back worked.door) (D.faults worked.door) (D.closings worked.door))
        (C.shown worker.1) (C.shown worked.clock) (record { opening = N.opening; seen = []; mine = []; polled = [] }) (caller_of N.opening worked.pass) worked.end) }
    ensures status { IfOk result (λ all. all.status.0 ≡ first_other (map (λ worked. worked.end.status.0) all.ends.items)) }
{
    let (bank, mut pass) = Bank::<N, K, P>::begin(opened);
    let jobs = jobs_for(alloc, &bank, &mut pass, workers)?;
    let ends = all_run(rt, alloc, &bank, jobs, gate, most)?;
    let status = first_status(&ends);
    Ok(AllEnd { status, ends })
}

/// Does the work of every worker, each in a thread of its own where one can be made, and gives how they ended in the same order.
fn all_run<
    N: BankName + Send + Sync,
    R: Threads + Wait + Sync,
    K: Keeper + Send,
    P: Printer + Send + Sync,
    L: Link,
    D: Doorway<L>,
    C: Clock + Drop + Send,
    G: Gate + Sync,
>(
    rt: &R,
    alloc: Global,
    bank: &Bank<N, K, P>,
    jobs: Vec<Job<N, D, C>>,
    gate: &G,
    most: u32,
) -> Result<Vec<Worked<D, C>>, OutOfMemory>
    ensures count { IfOk result (λ ends. length ends.items ≡ length jobs.items) }
    ensures each { IfOk result (λ ends. (i : ℕ) (job : _) (worked : OneEnded D C) → slice_get jobs.items i ≡ Some job → slice_get ends.items i ≡ Some worked
        → IsPassOf N.setup N.opening N.board worked.pass × Works (faces L.left L.read_faults L.held L.write_faults) N.setup most
        (door_view (D.given job.door) (D.back job.door) (D.faults job.door) (D.closings job.door))
        (door_view (D.given worked.door) (D.back worked.door) (D.faults worked.door) (D.closings worked.door))
        (C.shown job.clock) (C.shown worked.clock) (caller_of N.opening job.pass) (caller_of N.opening worked.pass) worked.end) }
{
    let run = |job: Job<N, D, C>| -> Worked<D, C>
        ensures { IsPassOf N.setup N.opening N.board result.pass × Works (faces L.left L.read_faults L.held L.write_faults) N.setup most
            (door_view (D.given job.door) (D.back job.door) (D.faults job.door) (D.closings job.door))
            (door_view (D.given result.door) (D.back result.door) (D.faults result.door) (D.closings result.door))
            (C.shown job.clock) (C.shown result.clock) (caller_of N.opening job.pass) (caller_of N.opening result.pass) result.end }
    { run_job(bank, rt, alloc, job, gate, most) };
    let ends = map_vec(rt, jobs, &run)?;
    Ok(ends)
}

/// The work of one worker, with what it had and how it ended.
fn run_job<
    N: BankName,
    R: Wait,
    K: Keeper,
    P: Printer,
    L: Link,
    D: Doorway<L>,
    C: Clock + Drop,
    G: Gate,
>(
    bank: &Bank<N, K, P>,
    rt: &R,
    alloc: Global,
    job: Job<N, D, C>,
    gate: &G,
    most: u32,
) -> Worked<D, C>
    ensures pass { IsPassOf N.setup N.opening N.board result.pass }
    ensures works { Works (faces L.left L.read_faults L.held L.write_faults) N.setup most
        (door_view (D.given job.door) (D.back job.door) (D.faults job.door) (D.closings job.door))
        (door_view (D.given result.door) (D.back result.door) (D.faults result.door) (D.closings result.door))
        (C.shown job.clock) (C.shown result.clock) (caller_of N.opening job.pass) (caller_of N.opening result.pass) result.end }
{
    let Job {
        mut door,
        mut clock,
        mut pass,
        name: _,
    } = job;
    let end = serve_worker(
        bank, rt, alloc, &mut pass, &mut door, &mut clock, gate, most,
    );
    Worked {
        door,
        clock,
        pass,
        end,
    }
}

/// The first status other than 0, or 0.
fn first_status<D: Drop, C: Drop>(ends: &[Worked<D, C>]) -> Status
    ensures { result.0 ≡ first_other (map (λ worked. worked.end.status.0) ends.now) }
{
    for worked in ends {
        if worked.end.status.0 != 0 {
            return worked.end.status;
        }
    }
    Status(0)
}
