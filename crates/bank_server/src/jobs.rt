//! What workers begin with.

ghost use Rattle.std.specs.Prelude.{◌≡◌, [], IfOk, map};
ghost use Rattle.bank_shared.specs.Holds.{IsPassOf};

use bank_model::Printer;
use bank_shared::{Bank, BankName, Pass};
use ofx_ports::Keeper;
use ofx_types::OutOfMemory;
use std::alloc::Global;
use std::marker::PhantomData;

/// What a worker begins with: its doorway, its clock, and a pass of the bank that `N` names, which has seen nothing.
#[derive(Drop)]
pub(crate) struct Job<N: BankName, D: Drop, C: Drop> {
    pub(crate) door: D,
    pub(crate) clock: C,
    pub(crate) pass: Pass,
    pub(crate) name: PhantomData<N>,
    ghost fresh: { pass ≡ record { table = N.board.table; seen = []; mine = []; polled = [] } },
}

/// What each worker begins with: its doorway, its clock and a pass of the bank.
pub(crate) fn jobs_for<N: BankName, K: Keeper, P: Printer, D: Drop, C: Drop>(
    alloc: Global,
    bank: &Bank<N, K, P>,
    pass: &mut Pass,
    workers: Vec<(D, C)>,
) -> Result<Vec<Job<N, D, C>>, OutOfMemory>
    requires pass { IsPassOf N.setup N.opening N.board pass.old }
    requires fresh { pass.old ≡ record { table = N.board.table; seen = []; mine = []; polled = [] } }
    ensures doors { IfOk result (λ jobs. map (λ job. job.door) jobs.items ≡ map (λ worker. worker.0) workers.items) }
    ensures clocks { IfOk result (λ jobs. map (λ job. job.clock) jobs.items ≡ map (λ worker. worker.1) workers.items) }
{
    let mut jobs = Vec::with_capacity(alloc, workers.len())?;
    for (door, clock) in workers {
        jobs.push(Job {
            door,
            clock,
            pass: bank.door(pass),
            name: PhantomData,
        })?;
    }
    Ok(jobs)
}
