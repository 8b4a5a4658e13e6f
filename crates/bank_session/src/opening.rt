//! The desk of a run opens from the records of its bank.

ghost use Rattle.std.specs.Prelude.{◌≡◌, ◌≤◌, false, IfOk, IfErr};
ghost use Rattle.ofx_ports.specs.Known.{Stays};
ghost use Rattle.bank_model.specs.SetupForm.{IsWithinLimits};
ghost use Rattle.bank_replay.specs.Opening.{RecordsGive};
ghost use Rattle.bank_opening.specs.RecordsRead.{StopsOpening};

use bank_desk::Desk;
use bank_model::Setup;
use bank_opening::{Stop, opening_stop};
use ofx_ports::Keeper;
use std::alloc::Global;
use std::hash::RandomState;

/// The bank of that setup, in the state after the records that are kept.
pub fn open_desk<K: Keeper>(
    alloc: Global,
    keys: RandomState,
    setup: Setup,
    keeper: &mut K,
) -> Result<Desk, Stop>
    requires within { IsWithinLimits setup }
    requires settled { K.unsettled keeper.old ≡ false }
    ensures setup { IfOk result (λ desk. desk.setup ≡ setup) }
    ensures holds { IfOk result (λ desk. RecordsGive setup (K.records keeper.old) desk.state) }
    ensures stops { IfErr result (StopsOpening setup (K.records keeper.old) (K.faults keeper.old) (K.faults keeper.new)) }
    ensures list { Stays (K.records keeper.old) (K.records keeper.new) }
    ensures settled { K.unsettled keeper.new ≡ false }
    ensures later { K.faults keeper.old ≤ K.faults keeper.new }
{
    match Desk::open(alloc, keys, setup, keeper) {
        Ok(desk) => Ok(desk),
        Err(fault) => Err(opening_stop(fault)),
    }
}
