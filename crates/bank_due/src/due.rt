//! A run of due work.

ghost use Rattle.std.specs.Prelude.{◌≡◌, ◌<◌, IfOk};
ghost use Rattle.ofx_types.specs.Calendar.{IsMoment};
ghost use Rattle.bank_model.specs.DueRun.{run_length};
ghost use Rattle.bank_due.specs.DueRuns.{RunsDue, id_in};
ghost use Rattle.bank_shared.specs.Holds.{IsPassOf, caller_of};

use crate::advancer::Advancer;
use crate::caller::Caller;
use crate::fault::DueFault;
use bank_engine::MAX_DUE_EVENTS;
use bank_model::{Event, Printer};
use bank_shared::{Advance, Bank, BankName, Pass};
use ofx_ports::{Gate, Keeper};
use ofx_types::Moment;
use std::sync::Wait;

/// Makes what is due at a moment happen, one event after another, until nothing is due, and answers how many they were: fewer
/// than 100,000.
///
/// - `Left(id)`: 100,000 events have happened in this call, and the last look found the transfer or recurring transfer `id` due.
/// - `Keeper(n)`: the keeper's count of faults rose to n in the last look of this call.
/// - `OutOfMemory`.
///
/// Other callers' calls may come between two events.
///
/// ```rust
/// use bank_due::due_run;
/// use bank_model::Setup;
/// use bank_shared::{Bank, Opened};
/// use ofx_file::OfxPrinter;
/// use ofx_ports::{MemKeeper, OpenGate};
/// use ofx_types::Moment;
/// use std::hash::RandomState;
/// use std::marker::Brand;
///
/// let alloc = rt.alloc();
/// let bytes = b"OFXBANK 1\nBANK 1\nLEAD 5\nWINDOW 3\nENTRIES 99\n\
///     USER alice secret\nACCT 1001 CHECKING 0 alice\n";
/// let setup = Setup::read(alloc, bytes).expect(&rt, "a setup");
/// let keys = RandomState::new(&rt).expect(&rt, "keys");
/// let Ok(opened) = Opened::open(alloc, keys, MemKeeper::new(alloc), setup, OfxPrinter) else {
///     panic!(rt; "a bank");
/// };
/// let (bank, mut pass) = Bank::<Brand, _, _>::begin(opened);
/// assert!(rt; due_run(&bank, &rt, &mut pass, Moment(1_706_702_400), &OpenGate) == Ok(0));
/// ```
pub fn due_run<R: Wait, N: BankName, K: Keeper, P: Printer, G: Gate>(
    bank: &Bank<N, K, P>,
    rt: &R,
    pass: &mut Pass,
    at: Moment,
    gate: &G,
) -> Result<u32, DueFault>
    requires moment { IsMoment at.0 }
    requires pass { IsPassOf N.setup N.opening N.board pass.old }
    ensures runs { RunsDue N.setup at (caller_of N.opening pass.old) (caller_of N.opening pass.new) result }
    ensures pass { IsPassOf N.setup N.opening N.board pass.new }
    ensures few { IfOk result (λ count. count < run_length) }
{
    let mut caller = Caller {
        rt,
        bank,
        pass,
        gate,
    };
    run_due(rt, &mut caller, at)
}

/// Makes what is due at a moment happen, one event after another, until nothing is due, and answers how many they were.
///
/// An event that was due and may no longer happen, since another one came between, isn't counted.
#[tactic(auto, unfolding(bank_model::specs::DueRun::run_length))]
pub fn run_due<R: Wait, A: Advancer>(rt: &R, advancer: &mut A, at: Moment) -> Result<u32, DueFault>
    requires moment { IsMoment at.0 }
    requires ready { A.ready advancer.old }
    ensures runs { RunsDue (A.setup advancer.old) at (A.knows advancer.old) (A.knows advancer.new) result }
    ensures setup { A.setup advancer.new ≡ A.setup advancer.old }
    ensures through { A.through advancer.new ≡ A.through advancer.old }
    ensures ready { A.ready advancer.new }
    ensures few { IfOk result (λ count. count < run_length) }
{
    let mut count = 0;
    for _ in rt.forever() {
        match advancer.advance(at)? {
            Advance::Done(event) => {
                count += 1;
                if count == MAX_DUE_EVENTS {
                    return Err(DueFault::Left(id_of(&event)));
                }
            }
            Advance::Gone(_) => {}
            Advance::Nothing => return Ok(count as u32),
        }
    }
    unreachable!()
}

/// The transfer or recurring transfer of an event that was due: such an event posts the one, or makes one of the other.
fn id_of(event: &Event) -> u64
    ensures { result ≡ id_in event.now }
{
    match event {
        Event::Post(id) => *id,
        Event::Spawn(model, _) => *model,
        _ => 0,
    }
}
