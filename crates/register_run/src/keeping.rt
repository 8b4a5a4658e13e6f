//! The register that is kept: how it is opened, and how a run saves it and reports its accounts.

ghost use Rattle.std.specs.Prelude.{IsErrOf};
ghost use Rattle.ofx_ports.specs.Faults.{CountsFaults};
ghost use Rattle.ofx_ports.specs.Known.{Stays};
ghost use Rattle.register_run.specs.Keeping.{FindsIn, Finds, Prints, Saves, PrintsAccounts, ClosesSo};

use crate::stop::Stop;
use crate::tallies::accounts_text;
use file_register::{Register, RegisterFault};
use ofx_ports::{Failed, FetchFault, PutFault, Sink, StoreKeeper, write_whole};
use std::alloc::Global;

/// The register of a text.
fn register_in(alloc: Global, text: &[u8]) -> Result<Register, Stop>
    ensures { FindsIn text.now result }
{
    match Register::load_text(alloc, text) {
        Ok(register) => Ok(register),
        Err(RegisterFault::Bad(at)) => Err(Stop::BadStore(at)),
        Err(RegisterFault::OutOfMemory) => Err(Stop::NoMemory),
    }
}

/// The register that is kept.
#[tactic(auto, using(crate::proofs::KeepingLaws::finds_kept, crate::proofs::KeepingLaws::never_fetches))]
pub(crate) fn open_register<S: StoreKeeper>(alloc: Global, store: &mut S) -> Result<Register, Stop>
    ensures finds { Finds (S.saved store.old) result }
    ensures stays { Stays (S.saved store.old) (S.saved store.new) }
    ensures faults { CountsFaults (S.faults store.old) (S.faults store.new) (IsErrOf result Stop.StoreFailed) }
{
    let mut text = Vec::new(alloc);
    match store.load(&mut text) {
        Ok(()) => register_in(alloc, &text),
        Err(FetchFault::Failed) => Err(Stop::StoreFailed),
        Err(FetchFault::OutOfMemory) => Err(Stop::NoMemory),
    }
}

/// Prints bytes whole.
pub(crate) fn print<W: Sink>(bytes: &[u8], out: &mut W) -> Result<(), Stop>
    ensures prints { Prints bytes.now (W.held out.old) (W.held out.new) result }
    ensures faults { CountsFaults (W.faults out.old) (W.faults out.new) (IsErrOf result Stop.WriteFailed) }
{
    match write_whole(out, bytes) {
        Ok(()) => Ok(()),
        Err(Failed) => Err(Stop::WriteFailed),
    }
}

/// Saves the register.
fn save<S: StoreKeeper>(register: &Register, store: &mut S) -> Result<(), Stop>
    ensures saves { Saves register.now (S.saved store.old) (S.saved store.new) result }
    ensures faults { CountsFaults (S.faults store.old) (S.faults store.new) (IsErrOf result Stop.StoreFailed) }
{
    let text = register.save_text()?;
    match store.save(&text) {
        Ok(()) => Ok(()),
        Err(PutFault::Failed) => Err(Stop::StoreFailed),
        Err(PutFault::OutOfMemory) => Err(Stop::NoMemory),
    }
}

/// Prints a line of each account.
#[tactic(auto, using(crate::proofs::KeepingLaws::accounts_printed))]
fn print_accounts<W: Sink>(alloc: Global, register: &Register, out: &mut W) -> Result<(), Stop>
    ensures prints { PrintsAccounts register.now (W.held out.old) (W.held out.new) result }
    ensures faults { CountsFaults (W.faults out.old) (W.faults out.new) (IsErrOf result Stop.WriteFailed) }
{
    let lines = accounts_text(alloc, register.lines())?;
    print(&lines, out)
}

/// Saves the register, and then prints a line of each account.
#[tactic(auto, using(crate::proofs::KeepingLaws::unsaved, crate::proofs::KeepingLaws::saved_and_printed, crate::proofs::KeepingLaws::never_writes, crate::proofs::KeepingLaws::never_saves))]
pub(crate) fn close_register<S: StoreKeeper, W: Sink>(
    alloc: Global,
    register: &Register,
    store: &mut S,
    out: &mut W,
) -> Result<(), Stop>
    ensures closes { ClosesSo register.now (S.saved store.old) (W.held out.old) (S.saved store.new) (W.held out.new) result }
    ensures store { CountsFaults (S.faults store.old) (S.faults store.new) (IsErrOf result Stop.StoreFailed) }
    ensures out { CountsFaults (W.faults out.old) (W.faults out.new) (IsErrOf result Stop.WriteFailed) }
{
    save(register, store)?;
    print_accounts(alloc, register, out)
}
