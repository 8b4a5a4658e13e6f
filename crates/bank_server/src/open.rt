//! How the bank opens to be served.

ghost use Rattle.std.specs.Prelude.{◌≡◌, ◌≢◌, false, IfOk, IfErr, IsErrAnd, ◌↔◌};
ghost use Rattle.ofx_ports.specs.Known.{Stays};
ghost use Rattle.ofx_types.specs.declared.told.Note.TheVariants.{Plain};
ghost use Rattle.bank_replay.specs.Opening.{RecordsGive};
ghost use Rattle.bank_opening.specs.Reports.{reported};
ghost use Rattle.bank_opening.specs.SetupRead.{IsSetupOf};
ghost use Rattle.bank_arguments.specs.Plans.{AreServeArguments, IsServeUsage};
ghost use Rattle.bank_server.specs.Opening.{outside, RefusesOpening};

use bank_arguments::{Plan, plan_of};
use bank_model::Printer;
use bank_model::laws::one_setup;
use bank_opening::laws::one_bank;
use bank_opening::{Stop, opening_stop, read_setup, report_of_end};
use bank_shared::Opened;
use ofx_ports::{Keeper, Source};
use ofx_types::{Text, Told};
use std::alloc::Global;
use std::hash::RandomState;

/// Judges the arguments of `serve`, reads the setup whole, and opens the bank from the records that the keeper has. Each
/// refusal hands the keeper back. Clients' names are found by hashes with these keys.
///
/// | Status | Note | Where |
/// |---|---|---|
/// | 2 | | the arguments have another form; nothing was read |
/// | 3 | the line of the fault, from 1 | the setup has no form or is past a limit |
/// | 5 | | a read of the setup failed |
/// | 8 | | a call of the keeper failed |
/// | 9 | the number of a record, from 1, and the offset of its first fault | this record is the first that codes no event |
/// | 9 | the number of a record, from 1 | this record is the first whose event isn't legal after those before it |
/// | 7 | | memory was refused |
pub fn serve_open<A: Source, K: Keeper, P: Printer>(
    alloc: Global,
    keys: RandomState,
    arguments: &[Text],
    setup: &mut A,
    keeper: K,
    printer: P,
) -> Result<(Plan, Opened<K, P>), (Told, K)>
    requires settled { K.unsettled keeper ≡ false }
    ensures usage { IsErrAnd result (λ refused. refused.0.status.0 ≡ 2) ↔ IsServeUsage arguments.now }
    ensures plain { IfErr result (λ refused. refused.0.status.0 ≡ 2 → refused.0 ≡ reported 2 Plain) }
    ensures unread { IsServeUsage arguments.now → setup.new ≡ setup.old }
    ensures plan { IfOk result (λ opened. AreServeArguments arguments.now opened.0) }
    ensures found { IfOk result (λ opened. IsSetupOf (A.left setup.old) opened.1.setup) }
    ensures holds { IfOk result (λ opened. RecordsGive opened.1.setup (K.records keeper) opened.1.state) }
    ensures opened { IfOk result (λ opened. opened.1.opened ≡ K.records keeper) }
    ensures list { IfOk result (λ opened. Stays (K.records keeper) opened.1.records) }
    ensures refused { IfErr result (λ refused. refused.0.status.0 ≢ 2 → RefusesOpening
        (outside (A.left setup.old) (A.faults setup.old) (K.records keeper) (K.faults keeper))
        (outside (A.left setup.new) (A.faults setup.new) (K.records refused.1) (K.faults refused.1)) refused.0) }
    ensures handed_back { IfErr result (λ refused. Stays (K.records keeper) (K.records refused.1)) }
    ensures settled { IfErr result (λ refused. K.unsettled refused.1 ≡ false) }
{
    let Some(plan) = plan_of(arguments) else {
        return Err((report_of_end(Err(Stop::Usage)), keeper));
    };
    match open_shared(alloc, keys, setup, keeper, printer) {
        Ok(opened) => Ok((plan, opened)),
        Err(refused) => Err(refused),
    }
}

/// Does what `serve_open` does with arguments that have their form: reads the setup whole, and opens the bank from the records
/// that the keeper has.
///
/// ```rust
/// use bank_server::open_shared;
/// use ofx_file::OfxPrinter;
/// use ofx_ports::{MemKeeper, MemSource};
/// use std::hash::RandomState;
///
/// let alloc = rt.alloc();
/// let bytes = b"OFXBANK 1\nBANK 1\nLEAD 5\nWINDOW 3\nENTRIES 99\n\
///     USER alice secret\nACCT 1001 CHECKING 0 alice\n";
/// let mut setup = MemSource::new(alloc, bytes).expect(&rt, "a source");
/// let keys = RandomState::new(&rt).expect(&rt, "keys");
/// let Ok(opened) = open_shared(alloc, keys, &mut setup, MemKeeper::new(alloc), OfxPrinter) else {
///     panic!(rt; "a bank without records");
/// };
/// drop(opened);
/// ```
pub fn open_shared<A: Source, K: Keeper, P: Printer>(
    alloc: Global,
    keys: RandomState,
    setup: &mut A,
    keeper: K,
    printer: P,
) -> Result<Opened<K, P>, (Told, K)>
    requires settled { K.unsettled keeper ≡ false }
    ensures formed { IfErr result (λ refused. refused.0.status.0 ≢ 2) }
    ensures found { IfOk result (λ opened. IsSetupOf (A.left setup.old) opened.setup) }
    ensures holds { IfOk result (λ opened. RecordsGive opened.setup (K.records keeper) opened.state) }
    ensures opened { IfOk result (λ opened. opened.opened ≡ K.records keeper) }
    ensures list { IfOk result (λ opened. Stays (K.records keeper) opened.records) }
    ensures refused { IfErr result (λ refused. RefusesOpening
        (outside (A.left setup.old) (A.faults setup.old) (K.records keeper) (K.faults keeper))
        (outside (A.left setup.new) (A.faults setup.new) (K.records refused.1) (K.faults refused.1)) refused.0) }
    ensures handed_back { IfErr result (λ refused. Stays (K.records keeper) (K.records refused.1)) }
    ensures settled { IfErr result (λ refused. K.unsettled refused.1 ≡ false) }
{
    one_setup();
    one_bank();
    let found = match read_setup(alloc, setup) {
        Ok(found) => found,
        Err(stop) => return Err((report_of_end(Err(stop)), keeper)),
    };
    match Opened::open(alloc, keys, keeper, found, printer) {
        Ok(opened) => Ok(opened),
        Err((fault, keeper)) => Err((report_of_end(Err(opening_stop(fault))), keeper)),
    }
}
