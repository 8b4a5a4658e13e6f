//! The records of a keeper, read in order into a book.

ghost use Rattle.std.specs.Prelude.{◌≡◌, ℕ, ◌∷◌, ◌≤◌, ◌⊎◌, [], false, IsSome, IsSomeAnd, IfOk, IfErr, OnOk, IsErrAnd, IsErrOf, MatchResult};
ghost use Rattle.ofx_ports.specs.Faults.{CountsFaults};
ghost use Rattle.ofx_ports.specs.Known.{Stays};
ghost use Rattle.bank_model.specs.declared.event.State.{State};
ghost use Rattle.bank_model.specs.Rules.{opening_state};
ghost use Rattle.bank_model.specs.SetupForm.{IsWithinLimits};
ghost use Rattle.event_codec.specs.Records.{Reopens};
ghost use Rattle.bank_solo.specs.Solo.{AreAccountsIn, AreAccountsOf};
ghost use Rattle.bank_replay.specs.Opening.{RecordsGive, HasNoForm, IsNotLegal, HasCause};
ghost use Rattle.bank_replay.specs.Replay.{IsKept, IsNotTaken, IsOfTheOutside};

use crate::fault::OpenFault;
use crate::laws::{causes_open_nothing, one_cause, one_opening};
use crate::replay::apply_record;
use bank_accounts::Account;
use bank_core::Book;
use bank_model::{Printer, Setup};
use bank_solo::SoloBank;
use event_codec::laws::reopening_goes_on;
use ofx_ports::Keeper;
use std::alloc::Global;
use std::hash::RandomState;

/// Opens the bank of that setup from the records that are kept: the book and its accounts are in the state after them. Clients'
/// names are found by hashes with these keys.
///
/// - `Read` only where the keeper's count of faults rose in this call.
/// - `Record(n, at)`: record n, from 1, is the first that codes no event, with the offset of its first fault.
/// - `Illegal(n)`: record n is the first whose event isn't legal after those before it.
/// - `OutOfMemory`.
///
/// ```rust
/// use bank_model::Setup;
/// use bank_replay::reopen;
/// use ofx_file::OfxPrinter;
/// use ofx_ports::{Keeper, MemKeeper};
/// use std::hash::RandomState;
///
/// let alloc = rt.alloc();
/// let bytes = b"OFXBANK 1\nBANK 1\nLEAD 5\nWINDOW 3\nENTRIES 99\n\
///     USER alice secret\nACCT 1001 CHECKING 500 alice\n";
/// let setup = Setup::read(alloc, bytes).expect(&rt, "a setup");
/// let keys = RandomState::new(&rt).expect(&rt, "keys");
/// // The record of a letter to the first user, with the subject `A` and the body `B`.
/// let mut keeper = MemKeeper::new(alloc);
/// let record = b"\x01\x04\0\0\0\0\x65\xba\x36\x40\0\0\0\0\0\x01A\0\x01B";
/// keeper.append(record).expect(&rt, "a record that is stored");
/// let (book, accounts) = reopen(alloc, keys, &mut keeper, setup, OfxPrinter).expect(&rt, "a bank");
/// assert!(rt; book.next_number() == Some(2) && accounts[0].balance().0 == 500);
/// ```
pub fn reopen<K: Keeper, P: Printer>(
    alloc: Global,
    keys: RandomState,
    keeper: &mut K,
    setup: Setup,
    printer: P,
) -> Result<(Book<P>, Vec<Account>), OpenFault>
    requires settled { K.unsettled keeper.old ≡ false }
    requires within { IsWithinLimits setup }
    ensures setup { IfOk result (λ opened. opened.0.setup ≡ setup) }
    ensures holds { IfOk result (λ opened. RecordsGive setup (K.records keeper.old) opened.0.state) }
    ensures accounts { IfOk result (λ opened. AreAccountsIn setup opened.0.state opened.1.items) }
    ensures own { IfOk result (λ opened. AreAccountsOf opened.0.tables opened.1.items) }
    ensures cause { IfErr result (HasCause setup (K.records keeper.old)) }

    // Where the records are known they decide the answer, unless a read fails or memory is refused.
    ensures opens { (state : State) → IsSomeAnd (K.records keeper.old) (λ all. Reopens setup opening_state all state)
        → MatchResult result (λ opened. opened.0.state ≡ state) IsOfTheOutside }
    ensures formless { (number offset : ℕ) → IsSome (K.records keeper.old) → HasNoForm setup (K.records keeper.old) number offset
        → IsErrAnd result (λ fault. (fault ≡ OpenFault.Record number offset) ⊎ IsOfTheOutside fault) }
    ensures illegal { (number : ℕ) → IsSome (K.records keeper.old) → IsNotLegal setup (K.records keeper.old) number
        → IsErrAnd result (λ fault. (fault ≡ OpenFault.Illegal number) ⊎ IsOfTheOutside fault) }

    ensures list { Stays (K.records keeper.old) (K.records keeper.new) }
    ensures settled { K.unsettled keeper.new ≡ false }
    ensures size { K.size keeper.new ≡ K.size keeper.old }
    ensures faults { CountsFaults (K.faults keeper.old) (K.faults keeper.new) (IsErrOf result OpenFault.Read) }
{
    one_opening();
    one_cause();
    causes_open_nothing();
    replay_all(alloc, keys, keeper, setup, printer)
}

/// Lets the events of all records happen, from the first one on.
fn replay_all<K: Keeper, P: Printer>(
    alloc: Global,
    keys: RandomState,
    keeper: &mut K,
    setup: Setup,
    printer: P,
) -> Result<(Book<P>, Vec<Account>), OpenFault>
    requires settled { K.unsettled keeper.old ≡ false }
    requires within { IsWithinLimits setup }
    ensures setup { IfOk result (λ opened. opened.0.setup ≡ setup) }
    ensures holds { IfOk result (λ opened. RecordsGive setup (K.records keeper.old) opened.0.state) }
    ensures accounts { IfOk result (λ opened. AreAccountsIn setup opened.0.state opened.1.items) }
    ensures own { IfOk result (λ opened. AreAccountsOf opened.0.tables opened.1.items) }
    ensures cause { IfErr result (HasCause setup (K.records keeper.old)) }
    ensures list { Stays (K.records keeper.old) (K.records keeper.new) }
    ensures settled { K.unsettled keeper.new ≡ false }
    ensures size { K.size keeper.new ≡ K.size keeper.old }
    ensures faults { CountsFaults (K.faults keeper.old) (K.faults keeper.new) (IsErrOf result OpenFault.Read) }
{
    reopening_goes_on();
    let mut bank = SoloBank::begin(alloc, keys, setup, printer)?;
    let mut rec = Vec::new(alloc);
    for before in 0..keeper.len() {
        replay_record(alloc, keeper, &mut bank, before + 1, &mut rec)?;
    }
    Ok(bank.into_parts(alloc)?)
}

/// Fetches the record of this number into `rec`, and lets its event happen.
fn replay_record<K: Keeper, P: Printer>(
    alloc: Global,
    keeper: &mut K,
    bank: &mut SoloBank<P>,
    number: u64,
    rec: &mut Vec<u8>,
) -> Result<(), OpenFault>
    requires settled { K.unsettled keeper.old ≡ false }
    requires first { 1 ≤ number }
    requires last { number ≤ K.size keeper.old }
    requires pool { bank.old.held ≡ [] }
    ensures setup { bank.new.setup ≡ bank.old.setup }
    ensures pool { bank.new.held ≡ [] }
    ensures kept { OnOk result (IsKept (K.records keeper.old) number rec.new.items) }
    ensures taken { OnOk result (Reopens bank.old.setup bank.old.state (rec.new.items ∷ []) bank.new.state) }
    ensures refused { IfErr result (λ fault. IsOfTheOutside fault
        ⊎ (IsKept (K.records keeper.old) number rec.new.items × IsNotTaken bank.old.setup bank.old.state number rec.new.items fault)) }
    ensures list { Stays (K.records keeper.old) (K.records keeper.new) }
    ensures settled { K.unsettled keeper.new ≡ false }
    ensures size { K.size keeper.new ≡ K.size keeper.old }
    ensures faults { CountsFaults (K.faults keeper.old) (K.faults keeper.new) (IsErrOf result OpenFault.Read) }
{
    keeper.fetch(number, rec)?;
    apply_record(alloc, bank, number, rec)
}
