//! What holds of kept records and of the banks that open from them. Nothing here runs: each contract is a law.

ghost use Rattle.bank_replay.specs.Laws.{ReopeningsAreRuns, RunsReopen, ReopenedBooksAreRight, OneOpening, OneWithoutForm, OneNotLegal, FormlessOrIllegal, FormlessOpenNothing, IllegalOpenNothing};

use bank_invariants::laws::files::files_are_kept_once;
use bank_invariants::laws::money::{money_stays, no_account_is_overdrawn};
use bank_invariants::laws::uids::uids_work_once;
use event_codec::laws::{
    faults_code_nothing, one_coding, one_record_fault, one_reopening, reopening_goes_on,
};

/// Records open a bank exactly where they are those of a run of legal events from its opening on, and it is in the state
/// that the run leaves.
pub fn reopenings_are_runs()
    ensures run { ReopeningsAreRuns }
    ensures back { RunsReopen }
{}

/// In a bank that opens from records no user's uid is used up twice, no file of a user has two kept replies, all balances
/// together are all openings together, and no balance is below zero.
pub fn reopened_books_are_right()
    ensures { ReopenedBooksAreRight }
{
    reopenings_are_runs();
    uids_work_once();
    files_are_kept_once();
    money_stays();
    no_account_is_overdrawn();
}

/// Records bring a bank to one state at most.
pub fn one_opening()
    ensures { OneOpening }
{
    one_reopening();
}

/// Records have one cause at most why no bank opens from them.
pub fn one_cause()
    ensures formless { OneWithoutForm }
    ensures illegal { OneNotLegal }
    ensures apart { FormlessOrIllegal }
{
    one_coding();
    faults_code_nothing();
    one_record_fault();
    one_reopening();
    reopening_goes_on();
}

/// No bank opens from records that have such a cause.
pub fn causes_open_nothing()
    ensures formless { FormlessOpenNothing }
    ensures illegal { IllegalOpenNothing }
{
    one_coding();
    faults_code_nothing();
    one_reopening();
    reopening_goes_on();
}
