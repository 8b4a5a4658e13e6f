//! Laws of whole runs. Nothing here runs: each contract is a law of what `client_told` promises.

ghost use Rattle.client_run.specs.Exact.{RefusesArguments, RefusesOthers, RefusesText, OnlyRefusesThese, OnlyRefusesFaults, OnlyBrokenStores, OnlyBrokenReads, OnlyBrokenWrites, WholeRepliesDecide, UnfinishedRepliesCut, BadHeadsEnd};
ghost use Rattle.client_run.specs.GoingOn.{GoesOn};
ghost use Rattle.client_run.specs.Run.{OrderRunsAreRuns};
ghost use Rattle.client_run.specs.Complete.{AcceptsTheBanks};

use client_laws::bank_replies_answer;
use client_saved::laws::{faults_save_nothing, one_first_fault, one_state};
use http_front::laws::{bad_heads_stay, heads_stay, one_head};
use ofx_file::laws::{faults_spell_no_reply, one_reply};

/// What is said of runs by their arguments holds of `order_told`, which the program calls with the order of its arguments.
pub fn order_runs_are_runs()
    ensures { OrderRunsAreRuns }
{}

/// A run is refused for its words, or for a store of another client or user or with no number left, exactly where that is so, and
/// for a text without a form exactly where that is so, as far as the text can be loaded and memory is there.
pub fn exact_refusals()
    ensures arguments { RefusesArguments }
    ensures others { RefusesOthers }
    ensures faults { RefusesText }
    ensures only { OnlyRefusesThese }
    ensures only_faults { OnlyRefusesFaults }
{
    one_state();
    faults_save_nothing();
    one_first_fault();
}

/// A run ends with the status of a failed call of the store only where such a call failed in it.
pub fn broken_stores()
    ensures { OnlyBrokenStores }
{}

/// A run ends with the status of a failed read only where a read of the link failed in it, and with that of a failed write only
/// where a write of the link or of the output did.
pub fn broken_links()
    ensures reads { OnlyBrokenReads }
    ensures writes { OnlyBrokenWrites }
{}

/// What comes of a call is decided by the bytes that the bank sends, as far as no read or write fails and memory is there: by the
/// code and the body of a whole reply, where it ends within one, and where it sends no usable head.
pub fn exact_replies()
    ensures whole { WholeRepliesDecide }
    ensures unfinished { UnfinishedRepliesCut }
    ensures bad { BadHeadsEnd }
{
    one_head();
    heads_stay();
    bad_heads_stay();
}

/// A run goes on from where the one before it ended: where that one saved all that it was to save, the client that is found is
/// the one with which it ended.
pub fn runs_go_on()
    ensures { GoesOn }
{
    one_state();
    faults_save_nothing();
}

/// A client that sends the file that waits, and to which the bank answers that file, takes the reply in: it is then the client
/// that the rule makes of that reply, unless a read or a write fails or memory is refused.
pub fn bank_replies_are_accepted()
    ensures { AcceptsTheBanks }
{
    exact_replies();
    one_reply();
    faults_spell_no_reply();
    bank_replies_answer();
}
