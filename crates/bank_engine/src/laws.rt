//! What holds of every bank between the calls of its engine, and of its log and its records. Nothing here runs: each contract is a
//! law.

ghost use Rattle.bank_engine.specs.Laws.{TruthGoesOn, LogsReopen};

/// What is true of a bank's journal stays true in each call of its engine.
pub fn truth_goes_on()
    ensures { TruthGoesOn }
{}

/// The records of a whole log lead from the state in which the bank opened to the one in which the log ends. The n-th event that was
/// answered or adopted has the n-th of them, and its reply is the bank's in the state to which the records before that one lead.
pub fn logs_reopen()
    ensures { LogsReopen }
{}
