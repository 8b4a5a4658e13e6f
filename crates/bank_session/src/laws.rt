//! What is written is determined, and the books are kept: laws over the definitions.

ghost use Rattle.bank_session.specs.Determined.{OneSplitting, OneRefusal, RefusedIsUnanswered, RefusedIsUndenied, DeniedIsUnanswered, WhereAnswered, WherePolled, WhereDenied, WhereRefused, OnlyWhereRefused, OneDueRun, OneLine, OneOutput};
ghost use Rattle.bank_session.specs.Answers.{IsPrefixKept, IsKeptWhereRefused};
ghost use Rattle.bank_session.specs.BooksKept.{RunsReopen, StoppedRunsReopen, UnwrittenRunsReopen, LettersReopen, RunsKeepTheBooks};

use bank_invariants::laws::due::{due_work_is_legal, due_work_is_one};
use bank_replay::laws::reopened_books_are_right;
use event_codec::laws::reopening_goes_on;
use ofx_file::laws::{faults_spell_nothing, one_fault, one_file};

/// An input is split into frames in one way: of two splittings one goes on where the other stops.
pub fn one_splitting()
    ensures { OneSplitting }
{}

/// A file is refused at one offset, and is neither an event then nor denied.
pub fn one_refusal()
    ensures offset { OneRefusal }
    ensures unanswered { RefusedIsUnanswered }
    ensures undenied { RefusedIsUndenied }
{
    one_fault();
    faults_spell_nothing();
}

/// The signon of a file succeeds or fails, and never both.
pub fn one_signon()
    ensures { DeniedIsUnanswered }
{
    one_file();
}

/// The framed reply is written where a file is an event, the framed newest tokens where it is a poll, the framed denial
/// where its signon fails, and exactly where it is refused the line with its offset. A record is kept of an event alone.
pub fn exact_lines()
    ensures answered { WhereAnswered }
    ensures polled { WherePolled }
    ensures denied { WhereDenied }
    ensures refused { WhereRefused }
    ensures only { OnlyWhereRefused }
{
    one_file();
    one_refusal();
    one_signon();
}

/// What is due at a moment is done in one order, to one end.
pub fn one_due_run()
    ensures { OneDueRun }
{
    due_work_is_one();
}

/// For a frame at a moment there is one line, one list of records, and one state after it.
pub fn one_line()
    ensures { OneLine }
{
    exact_lines();
    one_due_run();
}

/// Turns over the same frames at the same moments, from the same state, write the same bytes, keep the same records and
/// leave the same state.
pub fn one_output()
    ensures { OneOutput }
{
    one_line();
}

/// The records from which a bank opened and those of the turns after it bring a bank to the state in which the turns left
/// it, so that the next run goes on from there.
pub fn runs_reopen()
    ensures { RunsReopen }
{
    due_work_is_legal();
    reopening_goes_on();
}

/// The same where a run stopped within a frame, whose records come after those of the turns. It stopped because an append failed,
/// whether or not its record landed; because memory was refused; or because the line couldn't be written. The next run finds none
/// of them illegal. With no turns, and a call for due work as the frame, this is the command `due`.
pub fn stopped_runs_reopen()
    ensures unkept { StoppedRunsReopen IsPrefixKept }
    ensures refused { StoppedRunsReopen IsKeptWhereRefused }
    ensures unwritten { UnwrittenRunsReopen }
{
    due_work_is_legal();
    reopening_goes_on();
}

/// The same of the command `mail`, whose record is that of no turn: the next run goes on from after the letter, also where
/// its append failed and the record landed.
pub fn letters_reopen()
    ensures { LettersReopen }
{
    reopening_goes_on();
}

/// Whatever records a bank opens from and whatever frames it answers then, no user's uid is used up twice, no file of a
/// user has two kept replies, all balances together are all openings together, and no balance is below zero.
pub fn runs_keep_the_books()
    ensures { RunsKeepTheBooks }
{
    runs_reopen();
    reopened_books_are_right();
}
