//! What a board of tokens tells of a bank. Nothing here runs: each contract is a law.

ghost use Rattle.bank_callers.specs.Belonging.{StepsBelong, RunsBelong, LogsBelong};
ghost use Rattle.bank_callers.specs.Boards.{ObjectsAreCounted, StepsFollow, TokensAreFresh, TokensHold};

/// Each entry of a bank belongs to one of its setup's objects: an account's three, or a user's mail.
pub fn entries_belong()
    ensures steps { StepsBelong }
    ensures runs { RunsBelong }
    ensures logs { LogsBelong }
{}

/// The entries of an event may be published at the board of its bank.
pub fn steps_follow()
    ensures { StepsFollow }
{}

/// Tokens of a board are those of its bank: none is older, and none is invented.
pub fn tokens_are_the_banks()
    ensures counted { ObjectsAreCounted }
    ensures fresh { TokensAreFresh }
    ensures hold { TokensHold }
{}
