//! What holds of polls. Nothing here runs: the contract is a law.

ghost use Rattle.bank_connection.specs.NewestTokens.{NewestAreReported};

/// The reply to a poll of a bank that is in a state is the one over the newest tokens of that state,
/// which are no older than its entries and are numbers of them.
pub fn newest_are_reported()
    ensures { NewestAreReported }
{}
