//! What the records of a bank come to is determined: a law over the definitions.

ghost use Rattle.bank_opening.specs.OneBank.{OneBank};

use bank_replay::laws::{causes_open_nothing, one_cause, one_opening};

/// What the records of a bank come to is one thing: a state, a first record without a form, or a first one that isn't legal.
pub fn one_bank()
    ensures { OneBank }
{
    one_opening();
    one_cause();
    causes_open_nothing();
}
