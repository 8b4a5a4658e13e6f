//! What holds of money.

ghost use Rattle.std.specs.Prelude.{List, pos, ◌≡◌, ◌≤ℤ◌};
ghost use Rattle.ofx_types.specs.declared.number.AcctId.{AcctId};
ghost use Rattle.bank_model.specs.Ledger.{balance};
ghost use Rattle.bank_model.specs.Rules.{opening_state};
ghost use Rattle.bank_model.specs.SetupForm.{IsWithinLimits, openings};
ghost use Rattle.bank_model.specs.declared.setup.Setup.{Setup};
ghost use Rattle.bank_transfers.specs.Lawful.{PostsOnce};
ghost use Rattle.bank_transfers.specs.Together.{balances};
ghost use Rattle.bank_invariants.specs.Runs.{AreLegal, Happening, after_all};
ghost use Rattle.bank_invariants.specs.Unnamed.{UnnamedStay};

/// All balances together are all openings together.
pub fn money_stays()
    ensures { (setup : Setup) (run : List Happening) → IsWithinLimits setup → AreLegal setup opening_state run
        → balances setup (after_all setup opening_state run).entries ≡ openings setup.accounts }
{}

/// No balance is below zero.
pub fn no_account_is_overdrawn()
    ensures { (setup : Setup) (run : List Happening) (account : AcctId) → IsWithinLimits setup → AreLegal setup opening_state run
        → pos 0 ≤ℤ balance setup (after_all setup opening_state run).entries account }
{}

/// No transfer posts twice.
pub fn transfers_post_once()
    ensures { (setup : Setup) (run : List Happening) → IsWithinLimits setup → AreLegal setup opening_state run
        → PostsOnce (after_all setup opening_state run).entries }
{}

/// An account that an event doesn't name keeps its balance, so only those that it names need to be held for it.
pub fn unnamed_accounts_stay()
    ensures { UnnamedStay }
{}
