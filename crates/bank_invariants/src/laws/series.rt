//! What holds of the dates for which recurring transfers have made transfers.

ghost use Rattle.std.specs.Prelude.{ℕ, ◌<◌, List};
ghost use Rattle.bank_model.specs.declared.setup.Setup.{Setup};
ghost use Rattle.bank_model.specs.SetupForm.{IsWithinLimits};
ghost use Rattle.bank_model.specs.Rules.{opening_state};
ghost use Rattle.bank_invariants.specs.Runs.{Happening, after_all, AreLegal};
ghost use Rattle.bank_invariants.specs.Series.{dates_made, AreOwnDates};

/// Each transfer that a recurring one has made since it last began anew was made for a date of its own.
pub fn transfers_have_own_dates()
    ensures { (setup : Setup) (run : List Happening) (id : ℕ) → IsWithinLimits setup → AreLegal setup opening_state run
        → 0 < id → AreOwnDates (dates_made id (after_all setup opening_state run).entries) }
{}
