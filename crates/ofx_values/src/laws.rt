//! What holds of the printed forms and of the spellings themselves. Nothing here runs: each contract is a law.

ghost use Rattle.std.specs.Prelude.{◌≡◌, ◌^◌, ◌<◌, ◌≤◌, ℕ, ℤ, List, unsigned_abs};
ghost use Rattle.std.specs.Fmt.{decimal};
ghost use Rattle.ofx_types.specs.Calendar.{IsMoment};
ghost use Rattle.ofx_types.specs.AmountForm.{IsAmount, amount_text};
ghost use Rattle.ofx_types.specs.DateForm.{IsDate, moment_text};

/// No bytes spell two amounts.
pub fn one_amount()
    ensures { (raw : List ℕ) (a b : ℤ) → IsAmount raw a → IsAmount raw b → a ≡ b }
{}

/// No bytes spell two moments.
pub fn one_moment()
    ensures { (raw : List ℕ) (a b : ℤ) → IsDate raw a → IsDate raw b → a ≡ b }
{}

/// What is printed of an amount within the limit spells that amount.
pub fn printed_amount()
    ensures { (c : ℤ) → unsigned_abs c ≤ 9999999999999 → IsAmount (amount_text c) c }
{}

/// What is printed of a moment of the years 1900 to 9999 spells that moment.
pub fn printed_moment()
    ensures { (m : ℤ) → IsMoment m → IsDate (moment_text m) m }
{}

/// No two amounts within the limit are printed alike.
pub fn amounts_differ()
    ensures { (a b : ℤ) → unsigned_abs a ≤ 9999999999999 → unsigned_abs b ≤ 9999999999999
        → amount_text a ≡ amount_text b → a ≡ b }
{}

/// No two moments of the years 1900 to 9999 are printed alike.
pub fn moments_differ()
    ensures { (a b : ℤ) → IsMoment a → IsMoment b → moment_text a ≡ moment_text b → a ≡ b }
{}

/// No two numbers are printed alike.
pub fn numbers_differ()
    ensures { (a b : ℕ) → a < 2 ^ 64 → b < 2 ^ 64 → decimal a ≡ decimal b → a ≡ b }
{}
