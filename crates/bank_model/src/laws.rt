//! Bytes spell one setup, or have one fault. Nothing here runs: each contract is a law.

ghost use Rattle.std.specs.Prelude.{◌≡◌, ◌⊎◌, List, ℕ};
ghost use Rattle.bank_model.specs.SetupForm.{SpellsSetup};
ghost use Rattle.bank_model.specs.SetupFault.{IsSetupFault};
ghost use Rattle.bank_model.specs.declared.setup.Setup.{Setup};

/// No bytes spell two setups.
pub fn one_setup()
    ensures { (bytes : List ℕ) (a b : Setup) → SpellsSetup bytes a → SpellsSetup bytes b → a ≡ b }
{}

/// Bytes have one fault, or none and spell a setup.
pub fn one_fault()
    ensures one { (bytes : List ℕ) (j k : ℕ) → IsSetupFault bytes j → IsSetupFault bytes k → j ≡ k }
    ensures none { (bytes : List ℕ) (setup : Setup) (k : ℕ) → SpellsSetup bytes setup → IsSetupFault bytes k → ⊥ }
    ensures some { (bytes : List ℕ) → ((setup : Setup) × SpellsSetup bytes setup) ⊎ ((k : ℕ) × IsSetupFault bytes k) }
{}
