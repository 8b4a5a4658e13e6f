//! Who makes what is due first happen.

ghost use Rattle.std.specs.Prelude.{◌≡◌, ℕ, IfOk, IfErr};
ghost use Rattle.ofx_types.specs.Calendar.{IsMoment};
ghost use Rattle.bank_model.specs.declared.setup.Setup.{Setup as TheSetup};
ghost use Rattle.bank_callers.specs.Callers.{CallerView};
ghost use Rattle.bank_shared.specs.Advancing.{IsAdvanced, IsUnadvanced};

use bank_model::SubmitFault;
use bank_shared::Advance;
use ofx_types::Moment;

/// Who makes what is due first at a moment happen, one event in a call.
pub trait Advancer {
    // the setup of its bank
    ghost setup: { Self → TheSetup };

    // what it knows of its bank
    ghost knows: { Self → CallerView };

    // the borrow through which it calls the bank, if it has one: it stays the same
    ghost through: { Self → ℕ };

    // whether it may be called: so it is before and after each call
    ghost ready: { Self → Type 0 };

    /// Makes what is due first at a moment happen.
    ///
    /// - `Keeper(n)`: the keeper's count of faults rose to n in this call.
    /// - `OutOfMemory`.
    fn advance(&mut self, at: Moment) -> Result<Advance, SubmitFault>
        requires moment { IsMoment at.0 }
        requires ready { ready self.old }
        ensures setup { setup self.new ≡ setup self.old }
        ensures through { through self.new ≡ through self.old }
        ensures ready { ready self.new }
        ensures advanced { IfOk result (IsAdvanced (setup self.old) at (knows self.old) (knows self.new)) }
        ensures refused { IfErr result (IsUnadvanced (setup self.old) at (knows self.old) (knows self.new)) };
}
