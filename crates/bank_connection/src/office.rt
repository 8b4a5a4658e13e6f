//! Where the files of users are answered.

ghost use Rattle.std.specs.Prelude.{◌≡◌, ℕ, ◌<◌, true, false, List, [], Option, length, IfOk, IfErr, OnErr, IfSome};
ghost use Rattle.ofx_types.specs.Calendar.{IsMoment};
ghost use Rattle.bank_model.specs.declared.setup.Setup.{Setup as TheSetup};
ghost use Rattle.bank_model.specs.SetupForm.{IsWithinLimits};
ghost use Rattle.bank_model.specs.Sound.{IsSound};
ghost use Rattle.bank_model.specs.Polls.{is_poll};
ghost use Rattle.bank_callers.specs.Callers.{CallerView, IsRightView, Knows, IsCommitted, IsUncommitted, IsLooked, HasLoaded};

use bank_model::{Setup, SubmitFault};
use ofx_types::{Moment, OutOfMemory, RequestFile, UserId};

/// Answers the files of users who signed on. What it knows of its bank, where it says so, is right before and after each
/// call, and no call changes the setup or the state that the bank opened in.
pub trait Office {
    // the setup of the bank
    ghost setup: { Self → TheSetup };

    // what it knows of the bank, where it says so
    ghost knows: { Self → Option CallerView };

    // the borrow through which it calls the bank, if it has one: it stays the same
    ghost through: { Self → ℕ };

    // whether it may be called: so it is before and after each call
    ghost ready: { Self → Type 0 };

    /// The setup of the bank.
    fn setup(&self) -> &Setup
        requires ready { ready self.now }
        ensures setup { result.now ≡ setup self.now }
        ensures within { IsWithinLimits (setup self.now) }
        ensures right { IfSome (knows self.now) (IsRightView (setup self.now)) };

    /// Lets the event of a user's file happen at that moment, and answers its reply. It is no poll.
    ///
    /// - `Keeper(count)`: a call of the keeper failed in this call and raised its count of faults to that number.
    /// - `OutOfMemory`.
    fn ask(&mut self, user: UserId, file: &RequestFile, at: Moment) -> Result<Vec<u8>, SubmitFault>
        requires ready { ready self.old }
        requires known { user.0 < length (setup self.old).users }
        requires sound { IsSound file.now }
        requires event { is_poll file.now ≡ false }
        requires moment { IsMoment at.0 }
        ensures setup { setup self.new ≡ setup self.old }
        ensures through { through self.new ≡ through self.old }
        ensures ready { ready self.new }
        ensures right { IfSome (knows self.new) (IsRightView (setup self.new)) }
        ensures answered { IfOk result (λ reply. IsCommitted user file.now at reply.items (knows self.old) (knows self.new)) }
        ensures refused { IfErr result (IsUncommitted user file.now at (knows self.old) (knows self.new)) };

    /// Answers a user's poll, sent at that moment, with tokens that are no older than what the caller has seen.
    fn look(&mut self, user: UserId, file: &RequestFile, at: Moment) -> Result<Vec<u8>, OutOfMemory>
        requires ready { ready self.old }
        requires known { user.0 < length (setup self.old).users }
        requires sound { IsSound file.now }
        requires poll { is_poll file.now ≡ true }
        requires moment { IsMoment at.0 }
        ensures setup { setup self.new ≡ setup self.old }
        ensures through { through self.new ≡ through self.old }
        ensures ready { ready self.new }
        ensures right { IfSome (knows self.new) (IsRightView (setup self.new)) }
        ensures answered { IfOk result (λ reply. IsLooked (setup self.old) user file.now at reply.items (knows self.old) (knows self.new)) }
        ensures refused { OnErr result (Knows (knows self.old) (knows self.new) HasLoaded) };
}
