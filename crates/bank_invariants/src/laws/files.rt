//! What holds of files that come again.

ghost use Rattle.std.specs.List.{AllByRecursion};
ghost use Rattle.std.specs.Prelude.{List, Some, false, is_some, true, ℕ, ◌≡◌};
ghost use Rattle.ofx_types.specs.declared.number.Moment.{Moment};
ghost use Rattle.ofx_types.specs.declared.number.UserId.{UserId};
ghost use Rattle.ofx_types.specs.declared.request.RequestFile.{RequestFile};
ghost use Rattle.bank_model.specs.Once.{reply_kept};
ghost use Rattle.bank_model.specs.Rules.{answer_to, kept_for, opening_state, raised, state_after};
ghost use Rattle.bank_model.specs.SetupForm.{IsWithinLimits};
ghost use Rattle.bank_model.specs.declared.event.Event.TheVariants.{File};
ghost use Rattle.bank_model.specs.declared.event.State.{State};
ghost use Rattle.bank_model.specs.declared.setup.Setup.{Setup};
ghost use Rattle.once_records.specs.RecordsView.{KeptOnce};
ghost use Rattle.bank_invariants.specs.Runs.{AreLegal, Happening, StaysKept, after_all, releases};

/// No file of a user has two kept replies.
pub fn files_are_kept_once()
    ensures { (setup : Setup) (run : List Happening) → IsWithinLimits setup → AreLegal setup opening_state run
        → KeptOnce (after_all setup opening_state run).kept }
{}

/// A file whose name is kept changes nothing but the business day, and is answered by the kept bytes.
pub fn kept_files_change_nothing()
    ensures answer { (setup : Setup) (S : State) (user : UserId) (at : Moment) (file : RequestFile) (reply : List ℕ)
        → kept_for S user file.newer ≡ Some reply → answer_to setup S at (File user file) ≡ reply }
    ensures state { (setup : Setup) (S : State) (user : UserId) (at : Moment) (file : RequestFile) (reply : List ℕ)
        → kept_for S user file.newer ≡ Some reply → state_after setup S at (File user file) ≡ raised S at }
{}

/// A file with a name (NEWFILEUID) that comes again gets the same bytes and changes nothing but the business day, whatever
/// events came between, while its name is kept.
pub fn files_may_come_again()
    ensures answer { (setup : Setup) (S : State) (user : UserId) (at again : Moment) (file : RequestFile) (name : List ℕ)
        (run : List Happening) → file.newer ≡ Some name
        → StaysKept setup (state_after setup S at (File user file)) user name run
        → answer_to setup (after_all setup (state_after setup S at (File user file)) run) again (File user file)
        ≡ answer_to setup S at (File user file) }
    ensures state { (setup : Setup) (S : State) (user : UserId) (at again : Moment) (file : RequestFile) (name : List ℕ)
        (run : List Happening) → file.newer ≡ Some name
        → StaysKept setup (state_after setup S at (File user file)) user name run
        → state_after setup (after_all setup (state_after setup S at (File user file)) run) again (File user file)
        ≡ raised (after_all setup (state_after setup S at (File user file)) run) again }
{}

/// The name of a file is kept after it with the bytes that it got, and stays kept while no file of the same user tells by
/// its OLDFILEUID that the reply was received.
pub fn names_stay_kept()
    ensures kept { (setup : Setup) (S : State) (user : UserId) (at : Moment) (file : RequestFile) (name : List ℕ)
        → file.newer ≡ Some name
        → reply_kept user name (state_after setup S at (File user file)).kept ≡ Some (answer_to setup S at (File user file)) }
    ensures stays { (setup : Setup) (S : State) (user : UserId) (name : List ℕ) (run : List Happening)
        → is_some (reply_kept user name S.kept) ≡ true
        → AllByRecursion (λ (happening : Happening). releases user name happening.event ≡ false) run
        → StaysKept setup S user name run }
{}
