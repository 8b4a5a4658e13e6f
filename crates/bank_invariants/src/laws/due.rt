//! What holds of the work that the bank does by itself.

ghost use Rattle.std.specs.Prelude.{List, None, Some, length, ℕ, ◌≡◌, ◌⊎◌};
ghost use Rattle.ofx_types.specs.declared.number.Moment.{Moment};
ghost use Rattle.bank_model.specs.DueRun.{IsDueRun, after_events};
ghost use Rattle.bank_model.specs.Rules.{IsLegal, due, opening_state};
ghost use Rattle.bank_model.specs.SetupForm.{IsWithinLimits};
ghost use Rattle.bank_model.specs.declared.event.Event.{Event};
ghost use Rattle.bank_model.specs.declared.event.Event.TheVariants.{Post, Spawn};
ghost use Rattle.bank_model.specs.declared.event.State.{State};
ghost use Rattle.bank_model.specs.declared.setup.Setup.{Setup};
ghost use Rattle.bank_invariants.specs.DueFirst.{NonePosts, NoneSpawns, PostsFirst, SpawnsFirst};
ghost use Rattle.bank_invariants.specs.Runs.{AreLegal, Happening, after_all};

/// What is due may be done: the event that the bank makes next by itself is legal.
pub fn due_work_is_legal()
    ensures { (setup : Setup) (S : State) (at : Moment) (event : Event) → due setup S at ≡ Some event
        → IsLegal setup S at event }
{}

/// What is due is the earliest of what the bank may do by itself. Where nothing is due, it may do nothing. A recurring
/// transfer that is due to make its next transfer has the earliest date of all that may. A transfer is due to be posted
/// only where no recurring transfer may make one, and has the earliest day of all that may be posted. On one day the
/// lesser id comes first.
pub fn due_work_is_least()
    ensures none_spawns { (setup : Setup) (run : List Happening) (at : Moment) → IsWithinLimits setup
        → AreLegal setup opening_state run → due setup (after_all setup opening_state run) at ≡ None
        → NoneSpawns setup (after_all setup opening_state run) at }
    ensures none_posts { (setup : Setup) (run : List Happening) (at : Moment) → IsWithinLimits setup
        → AreLegal setup opening_state run → due setup (after_all setup opening_state run) at ≡ None
        → NonePosts setup (after_all setup opening_state run) at }
    ensures spawn { (setup : Setup) (run : List Happening) (at : Moment) (id occurrence : ℕ) → IsWithinLimits setup
        → AreLegal setup opening_state run → due setup (after_all setup opening_state run) at ≡ Some (Spawn id occurrence)
        → SpawnsFirst setup (after_all setup opening_state run) at id }
    ensures post { (setup : Setup) (run : List Happening) (at : Moment) (id : ℕ) → IsWithinLimits setup
        → AreLegal setup opening_state run → due setup (after_all setup opening_state run) at ≡ Some (Post id)
        → PostsFirst setup (after_all setup opening_state run) at id }
{}

/// A run of due work is one: two runs from one state at one moment have the same events.
pub fn due_work_is_one()
    ensures { (setup : Setup) (S : State) (at : Moment) (events other : List Event) → IsDueRun setup S at events
        → IsDueRun setup S at other → events ≡ other }
{}

/// After a run of due work nothing is due at its moment, unless it has stopped at 100,000 events.
pub fn due_work_is_done()
    ensures { (setup : Setup) (S : State) (at : Moment) (events : List Event) → IsDueRun setup S at events
        → (length events ≡ 100000) ⊎ (due setup (after_events setup S at events) at ≡ None) }
{}
