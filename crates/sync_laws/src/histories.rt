//! The histories that a bank comes to.

ghost use Rattle.std.specs.Prelude.{List};
ghost use Rattle.ofx_types.specs.declared.number.Moment.{Moment};
ghost use Rattle.ofx_types.specs.declared.number.UserId.{UserId};
ghost use Rattle.ofx_types.specs.declared.request.Ask.{Ask};
ghost use Rattle.bank_model.specs.declared.event.Event.{Event};
ghost use Rattle.bank_model.specs.declared.event.State.{State};
ghost use Rattle.bank_model.specs.declared.setup.Setup.{Setup};
ghost use Rattle.bank_model.specs.Rules.{IsLegal, opening_state, raised, state_after, ask_answer, ask_answers};
ghost use Rattle.sync_laws.specs.Histories.{IsInOrder, IsLater};

/// The history of each state that a bank comes to is in order: when it opens, after each event that may happen, and in the
/// middle of a file, whose asks are answered one after another once the business day is raised.
pub fn histories_are_in_order()
    ensures opening { (setup : Setup) → IsInOrder setup opening_state }
    ensures event { (setup : Setup) (S : State) (at : Moment) (event : Event) → IsInOrder setup S → IsLegal setup S at event
        → IsInOrder setup (state_after setup S at event) }
    ensures day { (setup : Setup) (S : State) (at : Moment) → IsInOrder setup S → IsInOrder setup (raised S at) }
    ensures ask { (setup : Setup) (S : State) (user : UserId) (at : Moment) (ask : Ask) → IsInOrder setup S
        → IsInOrder setup (ask_answer setup S user at ask).after }
    ensures asks { (setup : Setup) (S : State) (user : UserId) (at : Moment) (asks : List Ask) → IsInOrder setup S
        → IsInOrder setup (ask_answers setup S user at asks).after }
{}

/// A history only grows.
pub fn histories_grow()
    ensures event { (setup : Setup) (S : State) (at : Moment) (event : Event) → IsLater S (state_after setup S at event) }
    ensures ask { (setup : Setup) (S : State) (user : UserId) (at : Moment) (ask : Ask)
        → IsLater S (ask_answer setup S user at ask).after }
    ensures asks { (setup : Setup) (S : State) (user : UserId) (at : Moment) (asks : List Ask)
        → IsLater S (ask_answers setup S user at asks).after }
{}
