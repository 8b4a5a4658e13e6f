//! The states whose history may be reported.

ghost use Rattle.std.specs.Prelude.{ℕ, ◌<◌, length, List};
ghost use Rattle.std.specs.List.{AllByRecursion};
ghost use Rattle.ofx_types.specs.Calendar.{IsMoment};
ghost use Rattle.ofx_types.specs.declared.number.Moment.{Moment};
ghost use Rattle.ofx_types.specs.declared.number.UserId.{UserId};
ghost use Rattle.ofx_types.specs.declared.request.Ask.{Ask};
ghost use Rattle.bank_model.specs.declared.event.Event.{Event};
ghost use Rattle.bank_model.specs.declared.event.State.{State};
ghost use Rattle.bank_model.specs.declared.setup.Setup.{Setup};
ghost use Rattle.bank_model.specs.SetupForm.{IsWithinLimits};
ghost use Rattle.bank_model.specs.Sound.{IsSoundAsk};
ghost use Rattle.bank_model.specs.Rules.{IsLegal, opening_state, raised, state_after, ask_answer};
ghost use Rattle.reply_laws.specs.Reportable.{IsReportable};

/// The history of each state that a bank comes to may be reported: when it opens, after each event that may happen, and in the
/// middle of a file, whose asks are answered one after another once the business day is raised.
pub fn reported_states_last()
    ensures opening { (setup : Setup) → IsReportable setup opening_state }
    ensures event { (setup : Setup) (S : State) (at : Moment) (event : Event) → IsWithinLimits setup → IsReportable setup S
        → IsMoment at.0 → IsLegal setup S at event → IsReportable setup (state_after setup S at event) }
    ensures day { (setup : Setup) (S : State) (at : Moment) → IsReportable setup S → IsMoment at.0
        → IsReportable setup (raised S at) }
    ensures ask { (setup : Setup) (S : State) (user : UserId) (at : Moment) (ask : Ask) → IsWithinLimits setup
        → IsReportable setup S → IsMoment at.0 → user.0 < length setup.users → IsSoundAsk ask
        → IsReportable setup (ask_answer setup S user at ask).after }
{}
