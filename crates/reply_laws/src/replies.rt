//! The replies of a bank.

ghost use Rattle.std.specs.Prelude.{◌≡◌, ◌<◌, length, List, true, None};
ghost use Rattle.ofx_types.specs.Calendar.{IsMoment};
ghost use Rattle.ofx_types.specs.ReplyForm.{reply_text};
ghost use Rattle.ofx_types.specs.declared.number.Moment.{Moment};
ghost use Rattle.ofx_types.specs.declared.number.UserId.{UserId};
ghost use Rattle.ofx_types.specs.declared.request.RequestFile.{RequestFile};
ghost use Rattle.bank_model.specs.declared.event.Event.TheVariants.{File};
ghost use Rattle.bank_model.specs.declared.event.State.{State};
ghost use Rattle.bank_model.specs.declared.setup.Setup.{Setup};
ghost use Rattle.bank_model.specs.SetupForm.{IsWithinLimits};
ghost use Rattle.bank_model.specs.Sound.{IsSound};
ghost use Rattle.bank_model.specs.Polls.{is_poll, poll_reply};
ghost use Rattle.bank_model.specs.Rules.{raised, opening_state, kept_for, answer_to, denial};
ghost use Rattle.bank_invariants.specs.Runs.{Happening, after_all, AreLegal};
ghost use Rattle.bank_invariants.specs.SoundStates.{IsSoundState};
ghost use Rattle.reply_laws.specs.Reportable.{IsReportable};
ghost use Rattle.reply_laws.specs.Replies.{new_reply, ReadsBack, IsReply};

use ofx_file::laws::replies_read_back;

/// A file whose name isn't kept is answered by its new reply, and this reads back. Each state that a bank comes to is sound
/// and tellable.
pub fn new_replies_read_back()
    ensures answer { (setup : Setup) (S : State) (user : UserId) (at : Moment) (file : RequestFile)
        → kept_for (raised S at) user file.newer ≡ None
        → answer_to setup S at (File user file) ≡ reply_text (new_reply setup S user at file) }
    ensures back { (setup : Setup) (S : State) (user : UserId) (at : Moment) (file : RequestFile) → IsWithinLimits setup
        → IsSoundState setup S → IsReportable setup S → IsMoment at.0 → user.0 < length setup.users → IsSound file
        → ReadsBack (new_reply setup S user at file) }
{
    replies_read_back();
}

/// Whatever a bank answers to a user's file, after any events from its opening, is the printed form of a reply, and this reads
/// back; so it is with the kept bytes with which a file that comes again is answered. The reply to a poll reads back too.
pub fn answers_are_replies()
    ensures file { (setup : Setup) (run : List Happening) (user : UserId) (at : Moment) (file : RequestFile)
        → IsWithinLimits setup → AreLegal setup opening_state run → IsMoment at.0
        → user.0 < length setup.users → IsSound file
        → IsReply (answer_to setup (after_all setup opening_state run) at (File user file)) }
    ensures poll { (setup : Setup) (run : List Happening) (user : UserId) (at : Moment) (file : RequestFile)
        → IsWithinLimits setup → AreLegal setup opening_state run → IsMoment at.0
        → IsSound file → is_poll file ≡ true
        → ReadsBack (poll_reply setup (after_all setup opening_state run) user at file) }
{
    replies_read_back();
}

/// The reply to a file whose signon failed reads back.
pub fn denials_read_back()
    ensures { (file : RequestFile) (at : Moment) → IsMoment at.0 → IsSound file → ReadsBack (denial file at) }
{
    replies_read_back();
}

/// The reply to a poll reads back.
pub fn polls_read_back()
    ensures { (setup : Setup) (S : State) (user : UserId) (at : Moment) (file : RequestFile) → IsWithinLimits setup
        → IsReportable setup S → IsMoment at.0 → IsSound file → is_poll file ≡ true
        → ReadsBack (poll_reply setup S user at file) }
{
    replies_read_back();
}
