//! What holds of uids.

ghost use Rattle.std.specs.Prelude.{List, Option, Some, [], false, true, ℕ, ◌++◌, ◌∷◌, ◌≡◌, ◌≢◌};
ghost use Rattle.ofx_types.specs.declared.number.AcctId.{AcctId};
ghost use Rattle.ofx_types.specs.declared.number.Moment.{Moment};
ghost use Rattle.ofx_types.specs.declared.number.UserId.{UserId};
ghost use Rattle.ofx_types.specs.declared.request.Ask.{Ask};
ghost use Rattle.ofx_types.specs.declared.transfer.Deed.{Deed};
ghost use Rattle.bank_model.specs.Deeds.{deed_answer};
ghost use Rattle.bank_model.specs.Once.{is_used};
ghost use Rattle.bank_model.specs.Rules.{ask_answer, opening_state, state_after};
ghost use Rattle.bank_model.specs.SetupForm.{IsWithinLimits};
ghost use Rattle.bank_model.specs.declared.event.Event.{Event};
ghost use Rattle.bank_model.specs.declared.event.State.{State};
ghost use Rattle.bank_model.specs.declared.setup.Setup.{Setup};
ghost use Rattle.once_records.specs.RecordsView.{UsedOnce};
ghost use Rattle.bank_invariants.specs.Runs.{AreLegal, Happening, after_all};
ghost use Rattle.bank_invariants.specs.Uids.{AddsByUids, AllAddByUids, asker};

/// No user's uid is used up twice.
pub fn uids_work_once()
    ensures { (setup : Setup) (run : List Happening) → IsWithinLimits setup → AreLegal setup opening_state run
        → UsedOnce (after_all setup opening_state run).used }
{}

/// A deed with a TRNUID that its user has used up gets 2019, and changes nothing.
pub fn used_uids_do_nothing()
    ensures code { (setup : Setup) (S : State) (user : UserId) (only : Option AcctId) (at : Moment) (trnuid : List ℕ)
        (deed : Deed) → is_used user trnuid S.used ≡ true → (deed_answer setup S user only at trnuid deed).reply.code ≡ 2019 }
    ensures state { (setup : Setup) (S : State) (user : UserId) (only : Option AcctId) (at : Moment) (trnuid : List ℕ)
        (deed : Deed) → is_used user trnuid S.used ≡ true → (deed_answer setup S user only at trnuid deed).after ≡ S }
{}

/// A deed that adds entries uses up its TRNUID, which its user hadn't used before.
pub fn entries_use_up_a_uid()
    ensures unused { (setup : Setup) (S : State) (user : UserId) (only : Option AcctId) (at : Moment) (trnuid : List ℕ)
        (deed : Deed) → (deed_answer setup S user only at trnuid deed).after.entries ≢ S.entries
        → is_used user trnuid S.used ≡ false }
    ensures used { (setup : Setup) (S : State) (user : UserId) (only : Option AcctId) (at : Moment) (trnuid : List ℕ)
        (deed : Deed) → (deed_answer setup S user only at trnuid deed).after.entries ≢ S.entries
        → (deed_answer setup S user only at trnuid deed).after.used ≡ S.used ++ record { user = user; trnuid = trnuid } ∷ [] }
{}

/// An ask adds entries only in the step that uses up its TRNUID: each new entry whose uid isn't the bank's own, `0`, has one
/// that the asking user uses up in the same step and hadn't used up before.
pub fn entries_come_with_their_uid()
    ensures ask { (setup : Setup) (S : State) (user : UserId) (at : Moment) (ask : Ask)
        → AddsByUids (Some user) S (ask_answer setup S user at ask).after }
    ensures event { (setup : Setup) (S : State) (at : Moment) (event : Event)
        → AddsByUids (asker event) S (state_after setup S at event) }
    ensures run { (setup : Setup) (S : State) (run : List Happening) → AllAddByUids setup S run }
{}
