//! What a bank does for users who ask for nothing wrong.

ghost use Rattle.std.specs.Prelude.{List, None, Option, Some, false, true, ℕ, ◌++◌, ◌∷◌, ◌≡◌};
ghost use Rattle.ofx_types.specs.declared.number.AcctId.{AcctId};
ghost use Rattle.ofx_types.specs.declared.number.Moment.{Moment};
ghost use Rattle.ofx_types.specs.declared.number.UserId.{UserId};
ghost use Rattle.ofx_types.specs.declared.recurring.Recur.{Recur};
ghost use Rattle.ofx_types.specs.declared.request.Ask.{Ask};
ghost use Rattle.ofx_types.specs.declared.request.Ask.TheVariants.{One, Sync};
ghost use Rattle.ofx_types.specs.declared.request.RequestFile.{RequestFile};
ghost use Rattle.ofx_types.specs.declared.sync.SyncAsk.{SyncAsk};
ghost use Rattle.ofx_types.specs.declared.transfer.Deed.{Deed};
ghost use Rattle.ofx_types.specs.declared.transfer.Deed.TheVariants.{Model, Transfer};
ghost use Rattle.ofx_types.specs.declared.transfer.Family.TheVariants.{Intra, RecIntra};
ghost use Rattle.ofx_types.specs.declared.transfer.XferInfo.{XferInfo};
ghost use Rattle.bank_model.specs.Deeds.{deed_answer};
ghost use Rattle.bank_model.specs.Judging.{is_only};
ghost use Rattle.bank_model.specs.Objects.{account_about};
ghost use Rattle.bank_model.specs.Once.{is_used};
ghost use Rattle.bank_model.specs.Rules.{kept_for};
ghost use Rattle.bank_model.specs.Sync.{deed_answers, reply_with_change};
ghost use Rattle.bank_model.specs.declared.event.State.{State};
ghost use Rattle.bank_model.specs.declared.setup.Setup.{Setup};
ghost use Rattle.bank_invariants.specs.AnsweredAsks.{MayRecur, MayTransfer, TakesInStep, reached, recurring_entry, taken_with, transfer_entry};

/// A transfer whose TRNUID is unused, between two accounts of the bank of which the source is the user's, with a positive
/// amount, with cover where it is due, and with a number left, gets code 0 and its entry: outside a synchronisation, or in
/// one of its source that doesn't refuse deeds to a client that missed something (REJECTIFMISSING N).
pub fn transfers_are_accepted()
    ensures deed { (setup : Setup) (S : State) (user : UserId) (only : Option AcctId) (source : AcctId) (at : Moment)
        (trnuid : List ℕ) (info : XferInfo) → is_only only source ≡ true → is_used user trnuid S.used ≡ false
        → MayTransfer setup S user source info
        → deed_answer setup S user only at trnuid (Transfer info)
        ≡ taken_with S user trnuid Intra (transfer_entry S source at trnuid info) }
    ensures alone { (setup : Setup) (S : State) (at : Moment) (user : UserId) (file : RequestFile) (before more : List Ask)
        (source : AcctId) (trnuid : List ℕ) (info : XferInfo) → kept_for S user file.newer ≡ None
        → file.asks ≡ before ++ One trnuid (Transfer info) ∷ more
        → is_used user trnuid (reached setup S user at before).used ≡ false
        → MayTransfer setup (reached setup S user at before) user source info
        → TakesInStep setup S at user file (reached setup S user at before)
        (reply_with_change Intra trnuid (transfer_entry (reached setup S user at before) source at trnuid info).change)
        (transfer_entry (reached setup S user at before) source at trnuid info) }
    ensures synchronised { (setup : Setup) (S T : State) (at : Moment) (user : UserId) (file : RequestFile)
        (before more : List Ask) (ask : SyncAsk) (first last : List (List ℕ × Deed)) (source : AcctId) (trnuid : List ℕ)
        (info : XferInfo) → kept_for S user file.newer ≡ None → file.asks ≡ before ++ Sync ask ∷ more
        → account_about setup user ask.object ≡ Some source → ask.reject ≡ false
        → ask.deeds ≡ first ++ (trnuid, Transfer info) ∷ last
        → (deed_answers setup (reached setup S user at before) user (Some source) at first).after ≡ T
        → is_used user trnuid T.used ≡ false → MayTransfer setup T user source info
        → TakesInStep setup S at user file T (reply_with_change Intra trnuid (transfer_entry T source at trnuid info).change)
        (transfer_entry T source at trnuid info) }
{}

/// So it is with a recurring transfer whose first day is after the business day.
pub fn recurring_transfers_are_accepted()
    ensures deed { (setup : Setup) (S : State) (user : UserId) (only : Option AcctId) (source : AcctId) (at : Moment)
        (trnuid : List ℕ) (recur : Recur) (info : XferInfo) → is_only only source ≡ true → is_used user trnuid S.used ≡ false
        → MayRecur setup S user source info
        → deed_answer setup S user only at trnuid (Model recur info)
        ≡ taken_with S user trnuid RecIntra (recurring_entry S source trnuid recur info) }
    ensures alone { (setup : Setup) (S : State) (at : Moment) (user : UserId) (file : RequestFile) (before more : List Ask)
        (source : AcctId) (trnuid : List ℕ) (recur : Recur) (info : XferInfo) → kept_for S user file.newer ≡ None
        → file.asks ≡ before ++ One trnuid (Model recur info) ∷ more
        → is_used user trnuid (reached setup S user at before).used ≡ false
        → MayRecur setup (reached setup S user at before) user source info
        → TakesInStep setup S at user file (reached setup S user at before)
        (reply_with_change RecIntra trnuid (recurring_entry (reached setup S user at before) source trnuid recur info).change)
        (recurring_entry (reached setup S user at before) source trnuid recur info) }
    ensures synchronised { (setup : Setup) (S T : State) (at : Moment) (user : UserId) (file : RequestFile)
        (before more : List Ask) (ask : SyncAsk) (first last : List (List ℕ × Deed)) (source : AcctId) (trnuid : List ℕ)
        (recur : Recur) (info : XferInfo) → kept_for S user file.newer ≡ None → file.asks ≡ before ++ Sync ask ∷ more
        → account_about setup user ask.object ≡ Some source → ask.reject ≡ false
        → ask.deeds ≡ first ++ (trnuid, Model recur info) ∷ last
        → (deed_answers setup (reached setup S user at before) user (Some source) at first).after ≡ T
        → is_used user trnuid T.used ≡ false → MayRecur setup T user source info
        → TakesInStep setup S at user file T (reply_with_change RecIntra trnuid (recurring_entry T source trnuid recur info).change)
        (recurring_entry T source trnuid recur info) }
{}
