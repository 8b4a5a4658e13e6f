//! The bank's reply to a client's file, as it comes over the wire.

ghost use Rattle.std.specs.Prelude.{◌≡◌, Ok, Some, None};
ghost use Rattle.ofx_types.specs.Wire.{wire_file};
ghost use Rattle.ofx_types.specs.declared.number.Moment.{Moment};
ghost use Rattle.ofx_types.specs.declared.number.UserId.{UserId};
ghost use Rattle.ofx_types.specs.declared.request.RequestFile.{RequestFile};
ghost use Rattle.bank_model.specs.declared.event.State.{State};
ghost use Rattle.bank_model.specs.declared.setup.Setup.{Setup};
ghost use Rattle.bank_model.specs.Rules.{raised, ask_answers, reply_file};
ghost use Rattle.bank_model.specs.SetupForm.{IsWithinLimits};
ghost use Rattle.sync_laws.specs.Histories.{IsInOrder};
ghost use Rattle.client_saved.specs.declared.state.ClientState.{ClientState};
ghost use Rattle.client_saved.specs.declared.state.Outstanding.{Outstanding};
ghost use Rattle.client_core.specs.Answering.{first_unanswered};
ghost use Rattle.client_core.specs.Accepting.{accepted, with_replies};
ghost use Rattle.client_laws.specs.Answers.{bank_reply};

/// Whatever a file asks, the reply that the bank makes of it answers all of it, and the client whose outstanding file it is
/// accepts that reply.
pub fn bank_replies_answer()
    ensures answered { (setup : Setup) (S : State) (user : UserId) (at : Moment) (file : RequestFile) → IsWithinLimits setup
        → IsInOrder setup S → first_unanswered file.asks (bank_reply setup S user at file).replies ≡ None }
    ensures accepted { (setup : Setup) (S : State) (user : UserId) (at : Moment) (client : ClientState) (kept : Outstanding)
        → IsWithinLimits setup → IsInOrder setup S → client.outstanding ≡ Some kept
        → accepted client (bank_reply setup S user at kept.file)
        ≡ Ok (with_replies client kept.file (bank_reply setup S user at kept.file).replies) }
{}
