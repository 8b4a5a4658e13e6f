//! Replies that bytes spell.

ghost use Rattle.std.specs.Prelude.{ℕ, List};
ghost use Rattle.std.specs.List.{AllByRecursion};
ghost use Rattle.ofx_types.specs.FileForm.{SpellsReply};
ghost use Rattle.ofx_types.specs.declared.reply.ReplyFile.{ReplyFile};
ghost use Rattle.client_core.specs.ReportLines.{IsSoundReply};

/// Every reply that bytes spell may be taken in: the values of the rows that it brings are within their bounds.
pub fn spelled_replies_are_sound()
    ensures { (bytes : List ℕ) (reply : ReplyFile) → SpellsReply bytes reply → AllByRecursion IsSoundReply reply.replies }
{}
