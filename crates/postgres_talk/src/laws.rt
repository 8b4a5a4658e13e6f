//! What whole lists of messages tell. Nothing here runs: each contract is a law.

ghost use Rattle.std.specs.Prelude.{◌≡◌, ◌↔◌, ℕ, List, Some};
ghost use Rattle.postgres_messages.specs.Messages.{Message};
ghost use Rattle.postgres_talk.specs.declared.standing.Standing.TheVariants.{Done};
ghost use Rattle.postgres_talk.specs.Statements.{heard_all, append_sent};
ghost use Rattle.postgres_talk.specs.Laws.{Acknowledges, Opens};
ghost use Rattle.postgres_talk.specs.SigningOn.{Client, heard_all_on, start};
ghost use Rattle.postgres_talk.specs.declared.sign_on.Stage.TheVariants as stages;

/// An append is done with a count of records exactly where the messages since it was sent are, settings aside, that it was bound,
/// that it was done with this count, and that the server is ready. So a notice, an error, a row, an end or a message that is out
/// of order acknowledges nothing, nor does the tag before the server is ready.
pub fn appends_are_acknowledged()
    ensures { (count : ℕ) (ms : List Message) → (heard_all append_sent ms ≡ Done (Some count)) ↔ Acknowledges count ms }
{}

/// A session opens only where the server offered SCRAM-SHA-256, asked, proved that it knows the password, let the client in and
/// was ready, in this order. Settings and notices aside, nothing else was said.
pub fn sessions_are_proved()
    ensures { (who : Client) (ms : List Message) → (heard_all_on who start ms).stage ≡ stages.Open → Opens who ms }
{}
