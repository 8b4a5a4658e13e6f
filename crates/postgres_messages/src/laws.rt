//! What reading and writing are to one another. Nothing here runs: each contract is a law.

ghost use Rattle.std.specs.Prelude.{◌≡◌, ℕ, ◌<◌, ◌++◌, true, List, length, take};
ghost use Rattle.postgres_messages.specs.RequestReading.{due, read_turn, HasTypes};
ghost use Rattle.postgres_messages.specs.Requests.{Request, is_writable, request_bytes};
ghost use Rattle.postgres_messages.specs.Laws.{IsBytes, IsWritable, BeginsWith};
ghost use Rattle.postgres_messages.specs.Messages.{Message, message_bytes};
ghost use Rattle.postgres_messages.specs.Reading.{Whole, Cut, Refused, read};

/// A message that is written is read back, whatever follows it.
pub fn messages_read_back()
    ensures { (m : Message) (rest : List ℕ) → IsWritable m → read (message_bytes m ++ rest) ≡ Whole m (length (message_bytes m)) }
{}

/// A message that is read is the one that the bytes spell.
pub fn messages_are_what_is_read()
    ensures { (bytes : List ℕ) (m : Message) (size : ℕ) → IsBytes bytes → read bytes ≡ Whole m size → BeginsWith bytes m size }
{}

/// As long as a message hasn't come whole, more is waited for. So it doesn't matter in which pieces it comes.
pub fn beginnings_are_cut()
    ensures { (m : Message) (count : ℕ) → IsWritable m → count < length (message_bytes m) → read (take count (message_bytes m)) ≡ Cut }
{}

/// Bytes that are refused are refused at the same place whatever comes after them. So the end of a message needn't be waited for.
pub fn refusals_are_final()
    ensures { (bytes more : List ℕ) (place : ℕ) → read bytes ≡ Refused place → read (bytes ++ more) ≡ Refused place }
{}

/// A client's message that is written is read back by a server, as the message that is due, whatever follows it.
pub fn requests_read_back()
    ensures { (r : Request) (rest : List ℕ) → is_writable r ≡ true → HasTypes r → read_turn (due r) (request_bytes r ++ rest) ≡ Ok (r, rest) }
{}
