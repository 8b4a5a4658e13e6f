//! What happens to a bank, and the state that it leaves.

use crate::entry::Entry;
use crate::once::{KeptReply, UsedPair};
use ofx_types::{Day, Duplicate, OutOfMemory, RequestFile, Sequence, Text, UserId};

/// What may change a bank. Each event happens at a moment.
#[derive(Debug, Drop)]
pub enum Event {
    /// A user's request file, whose signon succeeded.
    File(UserId, RequestFile),
    /// The transfer with this id, which waits and is due, is posted, or closed where there is no cover.
    Post(u64),
    /// The recurring transfer with this id makes its next transfer, which is this occurrence of its series, from 0.
    Spawn(u64, u32),
    /// The bank writes a user a letter with this subject, 1 to 64 bytes, and this body, 1 to 10,000 bytes.
    Letter(UserId, Text, Text),
}

/// The state of a bank between two events.
#[derive(Drop)]
pub struct State {
    /// The history: entry i, from 1, has the number i.
    pub entries: Sequence<Entry>,
    /// The uids that users have used up.
    pub used: Sequence<UsedPair>,
    /// The replies to files that may come again.
    pub kept: Sequence<KeptReply>,
    /// The business day: the greatest day of any event's moment so far.
    pub day: Day,
}

impl Duplicate for Event {
    fn copy(&self) -> Result<Event, OutOfMemory> {
        match self {
            Event::File(user, file) => Ok(Event::File(*user, file.copy()?)),
            Event::Post(id) => Ok(Event::Post(*id)),
            Event::Spawn(model, occurrence) => Ok(Event::Spawn(*model, *occurrence)),
            Event::Letter(user, subject, body) => {
                Ok(Event::Letter(*user, subject.copy()?, body.copy()?))
            }
        }
    }
}
