//! What came of statements that were sent.

ghost use Rattle.std.specs.Prelude.{◌≡◌, true, false, option_map};
ghost use Rattle.postgres_messages.specs.Views.{message_of, texts};
ghost use Rattle.postgres_talk.specs.Statements.{heard};
ghost use Rattle.postgres_talk.specs.Statements as statements;

use ofx_values::read_number;
use postgres_messages::{BackendMessage, Texts};

/// The five characters that say why a statement failed.
pub type SqlState = [u8; 5];

/// How far statements have come that were sent before one Sync.
///
/// ```rust
/// use postgres_messages::BackendMessage;
/// use postgres_talk::{Outcome, Standing};
///
/// // An append of two records. That it was done doesn't acknowledge it: the commit comes after that.
/// let mut standing = Standing::append();
/// standing = standing.hear(&BackendMessage::Bound);
/// standing = standing.hear(&BackendMessage::Completed(b"INSERT 0 2"));
/// assert!(rt; standing.outcome(2) == Outcome::Unknown);
/// standing = standing.hear(&BackendMessage::Ready);
/// assert!(rt; standing.outcome(2) == Outcome::Acknowledged);
/// ```
#[derive(Clone, Copy)]
pub enum Standing {
    /// So many are still to be parsed, and so many to be done, with rows or without, the next of them bound or not. The last one
    /// that was done inserted so many records, where its tag says so.
    Waiting {
        parses: u32,
        statements: u32,
        rows: bool,
        bound: bool,
        inserted: Option<u64>,
    },
    /// One failed. The server isn't ready again.
    Failing(SqlState),
    /// All are done and committed.
    Done(Option<u64>),
    /// None was done, since one failed.
    Refused(SqlState),
    /// It isn't known what was done, and the connection is to be given up.
    Unknown,
}

/// What came of an append.
#[derive(Clone, Copy, Debug, PartialEq, Eq)]
pub enum Outcome {
    /// All its records are committed, also on the standbys.
    Acknowledged,
    /// None was inserted, since the epoch is over.
    Fenced,
    /// None was inserted, since a number is taken.
    Duplicate,
    /// None was inserted, for another reason.
    Undone,
    /// The records are there, or will be, or never: this is to be settled.
    Unknown,
}

impl Standing {
    /// An append was sent, as one statement.
    pub fn append() -> Standing
        ensures { result ≡ statements.append_sent }
    {
        Standing::Waiting {
            parses: 0,
            statements: 1,
            rows: false,
            bound: false,
            inserted: None,
        }
    }

    /// So many statements were sent to be parsed.
    pub fn parsing(parses: u32) -> Standing
        ensures { result ≡ Standing.Waiting parses 0 false false None }
    {
        Standing::Waiting {
            parses,
            statements: 0,
            rows: false,
            bound: false,
            inserted: None,
        }
    }

    /// So many statements were sent that may answer by rows.
    pub fn asking(statements: u32) -> Standing
        ensures { result ≡ Standing.Waiting 0 statements true false None }
    {
        Standing::Waiting {
            parses: 0,
            statements,
            rows: true,
            bound: false,
            inserted: None,
        }
    }

    /// How far they are after one message more.
    pub fn hear(self, message: &BackendMessage) -> Standing
        ensures { result ≡ heard self (message_of message.now) }
    {
        match message {
            BackendMessage::Setting(_, _) => self,
            BackendMessage::Parsed => self.hear_parsed(),
            BackendMessage::Bound => self.hear_bound(),
            BackendMessage::Row(_) => self.hear_row(),
            BackendMessage::Completed(tag) => self.hear_completed(tag),
            BackendMessage::Ready => self.hear_ready(),
            BackendMessage::Failed(report) => self.hear_failed(report),
            _ => Standing::Unknown,
        }
    }

    fn hear_parsed(self) -> Standing
        ensures { result ≡ statements.parsed self }
    {
        match self {
            Standing::Waiting {
                parses,
                statements,
                rows,
                bound: false,
                inserted,
            } if parses > 0 => Standing::Waiting {
                parses: parses - 1,
                statements,
                rows,
                bound: false,
                inserted,
            },
            _ => Standing::Unknown,
        }
    }

    fn hear_bound(self) -> Standing
        ensures { result ≡ statements.bound self }
    {
        match self {
            Standing::Waiting {
                parses: 0,
                statements,
                rows,
                bound: false,
                inserted,
            } if statements > 0 => Standing::Waiting {
                parses: 0,
                statements,
                rows,
                bound: true,
                inserted,
            },
            _ => Standing::Unknown,
        }
    }

    fn hear_row(self) -> Standing
        ensures { result ≡ statements.row self }
    {
        match self {
            Standing::Waiting {
                parses: 0,
                statements,
                rows: true,
                bound: true,
                ..
            } if statements > 0 => self,
            _ => Standing::Unknown,
        }
    }

    fn hear_completed(self, tag: &[u8]) -> Standing
        ensures { result ≡ statements.completed self tag.now }
    {
        match self {
            Standing::Waiting {
                parses: 0,
                statements,
                rows,
                bound: true,
                ..
            } if statements > 0 => Standing::Waiting {
                parses: 0,
                statements: statements - 1,
                rows,
                bound: false,
                inserted: inserted_in(tag),
            },
            _ => Standing::Unknown,
        }
    }

    fn hear_ready(self) -> Standing
        ensures { result ≡ statements.ready self }
    {
        match self {
            Standing::Waiting {
                parses: 0,
                statements: 0,
                bound: false,
                inserted,
                ..
            } => Standing::Done(inserted),
            Standing::Failing(code) => Standing::Refused(code),
            _ => Standing::Unknown,
        }
    }

    fn hear_failed(self, report: &Texts) -> Standing
        ensures { result ≡ statements.failing self (texts report.now) }
    {
        match self {
            Standing::Waiting { .. } => failed(report),
            _ => Standing::Unknown,
        }
    }

    /// What came of an append of so many records, at least one.
    pub fn outcome(self, sent: u64) -> Outcome
        ensures { result ≡ statements.outcome sent self }
    {
        match self {
            Standing::Done(Some(inserted)) => by_count(sent, inserted),
            Standing::Refused(code) => {
                if code.as_slice() == b"23505".as_slice() {
                    Outcome::Duplicate
                } else {
                    Outcome::Undone
                }
            }
            _ => Outcome::Unknown,
        }
    }
}

fn by_count(sent: u64, inserted: u64) -> Outcome
    ensures { result ≡ statements.by_count sent inserted }
{
    if inserted == sent {
        Outcome::Acknowledged
    } else if inserted == 0 {
        Outcome::Fenced
    } else {
        Outcome::Unknown
    }
}

/// What a report of a failure tells.
fn failed(report: &Texts) -> Standing
    ensures { result ≡ statements.failed (texts report.now) }
{
    if !is_some_text(report.field(b'V'), b"ERROR") {
        return Standing::Unknown;
    }
    match report.field(b'C') {
        Some([a, b, c, d, e]) => Standing::Failing([*a, *b, *c, *d, *e]),
        _ => Standing::Unknown,
    }
}

fn is_some_text(text: Option<&[u8]>, wanted: &[u8]) -> bool
    ensures { result ≡ statements.is_some_text (option_map (λ t. t.now) text.entry) wanted.now }
{
    match text {
        Some(text) => text == wanted,
        None => false,
    }
}

/// How many records were inserted, by the tag of the statement.
#[tactic(auto, unfolding(crate::specs::Statements::inserted_in))]
fn inserted_in(tag: &[u8]) -> Option<u64>
    ensures { result ≡ statements.inserted_in tag.now }
{
    if tag.starts_with(b"INSERT 0 ") {
        read_number(&tag[9..], 10)
    } else {
        None
    }
}
