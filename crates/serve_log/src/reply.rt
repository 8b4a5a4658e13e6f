//! What a reply tells of its exchange, as its bytes are written.

use http_front::read_response;

/// The kinds of asks, by the tags round the answer to one and the kind's name in the log. Synchronisations come first.
pub(crate) const KINDS: [(&[u8], &[u8], &str); KIND_COUNT] = [
    (b"<INTRASYNCRS>", b"</INTRASYNCRS>", "transfer_sync"),
    (b"<RECINTRASYNCRS>", b"</RECINTRASYNCRS>", "recurring_sync"),
    (b"<BANKMAILSYNCRS>", b"</BANKMAILSYNCRS>", "bankmail_sync"),
    (b"<MAILSYNCRS>", b"</MAILSYNCRS>", "mail_sync"),
    (b"<STMTTRNRS>", b"</STMTTRNRS>", "statement"),
    (b"<INTRATRNRS>", b"</INTRATRNRS>", "transfer"),
    (b"<RECINTRATRNRS>", b"</RECINTRATRNRS>", "recurring"),
    (b"<BANKMAILTRNRS>", b"</BANKMAILTRNRS>", "bankmail"),
    (b"<MAILTRNRS>", b"</MAILTRNRS>", "mail"),
];

pub(crate) const KIND_COUNT: usize = 9;

/// How many of the kinds are synchronisations. Answers within one aren't counted.
const SYNC_COUNT: usize = 4;

/// What became of the signon.
#[derive(Clone, Copy, Debug, PartialEq, Eq)]
pub(crate) enum Signon {
    /// There is none in the reply.
    Absent,
    /// The user signed on.
    Taken,
    /// It failed.
    Refused,
}

/// What a reply tells.
#[derive(Clone, Copy, Debug)]
pub(crate) struct ReplyNote {
    /// The status of HTTP.
    pub(crate) status: u16,
    /// The number of bytes of head and body.
    pub(crate) size: u64,
    /// What became of the signon.
    pub(crate) signon: Signon,
    /// How many asks of each kind it answers.
    pub(crate) asks: [u32; KIND_COUNT],
}

impl ReplyNote {
    /// Whether the reply is a warning: a failed signon, or a fault of the bank's own.
    pub(crate) fn is_warning(&self) -> bool {
        self.signon == Signon::Refused || self.status >= 500
    }
}

/// What the reply at the start of the bytes tells. None where they are no reply, or its head gives no length. The body is read
/// only where the status is 200 and the bytes are just its head and body.
pub(crate) fn note_of(bytes: &[u8]) -> Option<ReplyNote> {
    let head = read_response(bytes).ok()?;
    let length = head.length?;
    let mut note = ReplyNote {
        status: head.code,
        size: length.saturating_add(head.size as u64),
        signon: Signon::Absent,
        asks: [0; KIND_COUNT],
    };
    if head.code == 200 && bytes.len() as u64 == note.size {
        read_file(&bytes[head.size..], &mut note);
    }
    Some(note)
}

/// Notes what a reply file tells, whose tags are on lines of their own.
fn read_file(body: &[u8], note: &mut ReplyNote) {
    let mut inside = None;
    for line in body.split(|byte| *byte == b'\n') {
        let line = match line {
            [prefix @ .., b'\r'] => prefix,
            _ => line,
        };
        if note.signon == Signon::Absent {
            note.signon = signon_of(line);
        } else if line.ends_with(b"RS>") {
            inside = after_tag(line, inside, note);
        }
    }
}

/// What a line tells of the signon: its code is the first of a reply.
fn signon_of(line: &[u8]) -> Signon {
    match line.strip_prefix(b"<CODE>") {
        Some(b"0") => Signon::Taken,
        Some(_) => Signon::Refused,
        None => Signon::Absent,
    }
}

/// Counts the answer that a tag begins. Takes and answers the end of the synchronisation that the tag is in.
fn after_tag(
    tag: &[u8],
    inside: Option<&'static [u8]>,
    note: &mut ReplyNote,
) -> Option<&'static [u8]> {
    if let Some(end) = inside {
        return if tag == end { None } else { inside };
    }
    for index in 0..KIND_COUNT {
        let (start, end, _name) = KINDS[index];
        if tag == start {
            note.asks[index] = note.asks[index].saturating_add(1);
            return if index < SYNC_COUNT { Some(end) } else { None };
        }
    }
    None
}
