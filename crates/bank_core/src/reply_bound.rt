//! How long a new reply may become.

use ofx_types::{AskReply, OutOfMemory};

/// Fewer bytes than any line of a statement, answer to a deed or row of a history has in a printed reply.
const LEAST_PRINTED: usize = 64;

/// How many more bytes a reply may have. It is known to be too long before all of its rows are gathered, so that a small file
/// doesn't make the bank gather rows without end.
#[derive(Clone, Copy)]
pub(crate) struct ReplyBound {
    left: usize,
}

impl ReplyBound {
    /// At most so many bytes.
    pub(crate) fn of(most: usize) -> ReplyBound {
        ReplyBound { left: most }
    }

    /// Any number of bytes.
    pub(crate) fn none() -> ReplyBound {
        ReplyBound { left: usize::MAX }
    }

    /// What is left of it after this answer at least. Refused where the answer is too long.
    pub(crate) fn after(self, answer: &AskReply) -> Result<ReplyBound, OutOfMemory> {
        match self.left.checked_sub(least_length(answer)) {
            Some(left) => Ok(ReplyBound { left }),
            None => Err(OutOfMemory),
        }
    }
}

/// How many bytes an answer has at least in a printed reply.
fn least_length(answer: &AskReply) -> usize {
    rows_in(answer).saturating_mul(LEAST_PRINTED)
}

/// How many lines of a statement, answers to deeds and rows of a history are in an answer.
fn rows_in(answer: &AskReply) -> usize {
    match answer {
        AskReply::Statement(_, _, Some(body)) => match &body.list {
            Some(list) => list.lines.items().len(),
            None => 0,
        },
        AskReply::Statement(_, _, None) => 0,
        AskReply::One(_) => 1,
        AskReply::Sync(reply) => reply.replies.items().len(),
    }
}
