//! Replies to polls, by tokens that are handed in. A poll is no event, and changes nothing.

ghost use Rattle.std.specs.Prelude.{◌≡◌, ◌++◌, [], List, Option, IfOk, OnOk};
ghost use Rattle.std.specs.Fmt.{decimal};
ghost use Rattle.ofx_types.specs.Calendar.{IsMoment};
ghost use Rattle.ofx_types.specs.ReplyForm.{reply_text};
ghost use Rattle.bank_model.specs.Polls.{reported_token};
ghost use Rattle.token_board.specs.declared.view.Load.{Load};
ghost use Rattle.bank_callers.specs.Polled.{answer_with, answers_reported, poll_reported};

use bank_model::Printer;
use bank_queries::number_text;
use ofx_types::{
    Ask, AskReplies, AskReply, Duplicate, Moment, OutOfMemory, ReplyFile, RequestFile, Sequence,
    SyncAsk, SyncReply,
};
use std::alloc::Global;

/// The code of a signon that succeeded.
const SIGNED_ON: u16 = 0;

/// Answers an ask of a poll by the newest token of its object. There is none where the account isn't the user's.
///
/// ```rust
/// use bank_callers::add_answer;
/// use ofx_types::{Ask, AskReply, ObjectName, Sequence, SyncAsk, SyncKind};
///
/// let alloc = rt.alloc();
/// let ask = Ask::Sync(SyncAsk {
///     object: ObjectName::Mail,
///     kind: SyncKind::TokenOnly,
///     reject: false,
///     deeds: Sequence::new(alloc),
/// });
/// let mut replies = Vec::new(alloc);
/// add_answer(alloc, &mut replies, &ask, Some(7)).expect(&rt, "room");
/// let [AskReply::Sync(reply)] = replies.as_slice() else {
///     panic!(rt; "one reply");
/// };
/// assert!(rt; reply.token.as_bytes() == b"7" && !reply.lost);
/// ```
pub fn add_answer(
    alloc: Global,
    replies: &mut Vec<AskReply>,
    ask: &Ask,
    token: Option<u64>,
) -> Result<(), OutOfMemory>
    ensures { OnOk result (replies.new.items ≡ replies.old.items ++ answer_with ask.now token) }
{
    match ask {
        Ask::Sync(ask) => {
            let reply = sync_reply(alloc, ask, token)?;
            replies.push(AskReply::Sync(reply))?;
            Ok(())
        }
        Ask::Statement(_, _, _) => Ok(()),
        Ask::One(_, _) => Ok(()),
    }
}

/// The reply at a moment to a poll file whose asks have these answers.
#[tactic(auto, unfolding(crate::specs::Polled::poll_reported))]
pub fn poll_reply<P: Printer>(
    alloc: Global,
    printer: &P,
    at: Moment,
    file: &RequestFile,
    replies: AskReplies,
) -> Result<Vec<u8>, OutOfMemory>
    requires moment { IsMoment at.0 }
    requires reported { (loads : List (Option Load)) × (replies ≡ answers_reported file.now.asks loads) }
    ensures { (loads : List (Option Load)) → replies ≡ answers_reported file.now.asks loads
        → IfOk result (λ reply. reply.items ≡ reply_text (poll_reported file.now at loads)) }
{
    let reply = ReplyFile {
        version: file.version,
        newer: file.newer.copy()?,
        signon: SIGNED_ON,
        moment: at,
        replies,
    };
    printer.print(alloc, &reply)
}

/// The reply to an ask for a token.
fn sync_reply(alloc: Global, ask: &SyncAsk, token: Option<u64>) -> Result<SyncReply, OutOfMemory>
    ensures { IfOk result (λ reply. reply ≡ reported_token ask.now token) }
{
    match token {
        Some(token) => token_reply(alloc, ask, token, false),
        None => token_reply(alloc, ask, 0, true),
    }
}

/// A reply that gives a token alone.
fn token_reply(
    alloc: Global,
    ask: &SyncAsk,
    token: u64,
    lost: bool,
) -> Result<SyncReply, OutOfMemory>
    ensures { IfOk result (λ reply. reply ≡ record {
      object = ask.now.object;
      token = decimal token;
      lost = lost;
      replies = [];
    }) }
{
    Ok(SyncReply {
        object: ask.object.copy()?,
        token: number_text(alloc, token)?,
        lost,
        replies: Sequence::new(alloc),
    })
}
