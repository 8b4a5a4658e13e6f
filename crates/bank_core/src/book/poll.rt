//! Polls: a client asks for nothing but the newest tokens of objects. A poll is no event, and changes nothing.

ghost use Rattle.std.specs.Prelude.{◌≡◌, ◌<◌, ◌++◌, [], true, length, IfOk, OnOk};
ghost use Rattle.std.specs.List.{flat_map};
ghost use Rattle.std.specs.Fmt.{decimal};
ghost use Rattle.ofx_types.specs.Calendar.{IsMoment};
ghost use Rattle.ofx_types.specs.ReplyForm.{reply_text};
ghost use Rattle.bank_model.specs.Objects as objects;
ghost use Rattle.bank_model.specs.Objects.{object_named};
ghost use Rattle.bank_model.specs.Polls as rules;

use crate::book::Book;
use crate::book::answer::reply_file;
use bank_model::Printer;
use bank_queries::number_text;
use ofx_types::{
    Ask, AskReplies, AskReply, Duplicate, Moment, ObjectId, OutOfMemory, RequestFile, Sequence,
    SyncAsk, SyncReply, UserId,
};
use std::alloc::Global;

impl<P: Printer> Book<P> {
    /// The newest token of an object: the number of its last entry, 0 where there is none. Takes no memory.
    pub fn newest(&self, object: ObjectId) -> u64
        ensures { result ≡ objects.newest object self.now.state.entries }
    {
        self.ledger.newest(object)
    }

    /// The reply at a moment to a poll file of a user, who is one of the setup's.
    pub fn poll(
        &self,
        alloc: Global,
        user: UserId,
        file: &RequestFile,
        at: Moment,
    ) -> Result<Vec<u8>, OutOfMemory>
        requires known { user.0 < length self.now.setup.users }
        requires moment { IsMoment at.0 }
        requires poll { rules.is_poll file.now ≡ true }
        ensures { IfOk result (λ reply. reply.items
            ≡ reply_text (rules.poll_reply self.now.setup self.now.state user at file.now)) }
    {
        let replies = self.poll_answers(alloc, user, file.asks.items())?;
        let reply = reply_file(at, file, replies)?;
        self.printer.print(alloc, &reply)
    }

    /// The answers to polls.
    fn poll_answers(
        &self,
        alloc: Global,
        user: UserId,
        asks: &[Ask],
    ) -> Result<AskReplies, OutOfMemory>
        requires known { user.0 < length self.now.setup.users }
        ensures { IfOk result (λ replies. replies
            ≡ flat_map (rules.poll_answer self.now.setup self.now.state user) asks.now) }
    {
        let mut replies = Vec::with_capacity(alloc, asks.len())?;
        for ask in asks {
            self.answer_poll(alloc, user, &mut replies, ask)?;
        }
        Ok(Sequence::from_vec(replies))
    }

    /// Answers an ask that is a poll.
    fn answer_poll(
        &self,
        alloc: Global,
        user: UserId,
        replies: &mut Vec<AskReply>,
        ask: &Ask,
    ) -> Result<(), OutOfMemory>
        requires known { user.0 < length self.now.setup.users }
        ensures { OnOk result (replies.new.items
            ≡ replies.old.items ++ rules.poll_answer self.now.setup self.now.state user ask.now) }
    {
        match ask {
            Ask::Sync(ask) => {
                let reply = self.reported_token(alloc, user, ask)?;
                replies.push(AskReply::Sync(reply))?;
                Ok(())
            }
            Ask::Statement(_, _, _) => Ok(()),
            Ask::One(_, _) => Ok(()),
        }
    }

    /// The newest token of an object, and 0 where its account isn't the user's.
    fn reported_token(
        &self,
        alloc: Global,
        user: UserId,
        ask: &SyncAsk,
    ) -> Result<SyncReply, OutOfMemory>
        requires known { user.0 < length self.now.setup.users }
        ensures { IfOk result (λ reply. reply ≡ rules.reported_token ask.now
            (rules.newest_if_any self.now.state (object_named self.now.setup user ask.now.object))) }
    {
        match self.setup.object(user, &ask.object) {
            Some(object) => token_reply(alloc, ask, self.newest(object), false),
            None => token_reply(alloc, ask, 0, true),
        }
    }
}

/// A reply that gives a token alone.
fn token_reply(
    alloc: Global,
    ask: &SyncAsk,
    token: u64,
    lost: bool,
) -> Result<SyncReply, OutOfMemory>
    ensures { IfOk result (λ reply. reply ≡ record {
      object = ask.now.object;
      token = decimal token;
      lost = lost;
      replies = [];
    }) }
{
    Ok(SyncReply {
        object: ask.object.copy()?,
        token: number_text(alloc, token)?,
        lost,
        replies: Sequence::new(alloc),
    })
}
