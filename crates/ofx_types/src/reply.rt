//! Reply files: what the bank answers (OFX 1.6, "Signon", "Statement Download").

use crate::account::AcctName;
use crate::duplicate::Duplicate;
use crate::memory::OutOfMemory;
use crate::number::{Cents, Moment};
use crate::sequence::Sequence;
use crate::sync::SyncReply;
use crate::transfer::DeedReply;
use crate::uid::{FileUid, TrnUid};

/// A posted transfer as a statement lists it (STMTTRN).
#[derive(Clone, Copy, Debug, PartialEq, Eq)]
pub struct StatementLine {
    /// The bank's number of the transaction (FITID).
    pub number: u64,
    /// When it was posted (DTPOSTED).
    pub posted: Moment,
    /// The amount (TRNAMT), negative at the account that paid.
    pub amount: Cents,
}

/// The lines of a statement, in the order of posting.
pub type Lines = Sequence<StatementLine>;

/// The transactions of a period (BANKTRANLIST).
#[derive(Debug, Drop)]
pub struct StatementList {
    /// The period's first moment (DTSTART).
    pub start: Moment,
    /// The moment before which it ends (DTEND). Where the file gave no bound it is the reply's own moment, and the
    /// lines have no bound.
    pub end: Moment,
    /// What was posted in the period.
    pub lines: Lines,
}

/// A statement (STMTRS).
#[derive(Debug, Drop)]
pub struct StatementBody {
    /// The account.
    pub account: AcctName,
    /// The transactions, where the file asked for them.
    pub list: Option<StatementList>,
    /// The account's balance (LEDGERBAL).
    pub ledger: Cents,
    /// What may be spent (AVAILBAL).
    pub available: Cents,
    /// The moment of both balances (DTASOF).
    pub moment: Moment,
}

/// The answer to one ask.
#[derive(Debug, Drop)]
pub enum AskReply {
    /// The answer to a statement request (STMTTRNRS): its status code, and the statement exactly where the
    /// code is 0.
    Statement(TrnUid, u16, Option<StatementBody>),
    /// The answer to a deed (INTRATRNRS, RECINTRATRNRS, BANKMAILTRNRS, MAILTRNRS).
    One(DeedReply),
    /// The answer to a synchronisation (INTRASYNCRS, RECINTRASYNCRS, BANKMAILSYNCRS, MAILSYNCRS).
    Sync(SyncReply),
}

/// The answers of a file, in the order of its asks.
pub type AskReplies = Sequence<AskReply>;

/// A whole reply file.
#[derive(Debug, Drop)]
pub struct ReplyFile {
    /// The version of the request's header, which is repeated.
    pub version: u16,
    /// The request's name (NEWFILEUID), which is repeated.
    pub newer: Option<FileUid>,
    /// The status code of the signon (SONRS), 0 where it succeeded.
    pub signon: u16,
    /// The moment of the reply (DTSERVER).
    pub moment: Moment,
    /// The answers.
    pub replies: AskReplies,
}

impl Duplicate for StatementLine {
    fn copy(&self) -> Result<StatementLine, OutOfMemory> {
        Ok(*self)
    }
}

impl Duplicate for StatementList {
    fn copy(&self) -> Result<StatementList, OutOfMemory> {
        Ok(StatementList {
            start: self.start,
            end: self.end,
            lines: self.lines.copy()?,
        })
    }
}

impl Duplicate for StatementBody {
    fn copy(&self) -> Result<StatementBody, OutOfMemory> {
        Ok(StatementBody {
            account: self.account.copy()?,
            list: self.list.copy()?,
            ledger: self.ledger,
            available: self.available,
            moment: self.moment,
        })
    }
}

impl Duplicate for AskReply {
    fn copy(&self) -> Result<AskReply, OutOfMemory> {
        match self {
            AskReply::Statement(trnuid, code, body) => {
                Ok(AskReply::Statement(trnuid.copy()?, *code, body.copy()?))
            }
            AskReply::One(reply) => Ok(AskReply::One(reply.copy()?)),
            AskReply::Sync(reply) => Ok(AskReply::Sync(reply.copy()?)),
        }
    }
}

impl Duplicate for ReplyFile {
    fn copy(&self) -> Result<ReplyFile, OutOfMemory> {
        Ok(ReplyFile {
            version: self.version,
            newer: self.newer.copy()?,
            signon: self.signon,
            moment: self.moment,
            replies: self.replies.copy()?,
        })
    }
}
