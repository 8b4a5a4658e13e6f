//! Request files: what a client asks of the bank (OFX 1.6, "Signon", "Statement Download", "File-Based Error Recovery").

use crate::account::AcctName;
use crate::duplicate::Duplicate;
use crate::memory::OutOfMemory;
use crate::number::Moment;
use crate::sequence::Sequence;
use crate::sync::SyncAsk;
use crate::text::Text;
use crate::transfer::Deed;
use crate::uid::{FileUid, TrnUid};

/// Which transactions a statement is to list (INCTRAN).
#[derive(Clone, Copy, Debug, PartialEq, Eq)]
pub struct Period {
    /// The first moment (DTSTART). None is 1 January 1900.
    pub start: Option<Moment>,
    /// The moment before which the list ends (DTEND). None is no bound.
    pub end: Option<Moment>,
    /// Whether the transactions are to be listed at all (INCLUDE).
    pub include: bool,
}

/// One thing that a file asks.
#[derive(Debug, Drop)]
pub enum Ask {
    /// A statement of an account (STMTTRNRQ), with the period of its list where one was given.
    Statement(TrnUid, AcctName, Option<Period>),
    /// A deed under a uid of its own (INTRATRNRQ, RECINTRATRNRQ, BANKMAILTRNRQ, MAILTRNRQ).
    One(TrnUid, Deed),
    /// A synchronisation of an object (INTRASYNCRQ, RECINTRASYNCRQ, BANKMAILSYNCRQ, MAILSYNCRQ).
    Sync(SyncAsk),
}

/// The asks of a file, in the order in which they are answered.
pub type Asks = Sequence<Ask>;

/// A whole request file.
#[derive(Debug, Drop)]
pub struct RequestFile {
    /// The version of its header: 102, 103, 151 or 160.
    pub version: u16,
    /// The file whose reply the client has received (OLDFILEUID).
    pub older: Option<FileUid>,
    /// The name of this file (NEWFILEUID).
    pub newer: Option<FileUid>,
    /// The user's name (USERID), 1 to 32 bytes.
    pub user: Text,
    /// The user's password (USERPASS), 1 to 64 bytes.
    pub pass: Text,
    /// What the file asks.
    pub asks: Asks,
}

impl Duplicate for Ask {
    fn copy(&self) -> Result<Ask, OutOfMemory> {
        match self {
            Ask::Statement(trnuid, account, period) => {
                Ok(Ask::Statement(trnuid.copy()?, account.copy()?, *period))
            }
            Ask::One(trnuid, deed) => Ok(Ask::One(trnuid.copy()?, deed.copy()?)),
            Ask::Sync(ask) => Ok(Ask::Sync(ask.copy()?)),
        }
    }
}

impl Duplicate for RequestFile {
    fn copy(&self) -> Result<RequestFile, OutOfMemory> {
        Ok(RequestFile {
            version: self.version,
            older: self.older.copy()?,
            newer: self.newer.copy()?,
            user: self.user.copy()?,
            pass: self.pass.copy()?,
            asks: self.asks.copy()?,
        })
    }
}
