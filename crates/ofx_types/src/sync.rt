//! Synchronisation by tokens: what a client asks of an object's history, and what it gets (OFX 1.6, "Data
//! Synchronization").

ghost use Rattle.std.specs.Prelude.{◌≡◌};

use crate::account::AcctName;
use crate::duplicate::Duplicate;
use crate::memory::OutOfMemory;
use crate::sequence::Sequence;
use crate::text::Text;
use crate::transfer::{Deed, DeedReply, Family};
use crate::uid::TrnUid;

/// What is synchronised. Each object has a history of its own.
#[derive(Debug, Drop)]
pub enum ObjectName {
    /// The transfers out of an account (INTRASYNCRQ).
    Intra(AcctName),
    /// The recurring transfers out of an account (RECINTRASYNCRQ).
    RecIntra(AcctName),
    /// The mail about an account (BANKMAILSYNCRQ).
    BankMail(AcctName),
    /// The user's other mail (MAILSYNCRQ).
    Mail,
}

/// How much of an object's history a client asks for.
#[derive(Debug, Drop)]
pub enum SyncKind {
    /// What came after this token, a text of 1 to 64 bytes (TOKEN).
    After(Text),
    /// The newest token alone (TOKENONLY).
    TokenOnly,
    /// All that exists now (REFRESH).
    Refresh,
}

/// Deeds under uids of their own, in the order in which they are done.
pub type Deeds = Sequence<(TrnUid, Deed)>;

/// A synchronisation of one object.
#[derive(Debug, Drop)]
pub struct SyncAsk {
    /// The object.
    pub object: ObjectName,
    /// How much of its history is asked for.
    pub kind: SyncKind,
    /// Whether the deeds are to be done only for a client that has missed nothing (REJECTIFMISSING).
    pub reject: bool,
    /// The deeds that are asked for, each of the object's family.
    pub deeds: Deeds,
}

/// Answers to deeds, in order.
pub type DeedReplies = Sequence<DeedReply>;

/// The answer to a synchronisation.
#[derive(Debug, Drop)]
pub struct SyncReply {
    /// The object.
    pub object: ObjectName,
    /// The object's newest token (TOKEN), 1 to 64 bytes.
    pub token: Text,
    /// Whether the client has missed what the bank no longer keeps (LOSTSYNC).
    pub lost: bool,
    /// The history, and after it the answers to the deeds.
    pub replies: DeedReplies,
}

impl Duplicate for ObjectName {
    fn copy(&self) -> Result<ObjectName, OutOfMemory> {
        match self {
            ObjectName::Intra(account) => Ok(ObjectName::Intra(account.copy()?)),
            ObjectName::RecIntra(account) => Ok(ObjectName::RecIntra(account.copy()?)),
            ObjectName::BankMail(account) => Ok(ObjectName::BankMail(account.copy()?)),
            ObjectName::Mail => Ok(ObjectName::Mail),
        }
    }
}

impl Duplicate for SyncKind {
    fn copy(&self) -> Result<SyncKind, OutOfMemory> {
        match self {
            SyncKind::After(token) => Ok(SyncKind::After(token.copy()?)),
            SyncKind::TokenOnly => Ok(SyncKind::TokenOnly),
            SyncKind::Refresh => Ok(SyncKind::Refresh),
        }
    }
}

impl Duplicate for (TrnUid, Deed) {
    fn copy(&self) -> Result<(TrnUid, Deed), OutOfMemory> {
        Ok((self.0.copy()?, self.1.copy()?))
    }
}

impl Duplicate for SyncAsk {
    fn copy(&self) -> Result<SyncAsk, OutOfMemory> {
        Ok(SyncAsk {
            object: self.object.copy()?,
            kind: self.kind.copy()?,
            reject: self.reject,
            deeds: self.deeds.copy()?,
        })
    }
}

impl Duplicate for SyncReply {
    fn copy(&self) -> Result<SyncReply, OutOfMemory> {
        Ok(SyncReply {
            object: self.object.copy()?,
            token: self.token.copy()?,
            lost: self.lost,
            replies: self.replies.copy()?,
        })
    }
}

impl ObjectName {
    ghost use Rattle.ofx_types.specs.SyncForm.{object_family};

    /// What the object's changes belong to.
    pub fn family(&self) -> Family
        ensures { result ≡ object_family self.now }
    {
        match self {
            ObjectName::Intra(_) => Family::Intra,
            ObjectName::RecIntra(_) => Family::RecIntra,
            ObjectName::BankMail(_) => Family::BankMail,
            ObjectName::Mail => Family::Mail,
        }
    }
}
