//! Transfers inside the bank: what a client asks for, the rows that the bank keeps, and what is reported of them
//! (OFX 1.6, "Intrabank Funds Transfer").

ghost use Rattle.std.specs.Prelude.{◌≡◌};
ghost use Rattle.ofx_types.specs.TransferForm.{code_word};

use crate::account::AcctName;
use crate::duplicate::Duplicate;
use crate::mail::{MailRow, MailText};
use crate::memory::OutOfMemory;
use crate::number::{Cents, Day, Moment};
use crate::recurring::{ModelRow, Recur};
use crate::uid::TrnUid;

/// What a client says of a transfer (XFERINFO).
#[derive(Debug, Drop)]
pub struct XferInfo {
    /// The source (BANKACCTFROM).
    pub from: AcctName,
    /// The destination (BANKACCTTO).
    pub to: AcctName,
    /// The amount (TRNAMT).
    pub amount: Cents,
    /// The day on which it is due (DTDUE). None is the business day.
    pub due: Option<Day>,
}

/// What a client asks to be done.
#[derive(Debug, Drop)]
pub enum Deed {
    /// A transfer (INTRARQ).
    Transfer(XferInfo),
    /// A change of the transfer with this id (INTRAMODRQ).
    ModifyTransfer(u64, XferInfo),
    /// The cancellation of the transfer with this id (INTRACANRQ).
    CancelTransfer(u64),
    /// A recurring transfer (RECINTRARQ). The day of what is said of its transfers is that of the first one.
    Model(Recur, XferInfo),
    /// A change of the recurring transfer with this id, and whether the transfers that wait are changed too
    /// (RECINTRAMODRQ, MODPENDING).
    ModifyModel(u64, Recur, XferInfo, bool),
    /// The cancellation of the recurring transfer with this id, and whether the transfers that wait are cancelled
    /// too (RECINTRACANRQ, CANPENDING).
    CancelModel(u64, bool),
    /// A mail about an account (BANKMAILRQ).
    BankMail(AcctName, MailText),
    /// A mail (MAILRQ).
    Mail(MailText),
}

/// How far a transfer is (XFERPRCCODE).
#[derive(Clone, Copy, Debug, PartialEq, Eq)]
pub enum XferCode {
    /// It waits for its day (WILLPROCESSON).
    Waiting,
    /// It is posted (POSTEDON).
    Posted,
    /// It is closed, since the source had no cover (NOFUNDSON).
    NoFunds,
    /// It is cancelled (CANCELEDON).
    Cancelled,
}

impl XferCode {
    /// Its word in files.
    pub fn word(self) -> &'static [u8]
        ensures { result.now ≡ code_word self }
    {
        match self {
            XferCode::Waiting => b"WILLPROCESSON",
            XferCode::Posted => b"POSTEDON",
            XferCode::NoFunds => b"NOFUNDSON",
            XferCode::Cancelled => b"CANCELEDON",
        }
    }
}

/// A transfer as the bank keeps it.
#[derive(Debug, Drop)]
pub struct TransferRow {
    /// Its id (SRVRTID): the number of the entry that made it.
    pub id: u64,
    /// The recurring transfer that made it (RECSRVRTID). 0 is none.
    pub model: u64,
    /// The source.
    pub from: AcctName,
    /// The destination.
    pub to: AcctName,
    /// The amount.
    pub amount: Cents,
    /// The day on which it is due.
    pub due: Day,
    /// How far it is.
    pub code: XferCode,
    /// When it was posted or closed, and while it waits the midnight of its due day (DTXFERPRC).
    pub stamp: Moment,
}

/// What an entry of the bank's history says.
#[derive(Debug, Drop)]
pub enum Change {
    /// A new transfer.
    NewTransfer(TransferRow),
    /// A transfer has this row from now on.
    SetTransfer(TransferRow),
    /// The transfer with this id is cancelled.
    DropTransfer(u64),
    /// A new recurring transfer.
    NewModel(ModelRow),
    /// A recurring transfer has this row from now on and begins anew. The flag says whether the transfers that
    /// wait are changed too.
    SetModel(ModelRow, bool),
    /// The recurring transfer with this id is cancelled. The flag says whether the transfers that wait are too.
    DropModel(u64, bool),
    /// A mail came in, or went out.
    NewMail(MailRow),
}

/// The kinds of what is synchronised.
#[derive(Clone, Copy, Debug, PartialEq, Eq)]
pub enum Family {
    /// Transfers.
    Intra,
    /// Recurring transfers.
    RecIntra,
    /// Mail about an account.
    BankMail,
    /// Mail.
    Mail,
}

/// The answer to a deed.
#[derive(Debug, Drop)]
pub struct DeedReply {
    /// The uid that the client gave to it (TRNUID), `0` where the bank acted by itself.
    pub trnuid: TrnUid,
    /// What it belongs to.
    pub family: Family,
    /// Its status code.
    pub code: u16,
    /// What was done, exactly where the code is 0.
    pub change: Option<Change>,
}

impl Duplicate for XferInfo {
    fn copy(&self) -> Result<XferInfo, OutOfMemory> {
        Ok(XferInfo {
            from: self.from.copy()?,
            to: self.to.copy()?,
            amount: self.amount,
            due: self.due,
        })
    }
}

impl Duplicate for Deed {
    fn copy(&self) -> Result<Deed, OutOfMemory> {
        match self {
            Deed::Transfer(info) => Ok(Deed::Transfer(info.copy()?)),
            Deed::ModifyTransfer(id, info) => Ok(Deed::ModifyTransfer(*id, info.copy()?)),
            Deed::CancelTransfer(id) => Ok(Deed::CancelTransfer(*id)),
            Deed::Model(recur, info) => Ok(Deed::Model(*recur, info.copy()?)),
            Deed::ModifyModel(id, recur, info, pending) => {
                Ok(Deed::ModifyModel(*id, *recur, info.copy()?, *pending))
            }
            Deed::CancelModel(id, pending) => Ok(Deed::CancelModel(*id, *pending)),
            Deed::BankMail(account, mail) => Ok(Deed::BankMail(account.copy()?, mail.copy()?)),
            Deed::Mail(mail) => Ok(Deed::Mail(mail.copy()?)),
        }
    }
}

impl Duplicate for TransferRow {
    fn copy(&self) -> Result<TransferRow, OutOfMemory> {
        Ok(TransferRow {
            id: self.id,
            model: self.model,
            from: self.from.copy()?,
            to: self.to.copy()?,
            amount: self.amount,
            due: self.due,
            code: self.code,
            stamp: self.stamp,
        })
    }
}

impl Duplicate for Change {
    fn copy(&self) -> Result<Change, OutOfMemory> {
        match self {
            Change::NewTransfer(row) => Ok(Change::NewTransfer(row.copy()?)),
            Change::SetTransfer(row) => Ok(Change::SetTransfer(row.copy()?)),
            Change::DropTransfer(id) => Ok(Change::DropTransfer(*id)),
            Change::NewModel(row) => Ok(Change::NewModel(row.copy()?)),
            Change::SetModel(row, pending) => Ok(Change::SetModel(row.copy()?, *pending)),
            Change::DropModel(id, pending) => Ok(Change::DropModel(*id, *pending)),
            Change::NewMail(row) => Ok(Change::NewMail(row.copy()?)),
        }
    }
}

impl Duplicate for DeedReply {
    fn copy(&self) -> Result<DeedReply, OutOfMemory> {
        Ok(DeedReply {
            trnuid: self.trnuid.copy()?,
            family: self.family,
            code: self.code,
            change: self.change.copy()?,
        })
    }
}

impl Deed {
    ghost use Rattle.ofx_types.specs.DeedForm.{family_of};

    /// What the deed belongs to.
    pub fn family(&self) -> Family
        ensures { result ≡ family_of self.now }
    {
        match self {
            Deed::Transfer(_) | Deed::ModifyTransfer(_, _) | Deed::CancelTransfer(_) => {
                Family::Intra
            }
            Deed::Model(_, _) | Deed::ModifyModel(_, _, _, _) | Deed::CancelModel(_, _) => {
                Family::RecIntra
            }
            Deed::BankMail(_, _) => Family::BankMail,
            Deed::Mail(_) => Family::Mail,
        }
    }
}

impl Family {
    ghost use Rattle.ofx_types.specs.SyncForm.{is_mail_family};

    /// Whether it is mail about nothing in particular, which is in a message set of its own.
    pub fn is_mail(self) -> bool
        ensures { result ≡ is_mail_family self }
    {
        self == Family::Mail
    }
}
