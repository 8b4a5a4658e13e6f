//! The values of the Open Financial Exchange profile that every other crate speaks of.
//!
//! Texts and uids, amounts and moments, accounts, request files and reply files. What a written file looks
//! like, and which bytes spell one, is in `specs/` as definitions over these values.
#![tactic(auto)]

mod account;
mod duplicate;
mod fault;
mod mail;
mod memory;
mod number;
mod recurring;
mod reply;
mod request;
mod sequence;
mod sync;
mod text;
mod told;
mod transfer;
mod uid;

pub use account::{AcctKind, AcctName};
pub use duplicate::Duplicate;
pub use fault::{FileFault, HeaderFault, TapeFault, TreeFault};
pub use mail::{MailRow, MailText};
pub use memory::OutOfMemory;
pub use number::{AcctId, Cents, Day, Moment, ObjectId, Status, UserId};
pub use recurring::{Freq, ModelRow, Recur};
pub use reply::{
    AskReplies, AskReply, Lines, ReplyFile, StatementBody, StatementLine, StatementList,
};
pub use request::{Ask, Asks, Period, RequestFile};
pub use sequence::Sequence;
pub use sync::{DeedReplies, Deeds, ObjectName, SyncAsk, SyncKind, SyncReply};
pub use text::{Text, TextFault, is_white_space, trim};
pub use told::{Note, Told};
pub use transfer::{Change, Deed, DeedReply, Family, TransferRow, XferCode, XferInfo};
pub use uid::{FileUid, TrnUid};
