//! Transactions of any kind: transfers, recurring transfers and mail, and the answers to them, read and written.

ghost use Rattle.std.specs.Prelude.{◌≡◌, ◌++◌, OnOk};
ghost use Rattle.std.specs.Io.{StartsWith};
ghost use Rattle.ofx_types.specs.FormWords.{ReadsForm};
ghost use Rattle.ofx_types.specs.Printable.{HasChangeByCode};
ghost use Rattle.ofx_types.specs.SyncReading as reading;
ghost use Rattle.ofx_types.specs.SyncReading.{transaction_of, transaction_reply_of};
ghost use Rattle.ofx_types.specs.DeedText.{deed_text, deed_reply_text};
ghost use Rattle.msg_sync.specs.PrintableSyncs.{IsPrintableTransaction};

use msg_deed::{print_deed, print_reply, read_deed, read_reply};
use msg_mail::{mail_print_deed, mail_print_reply, mail_read_deed, mail_read_reply};
use ofx_tree::{Cursor, Sheet};
use ofx_types::{Change, Deed, DeedReply, OutOfMemory, TreeFault, TrnUid};
use std::alloc::Global;

/// The uid and the deed that a transaction is: INTRATRNRQ, RECINTRATRNRQ, BANKMAILTRNRQ or MAILTRNRQ.
///
/// The first fault of its form, with its offset, which is its own where it has another name; `OutOfMemory` where memory
/// for its texts is refused.
#[tactic(auto, unfolding(ofx_types::specs::SyncReading::transaction_of))]
pub fn read_transaction(alloc: Global, c: &Cursor<'_>) -> Result<(TrnUid, Deed), TreeFault>
    ensures { ReadsForm result (transaction_of c.now) }
{
    if is_mail(c) {
        return mail_read_deed(alloc, c);
    }
    read_deed(alloc, c)
}

/// Whether a transaction is one of mail.
fn is_mail(c: &Cursor<'_>) -> bool
    ensures { result ≡ reading.is_mail c.now }
{
    c.name() == b"BANKMAILTRNRQ".as_slice() || c.name() == b"MAILTRNRQ".as_slice()
}

/// Writes the transaction of a deed. Its due day, if it has one, and the moment of a mail lie in the years 1900 to 9999.
pub fn print_transaction(trnuid: &TrnUid, deed: &Deed, out: &mut Sheet) -> Result<(), OutOfMemory>
    requires { IsPrintableTransaction deed.now }
    ensures ok { OnOk result (out.new ≡ out.old ++ deed_text trnuid.now deed.now) }
    ensures kept { StartsWith out.new out.old }
{
    match deed {
        Deed::BankMail(_, _) | Deed::Mail(_) => mail_print_deed(trnuid, deed, out),
        Deed::Transfer(_) | Deed::ModifyTransfer(_, _) | Deed::CancelTransfer(_) => {
            print_deed(trnuid, deed, out)
        }
        Deed::Model(_, _) | Deed::ModifyModel(_, _, _, _) | Deed::CancelModel(_, _) => {
            print_deed(trnuid, deed, out)
        }
    }
}

/// The answer that the reply to a transaction is: INTRATRNRS, RECINTRATRNRS, BANKMAILTRNRS or MAILTRNRS.
///
/// The first fault of its form, with its offset, which is its own where it has another name; `OutOfMemory` where memory
/// for its texts is refused.
#[tactic(auto, unfolding(ofx_types::specs::SyncReading::transaction_reply_of))]
pub fn read_transaction_reply(alloc: Global, c: &Cursor<'_>) -> Result<DeedReply, TreeFault>
    ensures { ReadsForm result (transaction_reply_of c.now) }
{
    if is_mail_reply(c) {
        return mail_read_reply(alloc, c);
    }
    read_reply(alloc, c)
}

/// Whether the reply to a transaction is one of mail.
fn is_mail_reply(c: &Cursor<'_>) -> bool
    ensures { result ≡ reading.is_mail_reply c.now }
{
    c.name() == b"BANKMAILTRNRS".as_slice() || c.name() == b"MAILTRNRS".as_slice()
}

/// Writes the answer to a transaction. It has a change exactly where its code is 0.
pub fn print_transaction_reply(r: &DeedReply, out: &mut Sheet) -> Result<(), OutOfMemory>
    requires { HasChangeByCode r.now.code r.now.change }
    ensures ok { OnOk result (out.new ≡ out.old ++ deed_reply_text r.now) }
    ensures kept { StartsWith out.new out.old }
{
    match &r.change {
        None => print_reply(r, out),
        Some(Change::NewMail(_)) => mail_print_reply(r, out),
        Some(Change::NewTransfer(_) | Change::SetTransfer(_) | Change::DropTransfer(_)) => {
            print_reply(r, out)
        }
        Some(Change::NewModel(_) | Change::SetModel(_, _) | Change::DropModel(_, _)) => {
            print_reply(r, out)
        }
    }
}
