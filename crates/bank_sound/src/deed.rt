//! Deeds: transfers, recurring transfers and mails.

ghost use Rattle.std.specs.Prelude.{◌≡◌, ◌↔◌, ◌<◌, ◌≤◌, IsTrue, unsigned_abs};
ghost use Rattle.bank_model.specs.Sound as bounds;

use crate::value::{is_day_option, is_name, is_sound_account, is_text};
use ofx_types::{Cents, Deed, MailText, Recur, Text, XferInfo};

/// The most bytes of the subject of a mail.
const MAX_SUBJECT: usize = 64;

/// The most bytes of the message of a mail.
const MAX_BODY: usize = 10_000;

/// The greatest amount either way: 99,999,999,999.99.
const MAX_CENTS: u64 = 9_999_999_999_999;

/// The greatest number of ten digits.
const MAX_ID: u64 = 9_999_999_999;

/// The most transfers of a series that ends.
const MAX_COUNT: u32 = 999;

pub(crate) fn is_sound_deed(deed: &Deed) -> bool
    ensures { IsTrue result ↔ bounds.IsSoundDeed deed.now }
{
    match deed {
        Deed::Transfer(info) => is_sound_info(info),
        Deed::ModifyTransfer(id, info) => is_id(*id) && is_sound_info(info),
        Deed::CancelTransfer(id) => is_id(*id),
        Deed::Model(recur, info) => is_sound_recur(*recur) && is_sound_info(info),
        Deed::ModifyModel(id, recur, info, _) => {
            is_id(*id) && is_sound_recur(*recur) && is_sound_info(info)
        }
        Deed::CancelModel(id, _) => is_id(*id),
        Deed::BankMail(account, mail) => is_sound_account(account) && is_sound_mail(mail),
        Deed::Mail(mail) => is_sound_mail(mail),
    }
}

fn is_sound_mail(mail: &MailText) -> bool
    ensures { IsTrue result ↔ bounds.IsSoundMail mail.now }
{
    mail.created.is_in_calendar()
        && is_name(&mail.sender)
        && is_name(&mail.target)
        && is_sound_letter(&mail.subject, &mail.body)
}

/// Whether a letter of this subject and this body may be written: the subject has 1 to 64 bytes, the body 1 to 10,000.
pub fn is_sound_letter(subject: &Text, body: &Text) -> bool
    ensures { IsTrue result ↔ (bounds.IsTextWithin 64 subject.now × bounds.IsTextWithin 10000 body.now) }
{
    is_text(subject, MAX_SUBJECT) && is_text(body, MAX_BODY)
}

/// Whether the values of a transfer are within their bounds: both accounts, the amount, and the due day where it has one.
pub fn is_sound_info(info: &XferInfo) -> bool
    ensures { IsTrue result ↔ bounds.IsSoundInfo info.now }
{
    is_sound_account(&info.from)
        && is_sound_account(&info.to)
        && is_sound_amount(info.amount)
        && is_day_option(info.due)
}

/// Whether an amount is at most 99,999,999,999.99 either way.
pub fn is_sound_amount(amount: Cents) -> bool
    ensures { IsTrue result ↔ (unsigned_abs amount.0 ≤ 9999999999999) }
{
    amount.0.unsigned_abs() <= MAX_CENTS
}

/// Whether an id has at most ten digits.
pub fn is_id(id: u64) -> bool
    ensures { IsTrue result ↔ bounds.IsId id }
{
    id <= MAX_ID
}

/// Whether a series has 1 to 999 transfers, or no end.
pub fn is_sound_recur(recur: Recur) -> bool
    ensures { IsTrue result ↔ bounds.IsSoundRecur recur }
{
    match recur.count {
        Some(count) => 0 < count && count <= MAX_COUNT,
        None => true,
    }
}
