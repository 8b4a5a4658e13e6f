//! What a mail says.

ghost use Rattle.std.specs.Prelude.{◌≡◌, ◌≤◌, ◌++◌, length, IfOk, OnOk};
ghost use Rattle.std.specs.Io.{StartsWith};
ghost use Rattle.bank_model.specs.Sound.{IsSoundMail};
ghost use Rattle.record_fields.specs.Answers.{ReadsField};
ghost use Rattle.record_fields.specs.FieldCoding.{mail_bytes};
ghost use Rattle.record_fields.specs.PartReading.{mail_at};

use crate::bounded::get_moment;
use crate::fault::RecordFault;
use crate::number::put_i64;
use crate::text::{get_filled_text, put_text};
use ofx_types::{MailText, OutOfMemory};
use std::alloc::Global;

/// The mail at `at`.
///
/// `Bad(k)` at the first field without a form, at k: the moment, of the years 1900 to 9999, the sender or the target, of
/// 1 to 32 bytes each, the subject, of 1 to 64, or the body, of 1 to 10,000.
#[tactic(auto, unfolding(crate::specs::PartReading::mail_at))]
pub fn get_mail(alloc: Global, rec: &[u8], at: usize) -> Result<(MailText, usize), RecordFault>
    requires { at ≤ length rec.now }
    ensures gives { ReadsField result (mail_at rec.now at) }
    ensures within { IfOk result (λ found. found.1 ≤ length rec.now) }
{
    let (created, next) = get_moment(rec, at)?;
    let (sender, next) = get_filled_text(alloc, rec, next, 32)?;
    let (target, next) = get_filled_text(alloc, rec, next, 32)?;
    let (subject, next) = get_filled_text(alloc, rec, next, 64)?;
    let (body, next) = get_filled_text(alloc, rec, next, 10_000)?;
    let mail = MailText {
        created,
        sender,
        target,
        subject,
        body,
    };
    Ok((mail, next))
}

/// Appends a mail that is within its bounds.
#[tactic(auto, unfolding(crate::specs::FieldCoding::mail_bytes))]
pub fn put_mail(value: &MailText, out: &mut Vec<u8>) -> Result<(), OutOfMemory>
    requires { IsSoundMail value.now }
    ensures bytes { OnOk result (out.new.items ≡ out.old.items ++ mail_bytes value.now) }
    ensures kept { StartsWith out.new.items out.old.items }
{
    put_i64(&value.created.0, out)?;
    put_text(&value.sender, out)?;
    put_text(&value.target, out)?;
    put_text(&value.subject, out)?;
    put_text(&value.body, out)
}
