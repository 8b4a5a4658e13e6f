//! The names of the transactions of deeds, mails too (INTRATRNRQ, RECINTRATRNRQ, BANKMAILTRNRQ, MAILTRNRQ), and of the
//! answers to them.

ghost use Rattle.std.specs.Prelude.{◌≡◌};
ghost use Rattle.ofx_types.specs.DeedForm as forms;

use ofx_types::{Deed, Family};

/// The name of the aggregate of a deed, a mail too.
pub fn request_name(deed: &Deed) -> &'static [u8]
    ensures { result.now ≡ forms.request_name (forms.family_of deed.now) }
{
    match deed {
        Deed::Transfer(_) | Deed::ModifyTransfer(_, _) | Deed::CancelTransfer(_) => b"INTRATRNRQ",
        Deed::Model(_, _) | Deed::ModifyModel(_, _, _, _) | Deed::CancelModel(_, _) => {
            b"RECINTRATRNRQ"
        }
        Deed::BankMail(_, _) => b"BANKMAILTRNRQ",
        Deed::Mail(_) => b"MAILTRNRQ",
    }
}

/// The name of the aggregate of an answer.
pub fn reply_name(family: Family) -> &'static [u8]
    ensures { result.now ≡ forms.reply_name family }
{
    match family {
        Family::Intra => b"INTRATRNRS",
        Family::RecIntra => b"RECINTRATRNRS",
        Family::BankMail => b"BANKMAILTRNRS",
        Family::Mail => b"MAILTRNRS",
    }
}
