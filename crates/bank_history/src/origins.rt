//! Where what is left of an object came from: the ids of what its history made.

ghost use Rattle.std.specs.Prelude.{◌≡◌, ◌∷◌, ◌++◌, [], List, option_to_list, IfOk, OnOk};
ghost use Rattle.bank_mail.specs.MailsView.{mail_in};
ghost use Rattle.bank_history.specs.Made.{origin_in, made_from};
ghost use Rattle.bank_history.specs.declared.origins.Origin.{Origin};
ghost use Rattle.bank_history.specs.declared.origins.Origin.TheVariants.{Mail};

use crate::made::Made;
use ofx_types::{Change, Duplicate, MailRow, OutOfMemory};

/// What an entry made. Mails lie apart from their origins, in the same order.
#[derive(Clone, Copy)]
pub(crate) enum Origin {
    /// The transfer with this id.
    Transfer(u64),
    /// The recurring transfer with this id.
    Model(u64),
    /// The next mail.
    Mail,
}

/// The origin that a change is.
pub(crate) fn origin_of(change: &Change) -> Option<Origin>
    ensures { option_to_list result ≡ origin_in change.now }
{
    match change {
        Change::NewTransfer(row) => Some(Origin::Transfer(row.id)),
        Change::NewModel(row) => Some(Origin::Model(row.id)),
        Change::NewMail(_) => Some(Origin::Mail),
        Change::SetTransfer(_) => None,
        Change::DropTransfer(_) => None,
        Change::SetModel(_, _) => None,
        Change::DropModel(_, _) => None,
    }
}

/// A copy of the mail that a change brings.
pub(crate) fn mail_of(change: &Change) -> Result<Option<MailRow>, OutOfMemory>
    ensures { IfOk result (λ mail. option_to_list mail ≡ mail_in change.now) }
{
    match change {
        Change::NewMail(row) => {
            let copy = row.copy()?;
            Ok(Some(copy))
        }
        Change::NewTransfer(_) => Ok(None),
        Change::NewModel(_) => Ok(None),
        Change::SetTransfer(_) => Ok(None),
        Change::DropTransfer(_) => Ok(None),
        Change::SetModel(_, _) => Ok(None),
        Change::DropModel(_, _) => Ok(None),
    }
}

/// Puts what came of origins, with copies of the mails among it, after what is there.
pub(crate) fn put_origins(
    made: &mut Vec<Made>,
    origins: &[Origin],
    mails: &[MailRow],
) -> Result<(), OutOfMemory>
    ensures { OnOk result (made.new.items ≡ made.old.items ++ made_from origins.now mails.now) }
{
    let mut left = origins;
    let mut rest = mails;
    while let [origin, more @ ..] = left {
        match origin {
            Origin::Transfer(id) => made.push(Made::Transfer(*id))?,
            Origin::Model(id) => made.push(Made::Model(*id))?,
            Origin::Mail => rest = put_mail(made, rest)?,
        }
        left = more;
    }
    Ok(())
}

/// Puts a copy of the first of some mails after what is there, and gives the others.
fn put_mail<'a>(made: &mut Vec<Made>, mails: &'a [MailRow]) -> Result<&'a [MailRow], OutOfMemory>
    ensures { IfOk result (λ rest. (more : List Origin) → made.new.items ++ made_from more rest.now
        ≡ made.old.items ++ made_from (Mail ∷ more) mails.now) }
{
    match mails {
        [row, others @ ..] => {
            let copy = row.copy()?;
            made.push(Made::Mail(copy))?;
            Ok(others)
        }
        [] => Ok(mails),
    }
}
