//! Mail: what a mail to the bank and a letter of the bank add to a draft (OFX 1.6, "Communication Between Customers and
//! Financial Institutions").

ghost use Rattle.std.specs.Prelude.{◌≡◌, ◌+◌, ◌<◌, ◌≤◌, ◌∷◌, [], None, Some, codes, length, IfOk, OnOk};
ghost use Rattle.ofx_types.specs.Calendar.{IsMoment};
ghost use Rattle.ofx_types.specs.declared.transfer.Change.TheVariants.{NewMail};
ghost use Rattle.ofx_types.specs.declared.transfer.Deed.TheVariants as asked;
ghost use Rattle.bank_model.specs.Deeds as rules;
ghost use Rattle.bank_model.specs.Deeds.{done, next_entry};
ghost use Rattle.bank_model.specs.Rules as events;
ghost use Rattle.bank_model.specs.Sound.{IsSoundDeed};
ghost use Rattle.bank_ledger.specs.DraftView.{drafted, HasAdded};
ghost use Rattle.bank_deeds.specs.Unrefused.{IsUnrefused};

use crate::names::own_name;
use bank_ledger::{Draft, RowChange, own_uid};
use bank_model::Entry;
use ofx_types::{
    AcctName, Change, Duplicate, MailRow, MailText, ObjectId, OutOfMemory, Text, TrnUid, UserId,
};
use std::alloc::Global;

/// Takes a mail about an account.
pub(crate) fn add_bank_mail(
    draft: &mut Draft<'_>,
    trnuid: &TrnUid,
    about: &AcctName,
    mail: &MailText,
) -> Result<(), OutOfMemory>
    requires known { draft.old.user.0 < length draft.old.setup.users }
    requires few { length (drafted draft.old).entries + 1 ≤ draft.old.setup.entries }
    requires deed { IsSoundDeed (asked.BankMail about.now mail.now) }
    requires judged { IsUnrefused draft.old.setup (drafted draft.old) draft.old.user
        (asked.BankMail about.now mail.now) }
    ensures added { OnOk result (HasAdded draft.old draft.new
        (done draft.old.setup (drafted draft.old) draft.old.user draft.old.at trnuid.now
        (asked.BankMail about.now mail.now))) }
{
    let object = draft.mail_about_object_of(about);
    let account = own_name(draft.setup(), about)?;
    let row = mail_row(draft, draft.user(), Some(account), mail)?;
    let uid = trnuid.copy()?;
    enter_mail(draft, uid, object, row)?;
    Ok(())
}

/// Takes a mail about nothing in particular.
pub(crate) fn add_mail(
    draft: &mut Draft<'_>,
    trnuid: &TrnUid,
    mail: &MailText,
) -> Result<(), OutOfMemory>
    requires known { draft.old.user.0 < length draft.old.setup.users }
    requires few { length (drafted draft.old).entries + 1 ≤ draft.old.setup.entries }
    requires deed { IsSoundDeed (asked.Mail mail.now) }
    ensures added { OnOk result (HasAdded draft.old draft.new
        (done draft.old.setup (drafted draft.old) draft.old.user draft.old.at trnuid.now
        (asked.Mail mail.now))) }
{
    let user = draft.user();
    let object = draft.mail_object_of(user);
    let row = mail_row(draft, user, None, mail)?;
    let uid = trnuid.copy()?;
    enter_mail(draft, uid, object, row)?;
    Ok(())
}

/// Writes a user a letter from the bank.
///
/// ```rust
/// use bank_accounts::Held;
/// use bank_deeds::letter;
/// use bank_ledger::{Draft, Ledger};
/// use bank_model::Setup;
/// use ofx_types::{Day, Moment, Text, UserId};
/// use std::hash::RandomState;
///
/// let alloc = rt.alloc();
/// let bytes = b"OFXBANK 1\nBANK 1\nLEAD 5\nWINDOW 3\nENTRIES 99\n\
///     USER alice secret\nACCT 1001 CHECKING 0 alice\n";
/// let setup = Setup::read(alloc, bytes).expect(&rt, "a setup");
/// let keys = RandomState::new(&rt).expect(&rt, "keys");
/// let ledger = Ledger::new(alloc, keys, setup.window);
/// let (held, noon, today) = (Held::new(alloc), Moment(1_706_702_400), Day(19_753));
/// let mut draft = Draft::new(alloc, &setup, &ledger, &held, UserId(0), noon, today);
/// let subject = Text::new(alloc, b"Hello", 64).expect(&rt, "a subject");
/// let body = Text::new(alloc, b"Hi", 10_000).expect(&rt, "a body");
/// letter(&mut draft, alloc, UserId(0), &subject, &body).expect(&rt, "room");
/// assert!(rt; draft.count() == 1 && draft.entries()[0].number == 1);
/// ```
pub fn letter(
    draft: &mut Draft<'_>,
    alloc: Global,
    user: UserId,
    subject: &Text,
    body: &Text,
) -> Result<(), OutOfMemory>
    requires known { user.0 < length draft.old.setup.users }
    requires few { length (drafted draft.old).entries + 1 ≤ draft.old.setup.entries }
    ensures { OnOk result (HasAdded draft.old draft.new (events.letter_entry draft.old.setup
        (drafted draft.old) user draft.old.at subject.now body.now ∷ [])) }
{
    let object = draft.mail_object_of(user);
    let row = letter_row(draft, alloc, user, subject, body)?;
    let uid = own_uid()?;
    enter_mail(draft, uid, object, row)?;
    Ok(())
}

/// Adds the entry of a mail.
fn enter_mail(
    draft: &mut Draft<'_>,
    trnuid: TrnUid,
    object: ObjectId,
    row: MailRow,
) -> Result<(), OutOfMemory>
    requires written { IsMoment row.mail.created.0 }
    requires few { length (drafted draft.old).entries + 1 ≤ draft.old.setup.entries }
    ensures added { OnOk result (HasAdded draft.old draft.new
        (next_entry (drafted draft.old) object trnuid (NewMail row) ∷ [])) }
{
    let number = draft.count() + 1;
    let entry = Entry {
        number,
        object,
        trnuid,
        change: Change::NewMail(row),
    };
    draft.enter(entry, RowChange::Mail)?;
    Ok(())
}

/// A mail as it is kept, with the name of the user who sent it.
fn mail_row(
    draft: &Draft<'_>,
    user: UserId,
    about: Option<AcctName>,
    mail: &MailText,
) -> Result<MailRow, OutOfMemory>
    requires { user.0 < length draft.now.setup.users }
    ensures { IfOk result (λ row. row ≡ rules.mail_row draft.now.setup user about mail.now) }
{
    Ok(MailRow {
        about,
        user: draft.setup().user_name(user).copy()?,
        mail: mail.copy()?,
    })
}

/// A letter as it is kept: from the bank to the user, written at a moment.
fn letter_row(
    draft: &Draft<'_>,
    alloc: Global,
    user: UserId,
    subject: &Text,
    body: &Text,
) -> Result<MailRow, OutOfMemory>
    requires { user.0 < length draft.now.setup.users }
    ensures row { IfOk result (λ row. row ≡ events.letter draft.now.setup user draft.now.at subject.now body.now) }
    ensures moment { OnOk result (IsMoment draft.now.at.0) }
{
    let name = draft.setup().user_name(user);
    Ok(MailRow {
        about: None,
        user: name.copy()?,
        mail: MailText {
            created: draft.at(),
            sender: bank_name(alloc)?,
            target: name.copy()?,
            subject: subject.copy()?,
            body: body.copy()?,
        },
    })
}

/// The name by which the bank writes.
fn bank_name(alloc: Global) -> Result<Text, OutOfMemory>
    ensures { IfOk result (λ name. name ≡ codes "BANK") }
{
    match Text::new(alloc, b"BANK", 32) {
        Ok(name) => Ok(name),
        Err(_) => Err(OutOfMemory),
    }
}
