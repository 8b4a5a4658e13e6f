//! What is refused of a mail (OFX 1.6, "Communication Between Customers and Financial Institutions").

ghost use Rattle.std.specs.Prelude.{◌≡◌};
ghost use Rattle.bank_model.specs.SetupForm.{IsWithinLimits};
ghost use Rattle.bank_model.specs.Judging as rules;
ghost use Rattle.bank_model.specs.Judging.{bank_mail_code, mail_code};

use bank_model::Setup;
use bank_model::codes::{ACCOUNT_NOT_FOUND, DONE, NOT_TO_BANK};
use ofx_types::{AcctId, AcctName, MailText, UserId};

/// The code of a mail about an account.
///
/// Where the deed is in the synchronisation of one account, `only` is that account. Takes no memory.
#[tactic(auto, unfolding(bank_model::specs::Judging::bank_mail_code))]
pub fn judge_bank_mail(
    setup: &Setup,
    user: UserId,
    only: Option<AcctId>,
    account: &AcctName,
    mail: &MailText,
) -> u16
    requires { IsWithinLimits setup.now }
    ensures { result ≡ bank_mail_code setup.now user only account.now mail.now }
{
    if !setup.is_own(user, only, account) {
        return ACCOUNT_NOT_FOUND;
    }
    if !is_to_bank(mail) {
        return NOT_TO_BANK;
    }
    DONE
}

/// The code of a mail about nothing in particular. Takes no memory.
///
/// ```rust
/// use bank_mail::judge_mail;
/// use ofx_types::{MailText, Moment, Text};
///
/// let text = |word: &str| Text::new(rt.alloc(), word.as_bytes(), 64).expect(&rt, "a text");
/// let mut mail = MailText {
///     created: Moment(1_706_702_400),
///     sender: text("alice"),
///     target: text("BANK"),
///     subject: text("Hello"),
///     body: text("Hi"),
/// };
/// assert_eq!(rt; judge_mail(&mail), 0);
/// // The bank takes mail to itself alone.
/// mail.target = text("bob");
/// assert_eq!(rt; judge_mail(&mail), 16501);
/// ```
#[tactic(auto, unfolding(bank_model::specs::Judging::mail_code))]
pub fn judge_mail(mail: &MailText) -> u16
    ensures { result ≡ mail_code mail.now }
{
    if !is_to_bank(mail) {
        return NOT_TO_BANK;
    }
    DONE
}

/// Whether the mail is to the bank.
fn is_to_bank(mail: &MailText) -> bool
    ensures { result ≡ rules.is_to_bank mail.now }
{
    mail.target.as_bytes() == b"BANK".as_slice()
}
