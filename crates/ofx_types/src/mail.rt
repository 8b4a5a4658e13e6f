//! Mail between a customer and the bank, about an account or about nothing in particular (OFX 1.6, "Communication
//! Between Customers and Financial Institutions").

use crate::account::AcctName;
use crate::duplicate::Duplicate;
use crate::memory::OutOfMemory;
use crate::number::Moment;
use crate::text::Text;

/// What a mail says (MAIL).
#[derive(Debug, Drop)]
pub struct MailText {
    /// When it was written (DTCREATED).
    pub created: Moment,
    /// Who wrote it (FROM), 1 to 32 bytes.
    pub sender: Text,
    /// To whom (TO), 1 to 32 bytes. A bank takes mail to `BANK`.
    pub target: Text,
    /// What it is about (SUBJECT), 1 to 64 bytes.
    pub subject: Text,
    /// The message (MSGBODY), 1 to 10,000 bytes.
    pub body: Text,
}

/// A mail as the bank keeps it.
#[derive(Debug, Drop)]
pub struct MailRow {
    /// The account that it is about, where it is about one.
    pub about: Option<AcctName>,
    /// The customer who wrote it or to whom it was written (USERID), 1 to 32 bytes.
    pub user: Text,
    /// What it says.
    pub mail: MailText,
}

impl Duplicate for MailText {
    fn copy(&self) -> Result<MailText, OutOfMemory> {
        Ok(MailText {
            created: self.created,
            sender: self.sender.copy()?,
            target: self.target.copy()?,
            subject: self.subject.copy()?,
            body: self.body.copy()?,
        })
    }
}

impl Duplicate for MailRow {
    fn copy(&self) -> Result<MailRow, OutOfMemory> {
        Ok(MailRow {
            about: self.about.copy()?,
            user: self.user.copy()?,
            mail: self.mail.copy()?,
        })
    }
}
