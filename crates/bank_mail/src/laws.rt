//! What one entry more does to mails. Nothing here runs: each contract is a law.

ghost use Rattle.std.specs.Prelude.{◌≡◌, ◌∷◌, ◌++◌, [], List};
ghost use Rattle.bank_model.specs.declared.entry.Entry.{Entry};
ghost use Rattle.bank_mail.specs.MailsView.{ObjectMails, mail_in, Represents};

/// An entry that brings no mail leaves the mails as they are.
pub fn others_leave_mails()
    ensures { (mails : List ObjectMails) (entries : List Entry) (entry : Entry) → Represents mails entries
        → mail_in entry.change ≡ [] → Represents mails (entries ++ entry ∷ []) }
{}
