//! What holds of signons, mails and the answers to them. The calls do nothing; each contract is a law.

ghost use Rattle.msg_mail.specs.SignonLaws.{SignonsAreFound, SignonFaultsHaveOffsets, SignonRepliesAreFound, SignonReplyFaultsHaveOffsets};
ghost use Rattle.msg_mail.specs.MailLaws.{MailsAreFound, MailFaultsHaveOffsets, MailRepliesAreFound, MailReplyFaultsHaveOffsets};
ghost use Rattle.msg_parts.specs.DeedDocuments.{DeedsAreDocuments, DeedRepliesAreDocuments};
ghost use Rattle.msg_mail.specs.MailsAsDocuments.{MailsAreLawful, MailsReadBack, MailsReadBackAlone, MailRepliesAreLawful, MailRepliesReadBack, MailRepliesReadBackAlone};
ghost use Rattle.msg_mail.specs.SignonsAsDocuments.{SignonsAreDocuments, SignonsAreLawful, SignonsReadBack, SignonRepliesAreDocuments, SignonRepliesAreLawful, SignonRepliesReadBack};

use msg_parts::laws::{
    deed_replies_are_documents, deeds_are_documents, status_faults_have_offsets,
    statuses_are_found, statuses_read_back,
};

/// A signon has its form exactly where it is read, and what is read is what is there.
pub fn signons_are_found()
    ensures { SignonsAreFound }
{}

/// The first fault of a signon is within its nodes.
pub fn signon_faults_have_offsets()
    ensures { SignonFaultsHaveOffsets }
{}

/// The answer to a signon has its form exactly where it is read, and what is read is what is there.
pub fn signon_replies_are_found()
    ensures { SignonRepliesAreFound }
{
    statuses_are_found();
}

/// The first fault of the answer to a signon is within its nodes.
pub fn signon_reply_faults_have_offsets()
    ensures { SignonReplyFaultsHaveOffsets }
{
    status_faults_have_offsets();
}

/// What is written of a sound signon are lawful documents, and that name and that password are read from them wherever they
/// are.
pub fn signons_read_back()
    ensures written { SignonsAreDocuments }
    ensures lawful { SignonsAreLawful }
    ensures read { SignonsReadBack }
{}

/// What is written of a sound answer to a signon are lawful documents, and that code and that moment are read from them
/// wherever they are.
pub fn signon_replies_read_back()
    ensures written { SignonRepliesAreDocuments }
    ensures lawful { SignonRepliesAreLawful }
    ensures read { SignonRepliesReadBack }
{
    statuses_read_back();
}

/// A mail has its form exactly where it is read, and what is read is what is there.
pub fn mails_are_found()
    ensures { MailsAreFound }
{}

/// The first fault of a mail is within its nodes.
pub fn mail_faults_have_offsets()
    ensures { MailFaultsHaveOffsets }
{}

/// The answer to a mail has its form exactly where it is read, and what is read is what is there.
pub fn mail_replies_are_found()
    ensures { MailRepliesAreFound }
{}

/// The first fault of the answer to a mail is within its nodes.
pub fn mail_reply_faults_have_offsets()
    ensures { MailReplyFaultsHaveOffsets }
{}

/// What is written of a sound mail are lawful documents, and reads back as that mail wherever it is.
pub fn mails_read_back()
    ensures written { DeedsAreDocuments }
    ensures lawful { MailsAreLawful }
    ensures read { MailsReadBack }
    ensures alone { MailsReadBackAlone }
{
    deeds_are_documents();
}

/// What is written of a sound answer to a mail are lawful documents, and reads back as that answer wherever it is.
pub fn mail_replies_read_back()
    ensures written { DeedRepliesAreDocuments }
    ensures lawful { MailRepliesAreLawful }
    ensures read { MailRepliesReadBack }
    ensures alone { MailRepliesReadBackAlone }
{
    deed_replies_are_documents();
}
