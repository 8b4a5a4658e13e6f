//! What holds of the forms of synchronisation and of the transactions in it. The calls do nothing; each contract is a law.

ghost use Rattle.msg_sync.specs.SyncLaws.{TransactionsAreFound, TransactionFaultsHaveOffsets, TransactionRepliesAreFound, TransactionReplyFaultsHaveOffsets, SyncsAreFound, SyncFaultsHaveOffsets, SyncRepliesAreFound, SyncReplyFaultsHaveOffsets};
ghost use Rattle.msg_sync.specs.SyncsAsDocuments.{TransactionsAreDocuments, TransactionsAreLawful, TransactionsReadBack, AnswersAreDocuments, AnswersAreLawful, AnswersReadBack, SyncsAreDocuments, SyncsAreLawful, SyncsReadBack, SyncRepliesAreDocuments, SyncRepliesAreLawful, SyncRepliesReadBack};

use msg_deed::laws::{
    deed_faults_have_offsets, deed_replies_are_found, deed_replies_read_back,
    deed_reply_faults_have_offsets, deeds_are_found, deeds_read_back,
};
use msg_mail::laws::{
    mail_faults_have_offsets, mail_replies_are_found, mail_replies_read_back,
    mail_reply_faults_have_offsets, mails_are_found, mails_read_back,
};

/// A transaction has its form exactly where it is read, and what is read is what is there.
pub fn transactions_are_found()
    ensures { TransactionsAreFound }
{
    deeds_are_found();
    mails_are_found();
}

/// The first fault of a transaction is within its nodes.
pub fn transaction_faults_have_offsets()
    ensures { TransactionFaultsHaveOffsets }
{
    deed_faults_have_offsets();
    mail_faults_have_offsets();
}

/// The answer to a transaction has its form exactly where it is read, and what is read is what is there.
pub fn transaction_replies_are_found()
    ensures { TransactionRepliesAreFound }
{
    deed_replies_are_found();
    mail_replies_are_found();
}

/// The first fault of the answer to a transaction is within its nodes.
pub fn transaction_reply_faults_have_offsets()
    ensures { TransactionReplyFaultsHaveOffsets }
{
    deed_reply_faults_have_offsets();
    mail_reply_faults_have_offsets();
}

/// A synchronisation has its form exactly where it is read, and what is read is what is there.
pub fn syncs_are_found()
    ensures { SyncsAreFound }
{
    transactions_are_found();
}

/// The first fault of a synchronisation is within its nodes.
pub fn sync_faults_have_offsets()
    ensures { SyncFaultsHaveOffsets }
{
    transaction_faults_have_offsets();
}

/// The reply to a synchronisation has its form exactly where it is read, and what is read is what is there.
pub fn sync_replies_are_found()
    ensures { SyncRepliesAreFound }
{
    transaction_replies_are_found();
}

/// The first fault of the reply to a synchronisation is within its nodes.
pub fn sync_reply_faults_have_offsets()
    ensures { SyncReplyFaultsHaveOffsets }
{
    transaction_reply_faults_have_offsets();
}

/// What is written of a sound deed are lawful documents, and reads back as that deed wherever it is.
pub fn transactions_read_back()
    ensures written { TransactionsAreDocuments }
    ensures lawful { TransactionsAreLawful }
    ensures read { TransactionsReadBack }
{
    deeds_read_back();
    mails_read_back();
}

/// What is written of a sound answer to a deed are lawful documents, and reads back as that answer wherever it is; a
/// changed transfer reads back with model 0.
pub fn transaction_replies_read_back()
    ensures written { AnswersAreDocuments }
    ensures lawful { AnswersAreLawful }
    ensures read { AnswersReadBack }
{
    deed_replies_read_back();
    mail_replies_read_back();
}

/// What is written of a sound synchronisation are lawful documents, and reads back as that ask wherever it is.
pub fn syncs_read_back()
    ensures written { SyncsAreDocuments }
    ensures lawful { SyncsAreLawful }
    ensures read { SyncsReadBack }
{
    transactions_read_back();
}

/// What is written of a sound reply to a synchronisation are lawful documents, and reads back as that reply wherever it is; each
/// changed transfer reads back with model 0.
pub fn sync_replies_read_back()
    ensures written { SyncRepliesAreDocuments }
    ensures lawful { SyncRepliesAreLawful }
    ensures read { SyncRepliesReadBack }
{
    transaction_replies_read_back();
}
