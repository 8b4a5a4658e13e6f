//! What holds of the forms of statements. The calls do nothing; each contract is a law.

ghost use Rattle.msg_statement.specs.StatementLaws.{StatementsAreFound, StatementFaultsHaveOffsets, StatementRepliesAreFound, StatementReplyFaultsHaveOffsets};
ghost use Rattle.msg_statement.specs.StatementDocuments.{StatementsAreDocuments, StatementsAreLawful, StatementsReadBack, StatementsReadBackAlone, StatementRepliesAreDocuments, StatementRepliesAreLawful, StatementRepliesReadBack, StatementRepliesReadBackAlone};

/// A statement request has its form exactly where it is read, and what is read is what is there.
pub fn statements_are_found()
    ensures { StatementsAreFound }
{}

/// The first fault of a statement request is within its nodes.
pub fn statement_faults_have_offsets()
    ensures { StatementFaultsHaveOffsets }
{}

/// A statement reply has its form exactly where it is read, and what is read is what is there.
pub fn statement_replies_are_found()
    ensures { StatementRepliesAreFound }
{}

/// The first fault of a statement reply is within its nodes.
pub fn statement_reply_faults_have_offsets()
    ensures { StatementReplyFaultsHaveOffsets }
{}

/// What is written of a sound statement request are lawful documents, and reads back as that request wherever it is.
pub fn statements_read_back()
    ensures written { StatementsAreDocuments }
    ensures lawful { StatementsAreLawful }
    ensures read { StatementsReadBack }
    ensures alone { StatementsReadBackAlone }
{}

/// What is written of a sound statement reply are lawful documents, and reads back as that reply wherever it is.
pub fn statement_replies_read_back()
    ensures written { StatementRepliesAreDocuments }
    ensures lawful { StatementRepliesAreLawful }
    ensures read { StatementRepliesReadBack }
    ensures alone { StatementRepliesReadBackAlone }
{}
