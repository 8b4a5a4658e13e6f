//! What holds of the form of a status, and of how deeds of any kind are written. The calls do nothing; each contract is a
//! law.

ghost use Rattle.msg_parts.specs.StatusLaws.{StatusesAreFound, StatusFaultsHaveOffsets};
ghost use Rattle.msg_parts.specs.PartDocuments.{StatusesAreDocuments, StatusesAreLawful, StatusesReadBack};
ghost use Rattle.msg_parts.specs.DeedDocuments.{DeedsAreDocuments, DeedRepliesAreDocuments};

/// A status has its form exactly where it is read, and what is read is what is there.
pub fn statuses_are_found()
    ensures { StatusesAreFound }
{}

/// The first fault of a status is within its nodes.
pub fn status_faults_have_offsets()
    ensures { StatusFaultsHaveOffsets }
{}

/// What is written of a status are lawful documents, and reads back as its code wherever it is.
pub fn statuses_read_back()
    ensures written { StatusesAreDocuments }
    ensures lawful { StatusesAreLawful }
    ensures read { StatusesReadBack }
{}

/// What is written of a deed, a mail too, are its documents.
pub fn deeds_are_documents()
    ensures { DeedsAreDocuments }
{}

/// What is written of an answer to a deed, a mail too, are its documents.
pub fn deed_replies_are_documents()
    ensures { DeedRepliesAreDocuments }
{}
