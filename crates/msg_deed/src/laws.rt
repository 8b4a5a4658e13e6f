//! What holds of the forms of deeds and of the answers to them. The calls do nothing; each contract is a law.

ghost use Rattle.msg_deed.specs.DeedLaws.{DeedsAreFound, DeedFaultsHaveOffsets, DeedRepliesAreFound, DeedReplyFaultsHaveOffsets};
ghost use Rattle.msg_parts.specs.DeedDocuments.{DeedsAreDocuments, DeedRepliesAreDocuments};
ghost use Rattle.msg_deed.specs.DeedsReadBack.{DeedsAreLawful, DeedsReadBack, DeedsReadBackAlone, DeedRepliesAreLawful, DeedRepliesReadBack, DeedRepliesReadBackAlone};

use msg_parts::laws::{deed_replies_are_documents, deeds_are_documents};

/// The request of a deed has its form exactly where it is read, and what is read is what is there.
pub fn deeds_are_found()
    ensures { DeedsAreFound }
{}

/// The first fault of the request of a deed is within its nodes.
pub fn deed_faults_have_offsets()
    ensures { DeedFaultsHaveOffsets }
{}

/// The answer to a deed has its form exactly where it is read, and what is read is what is there.
pub fn deed_replies_are_found()
    ensures { DeedRepliesAreFound }
{}

/// The first fault of the answer to a deed is within its nodes.
pub fn deed_reply_faults_have_offsets()
    ensures { DeedReplyFaultsHaveOffsets }
{}

/// What is written of a deed are its documents. Those of a sound transfer or recurring transfer are lawful, and read back as
/// that deed wherever they are.
pub fn deeds_read_back()
    ensures written { DeedsAreDocuments }
    ensures lawful { DeedsAreLawful }
    ensures read { DeedsReadBack }
    ensures alone { DeedsReadBackAlone }
{
    deeds_are_documents();
}

/// What is written of an answer to a deed are its documents. Those of a sound answer about a transfer or a recurring transfer
/// are lawful, and read back as that answer wherever they are; a changed transfer reads back with model 0, since its reply
/// doesn't say which recurring transfer made it.
pub fn deed_replies_read_back()
    ensures written { DeedRepliesAreDocuments }
    ensures lawful { DeedRepliesAreLawful }
    ensures read { DeedRepliesReadBack }
    ensures alone { DeedRepliesReadBackAlone }
{
    deed_replies_are_documents();
}
