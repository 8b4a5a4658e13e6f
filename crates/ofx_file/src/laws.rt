//! What holds of files, beyond one reading. The calls do nothing; each contract is a law.

ghost use Rattle.ofx_types.specs.FileForm.{OneFile, FaultsSpellNothing, OneFault, OneReply, FaultsSpellNoReply, OneReplyFault};
ghost use Rattle.ofx_file.specs.RequestOutcome.{EachIsJudged};
ghost use Rattle.ofx_file.specs.ReplyOutcome.{EachReplyIsJudged};
ghost use Rattle.ofx_file.specs.FileLaws.{RequestsAreFound, RequestFaultsHaveOffsets, RepliesAreFound, ReplyFaultsHaveOffsets};
ghost use Rattle.ofx_file.specs.SoundFiles.{SpelledFilesAreSound};
ghost use Rattle.ofx_file.specs.Printable.{SoundFilesArePrintable, SpelledRepliesArePrintable};
ghost use Rattle.ofx_file.specs.Written.{FilesReadBack, RepliesReadBack};

use msg_mail::laws::{
    signon_faults_have_offsets, signon_replies_are_found, signon_replies_read_back,
    signon_reply_faults_have_offsets, signons_are_found, signons_read_back,
};
use msg_statement::laws::{
    statement_faults_have_offsets, statement_replies_are_found, statement_replies_read_back,
    statement_reply_faults_have_offsets, statements_are_found, statements_read_back,
};
use msg_sync::laws::{
    sync_faults_have_offsets, sync_replies_are_found, sync_replies_read_back,
    sync_reply_faults_have_offsets, syncs_are_found, syncs_read_back,
    transaction_faults_have_offsets, transaction_replies_are_found, transaction_replies_read_back,
    transaction_reply_faults_have_offsets, transactions_are_found, transactions_read_back,
};
use ofx_header::laws::{
    faultless_is_spelled, one_header, spelled_is_faultless, written_is_spelled,
};
use ofx_tape::laws::{
    faultless_tags_are_spelled, nodes_are_slices, spelled_tags_have_no_fault, tags_are_unambiguous,
};

/// No bytes spell two request files.
pub fn one_file()
    ensures { OneFile }
{
    one_header();
    spelled_is_faultless();
    tags_are_unambiguous();
    spelled_tags_have_no_fault();
    requests_are_found();
}

/// Bytes that spell a request file have no fault.
pub fn faults_spell_nothing()
    ensures { FaultsSpellNothing }
{
    one_header();
    spelled_is_faultless();
    tags_are_unambiguous();
    spelled_tags_have_no_fault();
    requests_are_found();
}

/// No bytes have two faults.
pub fn one_fault()
    ensures { OneFault }
{
    one_header();
    spelled_is_faultless();
    tags_are_unambiguous();
    spelled_tags_have_no_fault();
}

/// Any bytes spell a request file or have a fault: nothing lies between the grammar and the faults.
pub fn each_is_judged()
    ensures { EachIsJudged }
{
    faultless_is_spelled();
    faultless_tags_are_spelled();
    nodes_are_slices();
    requests_are_found();
    request_faults_have_offsets();
}

/// A file that is spelled by at most 262,144 bytes may be handed to a bank.
pub fn spelled_files_are_sound()
    ensures { SpelledFilesAreSound }
{
    nodes_are_slices();
}

/// A file that may be handed to a bank may be written.
pub fn sound_files_are_printable()
    ensures { SoundFilesArePrintable }
{}

/// A reply that bytes spell may be written.
pub fn spelled_replies_are_printable()
    ensures { SpelledRepliesArePrintable }
{}

/// No bytes spell two reply files.
pub fn one_reply()
    ensures { OneReply }
{
    one_header();
    spelled_is_faultless();
    tags_are_unambiguous();
    spelled_tags_have_no_fault();
    replies_are_found();
}

/// Bytes that spell a reply file have no fault.
pub fn faults_spell_no_reply()
    ensures { FaultsSpellNoReply }
{
    one_header();
    spelled_is_faultless();
    tags_are_unambiguous();
    spelled_tags_have_no_fault();
    replies_are_found();
}

/// No bytes have two faults as a reply file.
pub fn one_reply_fault()
    ensures { OneReplyFault }
{
    one_header();
    spelled_is_faultless();
    tags_are_unambiguous();
    spelled_tags_have_no_fault();
}

/// Any bytes spell a reply file or have a fault.
pub fn each_reply_is_judged()
    ensures { EachReplyIsJudged }
{
    faultless_is_spelled();
    faultless_tags_are_spelled();
    nodes_are_slices();
    replies_are_found();
    reply_faults_have_offsets();
}

/// What is written of a sound request file spells that file.
pub fn files_read_back()
    ensures { FilesReadBack }
{
    written_is_spelled();
    requests_are_found();
    signons_read_back();
    statements_read_back();
    transactions_read_back();
    syncs_read_back();
}

/// What is written of a sound reply file spells that reply, with the model of each changed transfer set to 0.
pub fn replies_read_back()
    ensures { RepliesReadBack }
{
    written_is_spelled();
    replies_are_found();
    signon_replies_read_back();
    statement_replies_read_back();
    transaction_replies_read_back();
    sync_replies_read_back();
}

/// A request has its form exactly where reading finds it.
pub(crate) fn requests_are_found()
    ensures { RequestsAreFound }
{
    statements_are_found();
    transactions_are_found();
    syncs_are_found();
    signons_are_found();
}

/// The first fault of a request is within its nodes.
pub(crate) fn request_faults_have_offsets()
    ensures { RequestFaultsHaveOffsets }
{
    statement_faults_have_offsets();
    transaction_faults_have_offsets();
    sync_faults_have_offsets();
    signon_faults_have_offsets();
}

/// A reply has its form exactly where reading finds it.
pub(crate) fn replies_are_found()
    ensures { RepliesAreFound }
{
    statement_replies_are_found();
    transaction_replies_are_found();
    sync_replies_are_found();
    signon_replies_are_found();
}

/// The first fault of a reply is within its nodes.
pub(crate) fn reply_faults_have_offsets()
    ensures { ReplyFaultsHaveOffsets }
{
    statement_reply_faults_have_offsets();
    transaction_reply_faults_have_offsets();
    sync_reply_faults_have_offsets();
    signon_reply_faults_have_offsets();
}
