//! Reply files, read.

ghost use Rattle.std.specs.Prelude.{◌≡◌};
ghost use Rattle.ofx_types.specs.FormWords.{ReadsForm};
ghost use Rattle.ofx_file.specs.ReplyOutcome.{ReadsReply, ReadsAll, RefusesAll};
ghost use Rattle.ofx_file.specs.ReplySteps as steps;

use crate::laws::{
    faults_spell_no_reply, one_reply, one_reply_fault, replies_are_found, reply_faults_have_offsets,
};
use crate::messages::{MessageSet, one_after_other};
use crate::reply::answers::answers_in;
use crate::tags::{in_forms, read_tags};
use msg_mail::read_signon_reply;
use ofx_header::Header;
use ofx_tree::Cursor;
use ofx_types::{FileFault, Moment, ReplyFile, TreeFault};
use std::alloc::Global;

/// The reply file that the bytes spell. Its OLDFILEUID isn't kept.
///
/// | Fault | Where |
/// |---|---|
/// | `Header(at)` | the header's first bad line begins at `at`, or the header is cut there |
/// | `Syntax(at)` | after a header, `at` is the offset of the leftmost fault of the tags |
/// | `Form(at)` | after a header and tags without a fault, `at` is the offset of the first fault of the forms |
/// | `OutOfMemory` | memory for the tags or for the reply's texts is refused |
///
/// Offsets count from the first byte.
pub fn read_reply(alloc: Global, bytes: &[u8]) -> Result<ReplyFile, FileFault>
    ensures reply { ReadsReply bytes.now result }
    ensures all { ReadsAll bytes.now result }
    ensures refuses { RefusesAll bytes.now result }
{
    one_reply();
    faults_spell_no_reply();
    one_reply_fault();
    read_file(alloc, bytes)
}

/// The header is read first, then the tags, then the forms.
fn read_file(alloc: Global, bytes: &[u8]) -> Result<ReplyFile, FileFault>
    ensures { ReadsReply bytes.now result }
{
    replies_are_found();
    reply_faults_have_offsets();
    let (header, size, tape) = match read_tags(alloc, bytes) {
        Ok(found) => found,
        Err(fault) => return Err(fault),
    };
    match reply_in(alloc, header, &Cursor::root(&tape)) {
        Ok(reply) => Ok(reply),
        Err(fault) => Err(in_forms(size, bytes.len() - size, fault)),
    }
}

/// The reply of a header and of what OFX says.
#[tactic(auto, unfolding(crate::specs::ReplySteps::reply_in))]
fn reply_in(alloc: Global, header: Header, ofx: &Cursor<'_>) -> Result<ReplyFile, TreeFault>
    ensures { ReadsForm result (steps.reply_in header.version header.newer ofx.now) }
{
    let (signon, moment) = signon_in(ofx)?;
    let bank = answers_in(alloc, MessageSet::Bank, ofx.maybe(b"BANKMSGSRSV1")?)?;
    let mail = answers_in(alloc, MessageSet::Mail, ofx.maybe(b"EMAILMSGSRSV1")?)?;
    let replies = one_after_other(bank, mail)?;
    Ok(ReplyFile {
        version: header.version,
        newer: header.newer,
        signon,
        moment,
        replies,
    })
}

/// The answer to the signon, in the message set that OFX has for it: its code, and the moment of the reply.
#[tactic(auto, unfolding(crate::specs::ReplySteps::signon_in))]
fn signon_in(ofx: &Cursor<'_>) -> Result<(u16, Moment), TreeFault>
    ensures { result ≡ steps.signon_in ofx.now }
{
    let signon_set = ofx.one(b"SIGNONMSGSRSV1")?;
    let sonrs = signon_set.one(b"SONRS")?;
    read_signon_reply(&sonrs)
}
