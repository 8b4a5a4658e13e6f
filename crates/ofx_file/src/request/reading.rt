//! Request files, read.

ghost use Rattle.ofx_types.specs.FormWords.{ReadsForm};
ghost use Rattle.ofx_file.specs.RequestOutcome.{ReadsRequest, ReadsAll, RefusesAll};
ghost use Rattle.ofx_file.specs.RequestSteps as steps;

use crate::laws::{
    faults_spell_nothing, one_fault, one_file, request_faults_have_offsets, requests_are_found,
};
use crate::messages::{MessageSet, one_after_other};
use crate::request::asks::asks_in;
use crate::request::signon::signon_in;
use crate::tags::{in_forms, read_tags};
use ofx_header::Header;
use ofx_tree::Cursor;
use ofx_types::{FileFault, RequestFile, TreeFault};
use std::alloc::Global;

/// The request file that the bytes spell.
///
/// | Fault | Where |
/// |---|---|
/// | `Header(at)` | the header's first bad line begins at `at`, or the header is cut there |
/// | `Syntax(at)` | after a header, `at` is the offset of the leftmost fault of the tags |
/// | `Form(at)` | after a header and tags without a fault, `at` is the offset of the first fault of the forms |
/// | `OutOfMemory` | memory for the tags or for the file's texts is refused |
///
/// Offsets count from the first byte.
///
/// ```rust
/// use ofx_file::{read_request, write_request};
/// use ofx_types::{FileFault, Moment, RequestFile, Sequence, Text};
///
/// let alloc = rt.alloc();
/// let file = RequestFile {
///     version: 160,
///     older: None,
///     newer: None,
///     user: Text::new(alloc, b"alice", 32).expect(&rt, "a name"),
///     pass: Text::new(alloc, b"secret", 64).expect(&rt, "a password"),
///     asks: Sequence::new(alloc),
/// };
/// let bytes = write_request(alloc, &file, Moment(1_706_702_400)).expect(&rt, "room");
/// let read = read_request(alloc, &bytes).expect(&rt, "the same file");
/// assert!(rt; read.version == 160 && read.user == file.user && read.pass == file.pass);
/// // The first line of the header has a value that isn't allowed.
/// assert!(rt; read_request(alloc, b"OFXHEADER:200\r\n").err() == Some(FileFault::Header(0)));
/// ```
pub fn read_request(alloc: Global, bytes: &[u8]) -> Result<RequestFile, FileFault>
    ensures request { ReadsRequest bytes.now result }
    ensures all { ReadsAll bytes.now result }
    ensures refuses { RefusesAll bytes.now result }
{
    one_file();
    faults_spell_nothing();
    one_fault();
    read_file(alloc, bytes)
}

/// The header is read first, then the tags, then the forms.
fn read_file(alloc: Global, bytes: &[u8]) -> Result<RequestFile, FileFault>
    ensures { ReadsRequest bytes.now result }
{
    requests_are_found();
    request_faults_have_offsets();
    let (header, size, tape) = match read_tags(alloc, bytes) {
        Ok(found) => found,
        Err(fault) => return Err(fault),
    };
    match file_in(alloc, header, &Cursor::root(&tape)) {
        Ok(file) => Ok(file),
        Err(fault) => Err(in_forms(size, bytes.len() - size, fault)),
    }
}

/// The file of a header and of what OFX says.
#[tactic(auto, unfolding(crate::specs::RequestSteps::file_in))]
fn file_in(alloc: Global, header: Header, ofx: &Cursor<'_>) -> Result<RequestFile, TreeFault>
    ensures { ReadsForm result (steps.file_in header.version header.older header.newer ofx.now) }
{
    let (user, pass) = signon_in(alloc, ofx)?;
    let bank = asks_in(alloc, MessageSet::Bank, ofx.maybe(b"BANKMSGSRQV1")?)?;
    let mail = asks_in(alloc, MessageSet::Mail, ofx.maybe(b"EMAILMSGSRQV1")?)?;
    let asks = one_after_other(bank, mail)?;
    Ok(RequestFile {
        version: header.version,
        older: header.older,
        newer: header.newer,
        user,
        pass,
        asks,
    })
}
