//! What tests of the sample's bank share: its setup, its requests and replies, and what they are read from and written to. A
//! test ends where one of these can't be made.

ghost use Rattle.bank_model.specs.SetupForm.{IsWithinLimits};

use bank_model::Setup;
use bank_samples::sample::SETUP;
use bank_samples::{keys, sample, words};
use ofx_ports::{MemSink, MemSource};
use ofx_types::Text;
use std::alloc::Global;
use std::hash::RandomState;
use std::process::Abort;

/// More room than any run of these tests needs.
pub const ROOM: usize = 8_192;

/// Keys of hashes.
pub fn keys(rt: &impl Abort) -> RandomState {
    keys::keys().expect(rt, "keys")
}

/// The sample's setup.
pub fn setup(rt: &impl Abort, alloc: Global) -> Setup
    ensures { IsWithinLimits result }
{
    Setup::read(alloc, SETUP).expect(rt, "the setup")
}

/// The arguments of a command line.
pub fn texts(rt: &impl Abort, alloc: Global, words: &[&str]) -> Vec<Text> {
    words::texts(alloc, words).expect(rt, "words")
}

/// The sample's request in its frame, once for each transaction's name.
pub fn requests(rt: &impl Abort, alloc: Global, names: &[&[u8; 2]]) -> Vec<u8> {
    sample::requests(alloc, names).expect(rt, "requests")
}

/// The sample's reply in its frame, once for each transaction's name.
pub fn replies(rt: &impl Abort, alloc: Global, names: &[&[u8; 2]]) -> Vec<u8> {
    sample::replies(alloc, names).expect(rt, "replies")
}

/// The sample's request with these changes, in its frame.
pub fn request_with(rt: &impl Abort, alloc: Global, changes: &[(&str, &str)]) -> String {
    sample::request_with(alloc, changes).expect(rt, "a request")
}

/// The sample's reply with these changes, in its frame.
pub fn reply_with(rt: &impl Abort, alloc: Global, changes: &[(&str, &str)]) -> String {
    sample::reply_with(alloc, changes).expect(rt, "a reply")
}

/// A source of these bytes.
pub fn source(rt: &impl Abort, alloc: Global, bytes: &[u8]) -> MemSource {
    MemSource::new(alloc, bytes).expect(rt, "a source")
}

/// A sink with room for all that these tests write.
pub fn sink(rt: &impl Abort, alloc: Global) -> MemSink {
    MemSink::new(alloc, ROOM).expect(rt, "a sink")
}

/// Texts, one after the other.
pub fn joined(rt: &impl Abort, alloc: Global, texts: &[&str]) -> String {
    let mut all = String::new(alloc);
    for text in texts {
        all.push_str(text).expect(rt, "room");
    }
    all
}

/// The text that these bytes spell.
pub fn spelled(rt: &impl Abort, alloc: Global, bytes: &[u8]) -> String {
    let text = str::from_utf8(bytes).expect(rt, "a text");
    String::from_str(alloc, text).expect(rt, "room")
}
