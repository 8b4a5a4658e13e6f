//! What tests of the sample's bank share: its keys, its setup, and its requests and replies. A test ends where one of these
//! can't be made.

ghost use Rattle.bank_model.specs.SetupForm.{IsWithinLimits};

use bank_model::Setup;
use bank_samples::sample::SETUP;
use bank_samples::{keys, sample, words};
use ofx_types::Text;
use std::alloc::Global;
use std::hash::RandomState;
use std::process::Abort;

/// Keys of hashes.
pub fn keys(rt: &impl Abort) -> RandomState {
    keys::keys().expect(rt, "keys")
}

/// The sample's setup.
pub fn setup(rt: &impl Abort, alloc: Global) -> Setup
    ensures { IsWithinLimits result }
{
    Setup::read(alloc, SETUP).expect(rt, "the setup")
}

/// The arguments of a command line.
pub fn texts(rt: &impl Abort, alloc: Global, words: &[&str]) -> Vec<Text> {
    words::texts(alloc, words).expect(rt, "words")
}

/// The sample's request in its frame.
pub fn request(rt: &impl Abort, alloc: Global) -> Vec<u8> {
    sample::requests(alloc, &[b"s1"]).expect(rt, "a request")
}

/// The sample's reply in its frame.
pub fn reply(rt: &impl Abort, alloc: Global) -> Vec<u8> {
    sample::replies(alloc, &[b"s1"]).expect(rt, "a reply")
}

/// The sample's request with these changes, in its frame.
pub fn request_with(rt: &impl Abort, alloc: Global, changes: &[(&str, &str)]) -> String {
    sample::request_with(alloc, changes).expect(rt, "a request")
}

/// The sample's reply with these changes, in its frame.
pub fn reply_with(rt: &impl Abort, alloc: Global, changes: &[(&str, &str)]) -> String {
    sample::reply_with(alloc, changes).expect(rt, "a reply")
}

/// Puts bytes after others.
pub fn put(rt: &impl Abort, bytes: &mut Vec<u8>, more: &[u8]) {
    bytes.extend_from_slice(more).expect(rt, "room");
}
