//! What tests of the sample's bank use: how it opens, its requests and replies, and lines of text. A test ends where one of
//! these can't be made.

ghost use Rattle.std.specs.Prelude.{◌≡◌, false, is_some};
ghost use Rattle.bank_model.specs.SetupForm.{IsWithinLimits};

use bank_model::Setup;
use bank_samples::sample::SETUP;
use bank_samples::{keys, sample};
use bank_shared::Opened;
use ofx_file::OfxPrinter;
use ofx_ports::MemKeeper;
use std::alloc::Global;
use std::hash::RandomState;
use std::process::Abort;

/// Keys of hashes.
pub fn keys(rt: &impl Abort) -> RandomState {
    keys::keys().expect(rt, "keys")
}

/// The sample's setup.
pub fn setup(rt: &impl Abort, alloc: Global) -> Setup
    ensures { IsWithinLimits result }
{
    Setup::read(alloc, SETUP).expect(rt, "the setup")
}

/// A bank of the sample's setup that has opened over a keeper without records.
pub fn opened_over(
    rt: &impl Abort,
    alloc: Global,
    keeper: MemKeeper,
) -> Opened<MemKeeper, OfxPrinter>
    requires { is_some keeper.landed ≡ false }
{
    let opened = Opened::open(alloc, keys(rt), keeper, setup(rt, alloc), OfxPrinter);
    opened.ok().expect(rt, "a bank")
}

/// A keeper of which these calls fail, and these of them land.
pub fn failing(rt: &impl Abort, alloc: Global, failing: &[u64], landing: &[u64]) -> MemKeeper
    ensures { is_some result.landed ≡ false }
{
    MemKeeper::failing(alloc, failing, landing).expect(rt, "a keeper")
}

/// The sample's request with these changes, in its frame.
pub fn request_with(rt: &impl Abort, alloc: Global, changes: &[(&str, &str)]) -> String {
    sample::request_with(alloc, changes).expect(rt, "a request")
}

/// The sample's reply with these changes, in its frame.
pub fn reply_with(rt: &impl Abort, alloc: Global, changes: &[(&str, &str)]) -> String {
    sample::reply_with(alloc, changes).expect(rt, "a reply")
}

/// A text of its own.
pub fn text(rt: &impl Abort, alloc: Global, text: &str) -> String {
    String::from_str(alloc, text).expect(rt, "room")
}

/// A word and a number, in a line.
pub fn numbered(rt: &impl Abort, alloc: Global, word: &str, number: u64) -> String {
    format!(in alloc; "{word} {number}\n").expect(rt, "room")
}

/// Appends a text to what was reported.
pub fn report(rt: &impl Abort, reported: &mut String, more: &str) {
    reported.push_str(more).expect(rt, "room");
}
