//! Whole runs of the command `import`.

ghost use Rattle.std.specs.Prelude.{◌≡◌, ◌↔◌, IsTrue, codes};
ghost use Rattle.ofx_types.specs.declared.told.Told.{Told as WhatIsReported};
ghost use Rattle.register_run.specs.Views.{ports_view};
ghost use Rattle.register_run.specs.Runs.{AreArguments, EndsSo, IsRegisterRun};

use crate::answering::answer_frames;
use crate::keeping::{close_register, open_register};
use crate::status::{plain, report_of_end};
use crate::stop::Stop;
use ofx_ports::{Sink, Source, StoreKeeper};
use ofx_types::{Status, Text, Told};
use std::alloc::Global;

/// Whether a word is `import`.
fn is_import(word: &[u8]) -> bool
    ensures { IsTrue result ↔ (word.now ≡ codes "import") }
{
    word == b"import".as_slice()
}

/// Whether the arguments are `import` and where the store is.
fn are_arguments(arguments: &[Text]) -> bool
    ensures { IsTrue result ↔ AreArguments arguments.now }
{
    match arguments {
        [command, _] => is_import(command.as_bytes()),
        _ => false,
    }
}

/// Opens the register, answers the frames, saves it and prints its accounts.
fn run<A: Source, S: StoreKeeper, W: Sink>(
    alloc: Global,
    input: &mut A,
    store: &mut S,
    out: &mut W,
) -> Result<(), Stop>
    ensures { EndsSo
        (ports_view (A.left input.old) (A.faults input.old) (S.saved store.old) (S.faults store.old) (W.held out.old) (W.faults out.old))
        (ports_view (A.left input.new) (A.faults input.new) (S.saved store.new) (S.faults store.new) (W.held out.new) (W.faults out.new)) result }
{
    let mut register = open_register(alloc, store)?;
    answer_frames(alloc, &mut register, input, out)?;
    close_register(alloc, &register, store, out)
}

/// Takes the reply files of an input into the register of a store, and says how the run ended.
///
/// The arguments are `import` and STORE, which was used to open the store. The input has frames: `FILE`, a space, the number of bytes,
/// LF, and the bytes of a reply file, at most 67,108,864 of them. For each frame in turn a line is printed: `IMPORT` with the number
/// of lines that the register didn't have and of those that it had; `BAD` with the offset of the fault of bytes that spell no reply
/// file; `SIGNON` with the code of one that failed; `CLASH` with the account and the FITID of two lines that differ; or
/// `FULL` where the register would have more than 500,000 lines. A file that isn't imported changes nothing. After the last frame
/// the register is saved, and for each account a line is printed with the number and the sum of its lines (OFX 1.6, "Statement
/// Download").
///
/// | Status | Note | Where |
/// |---|---|---|
/// | 0 | | the input was read to its end, the register saved and every line printed |
/// | 2 | | the arguments have another form |
/// | 4 | the number of bytes of the frames answered | the input goes on with bytes that begin no frame, or after 1,000,000 frames |
/// | 5 | | a read of the input failed |
/// | 6 | | a write of the output failed |
/// | 7 | | memory was refused |
/// | 8 | | a call of the store failed |
/// | 15 | an offset | the store's text has no form |
///
/// With 2, 4, 5 and 15 nothing is saved.
///
/// ```rust
/// use ofx_ports::{MemSink, MemSource, MemStore};
/// use ofx_types::{Status, Text};
/// use register_run::register_told;
///
/// let alloc = rt.alloc();
/// let mut arguments = Vec::new(alloc);
/// for word in "import alice.register".split(' ') {
///     let word = Text::new(alloc, word.as_bytes(), 64).expect(&rt, "a word");
///     arguments.push(word).expect(&rt, "room");
/// }
/// // One frame, whose file is no reply file from its first byte on. A new register is saved, and has no accounts.
/// let mut input = MemSource::new(alloc, b"FILE 5\nhello").expect(&rt, "a source");
/// let mut store = MemStore::new(alloc);
/// let mut out = MemSink::new(alloc, 1024).expect(&rt, "a sink");
/// let told = register_told(alloc, &arguments, &mut input, &mut store, &mut out);
/// assert!(rt; told.status == Status(0) && !store.text().is_empty());
/// assert!(rt; out.held() == b"BAD 0\n".as_slice());
/// ```
pub fn register_told<A: Source, S: StoreKeeper, W: Sink>(
    alloc: Global,
    arguments: &[Text],
    input: &mut A,
    store: &mut S,
    out: &mut W,
) -> Told
    ensures { IsRegisterRun arguments.now
        (ports_view (A.left input.old) (A.faults input.old) (S.saved store.old) (S.faults store.old) (W.held out.old) (W.faults out.old))
        (ports_view (A.left input.new) (A.faults input.new) (S.saved store.new) (S.faults store.new) (W.held out.new) (W.faults out.new)) result }
{
    if !are_arguments(arguments) {
        return plain(2);
    }
    report_of_end(run(alloc, input, store, out))
}

/// Does what `register_told` does, and answers the status alone.
pub fn register_run<A: Source, S: StoreKeeper, W: Sink>(
    alloc: Global,
    arguments: &[Text],
    input: &mut A,
    store: &mut S,
    out: &mut W,
) -> Status
    ensures { (what : WhatIsReported) × (what.status ≡ result) × IsRegisterRun arguments.now
        (ports_view (A.left input.old) (A.faults input.old) (S.saved store.old) (S.faults store.old) (W.held out.old) (W.faults out.old))
        (ports_view (A.left input.new) (A.faults input.new) (S.saved store.new) (S.faults store.new) (W.held out.new) (W.faults out.new)) what }
{
    register_told(alloc, arguments, input, store, out).status
}
