//! Files out of form, stores that are damaged, and ports that fail.

use crate::registers::SAVED;
use crate::sample::{FIRST, OTHER, frames, push_frame, reply, request, texts};
use ofx_ports::{MemSink, MemSource, MemStore};
use ofx_types::{Note, Status, Told};
use register_run::register_told;
use std::alloc::Global;
use std::process::Abort;

/// The room of an output.
const ROOM: usize = 10_000;

/// A line whose FITID is no number.
const LETTERS: &str =
    "<STMTTRN><TRNTYPE>XFER<DTPOSTED>20240131120200<TRNAMT>-2.50<FITID>20a</STMTTRN>";

/// What a run over these ports reported.
fn reported_by(
    rt: &impl Abort,
    alloc: Global,
    source: &mut MemSource,
    store: &mut MemStore,
    out: &mut MemSink,
) -> Told {
    let arguments = texts(rt, alloc, &["import", "-"]);
    register_told(alloc, &arguments, source, store, out)
}

/// An input that doesn't fail.
fn input(rt: &impl Abort, alloc: Global, text: &str) -> MemSource {
    MemSource::new(alloc, text.as_bytes()).expect(rt, "a source")
}

/// An output that doesn't fail.
fn output(rt: &impl Abort, alloc: Global) -> MemSink {
    MemSink::new(alloc, ROOM).expect(rt, "a sink")
}

/// Compares a status with the one that is wanted.
fn same(rt: &impl Abort, reported: Told, status: u8) {
    assert_eq!(rt; reported.status, Status(status));
}

/// Bytes of a saved register that are turned over, and the offset of the fault that is found: the version, the number of lines, a
/// text's length, the FITID that puts the first line after the second, a moment, and an amount.
const DAMAGED: [(usize, u64); 7] = [
    (0, 0),
    (1, 1),
    (4, 89),
    (5, 5),
    (30, 47),
    (31, 31),
    (39, 39),
];

/// What a run reports over a saved register of which this byte is turned over, and the register that is saved then.
fn damaged(rt: &impl Abort, alloc: Global, at: usize) -> Told {
    let mut text = SAVED;
    let byte = text.get_mut(at).expect(rt, "a byte of the text");
    *byte = !*byte;
    let mut store = MemStore::failing(alloc, &text, &[], &[]).expect(rt, "a store");
    let mut out = output(rt, alloc);
    let reported = reported_by(rt, alloc, &mut input(rt, alloc, ""), &mut store, &mut out);
    if reported.status == Status(15) {
        assert_eq!(rt; store.text(), text.as_slice());
    }
    reported
}

#[test]
fn stores_damaged_at_each_byte(rt: HostRuntime) {
    let alloc = rt.alloc();
    for at in 0..SAVED.len() {
        match damaged(&rt, alloc, at).note {
            Note::Place(offset) => assert!(rt; offset <= SAVED.len() as u64),
            note => assert_eq!(rt; note, Note::Plain),
        }
    }
    for (at, offset) in DAMAGED {
        let reported = damaged(&rt, alloc, at);
        same(&rt, reported, 15);
        assert_eq!(rt; reported.note, Note::Place(offset));
    }
}

#[test]
fn files_out_of_form(rt: HostRuntime) {
    let alloc = rt.alloc();
    let mut twice = String::new(alloc);
    twice.push_str(FIRST).expect(&rt, "room");
    twice.push_str(OTHER).expect(&rt, "room");
    let lettered = reply(&rt, alloc, "0", LETTERS);
    let offset = lettered
        .as_str()
        .find("<FITID>20a")
        .expect(&rt, "the FITID");
    let wanted = format!(in alloc; "CLASH 1001 CHECKING 2\nBAD {offset}\nBAD 143\nBAD 3\n").expect(
        &rt, "text",
    );
    let mut files = frames(&rt, alloc, &[&twice]);
    push_frame(&rt, alloc, &lettered, &mut files);
    push_frame(&rt, alloc, &request(&rt, alloc), &mut files);
    push_frame(&rt, alloc, "OFX", &mut files);
    let mut store = MemStore::new(alloc);
    let mut out = output(&rt, alloc);
    let reported = reported_by(
        &rt,
        alloc,
        &mut input(&rt, alloc, &files),
        &mut store,
        &mut out,
    );
    same(&rt, reported, 0);
    assert_eq!(rt; str::from_utf8(out.held()), Ok(wanted.as_str()));
    assert_eq!(rt; store.text(), [1, 0, 0, 0, 0].as_slice());
}

#[test]
fn ports_that_fail(rt: HostRuntime) {
    let alloc = rt.alloc();
    let files = frames(&rt, alloc, &[FIRST]);
    let mut broken = MemSource::failing(alloc, files.as_bytes(), 100, &[1]).expect(&rt, "a source");
    let mut store = MemStore::new(alloc);
    let reported = reported_by(&rt, alloc, &mut broken, &mut store, &mut output(&rt, alloc));
    same(&rt, reported, 5);
    assert_eq!(rt; store.text().len(), 0);

    let mut full = MemSink::new(alloc, 3).expect(&rt, "a sink");
    let reported = reported_by(
        &rt,
        alloc,
        &mut input(&rt, alloc, &files),
        &mut store,
        &mut full,
    );
    same(&rt, reported, 6);
    assert_eq!(rt; store.text().len(), 0);
}

#[test]
fn stores_that_fail(rt: HostRuntime) {
    let alloc = rt.alloc();
    let files = frames(&rt, alloc, &[FIRST]);
    for call in 1..3 {
        let mut store = MemStore::failing(alloc, &[], &[call], &[]).expect(&rt, "a store");
        let mut out = output(&rt, alloc);
        let reported = reported_by(
            &rt,
            alloc,
            &mut input(&rt, alloc, &files),
            &mut store,
            &mut out,
        );
        same(&rt, reported, 8);
        assert_eq!(rt; store.text().len(), 0);
    }
}
