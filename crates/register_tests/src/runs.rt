//! Whole runs over the memory forms.

use crate::sample::{FIRST, OTHER, SECOND, frames, push_frame, reply, texts};
use ofx_ports::{MemSink, MemSource, MemStore};
use ofx_types::{Note, Status, Told};
use register_run::{register_run, register_told};
use std::alloc::Global;
use std::process::Abort;

/// The room of an output.
const ROOM: usize = 10_000;

/// The arguments of a run.
const ARGUMENTS: [&str; 2] = ["import", "-"];

/// Runs whose inputs are files with these lines, and what they print.
const ORDERS: [(&[&str], &str); 4] = [
    (
        &[FIRST, SECOND],
        "IMPORT 2 0\nIMPORT 1 1\naccount 1001 CHECKING lines 3 sum -6.00\n",
    ),
    (
        &[SECOND, FIRST],
        "IMPORT 2 0\nIMPORT 1 1\naccount 1001 CHECKING lines 3 sum -6.00\n",
    ),
    (
        &[FIRST, SECOND, FIRST],
        "IMPORT 2 0\nIMPORT 1 1\nIMPORT 0 2\naccount 1001 CHECKING lines 3 sum -6.00\n",
    ),
    (
        &[FIRST, OTHER],
        "IMPORT 2 0\nCLASH 1001 CHECKING 2\naccount 1001 CHECKING lines 2 sum -3.00\n",
    ),
];

/// Inputs that no frame begins, or of which none begins after a first frame, and where.
const FRAMELESS: [(&str, u64); 5] = [
    ("FILE 67108865\n", 0),
    ("FILE 5\nabc", 0),
    ("FILE 05\nabcde", 0),
    ("DUE\n", 0),
    ("FILE 3\nabcFILE", 10),
];

/// What a run over a store reported and printed.
fn reported_over(
    rt: &impl Abort,
    alloc: Global,
    input: &str,
    store: &mut MemStore,
) -> (Told, String) {
    let mut source = MemSource::new(alloc, input.as_bytes()).expect(rt, "a source");
    let mut out = MemSink::new(alloc, ROOM).expect(rt, "a sink");
    let arguments = texts(rt, alloc, &ARGUMENTS);
    let reported = register_told(alloc, &arguments, &mut source, store, &mut out);
    let printed = str::from_utf8(out.held()).expect(rt, "a text");
    (
        reported,
        String::from_str(alloc, printed).expect(rt, "room"),
    )
}

/// Compares what was reported with a status and a note.
fn same(rt: &impl Abort, reported: Told, status: u8, note: Note) {
    assert_eq!(rt; (reported.status, reported.note), (Status(status), note));
}

#[test]
fn files_in_any_order(rt: HostRuntime) {
    let alloc = rt.alloc();
    for (files, wanted) in ORDERS {
        let mut store = MemStore::new(alloc);
        let (reported, printed) = reported_over(&rt, alloc, &frames(&rt, alloc, files), &mut store);
        same(&rt, reported, 0, Note::Plain);
        assert_eq!(rt; printed.as_str(), wanted);
    }
}

#[test]
fn a_register_goes_on(rt: HostRuntime) {
    let alloc = rt.alloc();
    let mut store = MemStore::new(alloc);
    let _ = reported_over(&rt, alloc, &frames(&rt, alloc, &[FIRST]), &mut store);
    let (reported, printed) = reported_over(&rt, alloc, "", &mut store);
    same(&rt, reported, 0, Note::Plain);
    assert_eq!(rt;
        printed.as_str(),
        "account 1001 CHECKING lines 2 sum -3.00\n"
    );
}

#[test]
fn files_that_change_nothing(rt: HostRuntime) {
    let alloc = rt.alloc();
    let mut input = String::new(alloc);
    push_frame(&rt, alloc, &reply(&rt, alloc, "15500", FIRST), &mut input);
    push_frame(&rt, alloc, "", &mut input);
    let mut store = MemStore::new(alloc);
    let (reported, printed) = reported_over(&rt, alloc, &input, &mut store);
    same(&rt, reported, 0, Note::Plain);
    assert_eq!(rt; printed.as_str(), "SIGNON 15500\nBAD 0\n");
    assert_eq!(rt; store.text(), [1, 0, 0, 0, 0].as_slice());
}

#[test]
fn inputs_without_frames(rt: HostRuntime) {
    let alloc = rt.alloc();
    for (input, offset) in FRAMELESS {
        let mut store = MemStore::new(alloc);
        let (reported, _) = reported_over(&rt, alloc, input, &mut store);
        same(&rt, reported, 4, Note::Place(offset));
        assert_eq!(rt; store.text().len(), 0);
    }
}

#[test]
fn other_arguments(rt: HostRuntime) {
    let alloc = rt.alloc();
    let mut store = MemStore::new(alloc);
    let mut source = MemSource::new(alloc, b"").expect(&rt, "a source");
    let mut out = MemSink::new(alloc, ROOM).expect(&rt, "a sink");
    let arguments = texts(&rt, alloc, &["import"]);
    let status = register_run(alloc, &arguments, &mut source, &mut store, &mut out);
    assert_eq!(rt; status, Status(2));
}
