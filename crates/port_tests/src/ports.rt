//! Sources, sinks, keepers and clocks: the forms in memory, and what no clause says of the adapters.

use crate::same::{same, same_bytes};
use ofx_ports::{
    Clock, Failed, FetchFault, Keeper, MemClock, MemKeeper, MemSink, MemSource, PutFault,
    ReaderSource, Sink, Source, SystemClock, WriterSink,
};
use ofx_types::Moment;
use std::io::{Error, ErrorKind, Read};
use std::{fs, io};

#[test]
fn a_source_gives_its_bytes(rt: HostRuntime) {
    let mut source = MemSource::new(rt.alloc(), b"abc").expect(&rt, "a source");
    let mut into = [0u8; 8];
    same(&rt, source.read(&mut into), Ok(3));
    same_bytes(&rt, &into[..3], b"abc");
    same(&rt, source.left().len(), 0);
    same(&rt, source.read(&mut into), Ok(0));
    same(&rt, source.calls(), 2);
}

#[test]
fn a_source_fails_where_it_is_told_to(rt: HostRuntime) {
    let mut source = MemSource::failing(rt.alloc(), b"abc", 1, &[2]).expect(&rt, "a source");
    let mut into = [0u8; 8];
    same(&rt, source.read(&mut into), Ok(1));
    same(&rt, source.read(&mut into), Err(Failed));
    same_bytes(&rt, source.left(), b"bc");
    same(&rt, source.read(&mut into), Ok(1));
    same(&rt, into[0], b'b');
}

#[test]
fn a_sink_holds_what_it_took(rt: HostRuntime) {
    let mut sink = MemSink::new(rt.alloc(), 4).expect(&rt, "a sink");
    same(&rt, sink.write(b"abc"), Ok(3));
    same(&rt, sink.write(b"de"), Err(Failed));
    same(&rt, sink.write(b"d"), Ok(1));
    same_bytes(&rt, sink.held(), b"abcd");
    same(&rt, sink.calls(), 3);
}

#[test]
fn a_sink_fails_where_it_is_told_to(rt: HostRuntime) {
    let mut sink = MemSink::failing(rt.alloc(), 4, 1, &[1]).expect(&rt, "a sink");
    same(&rt, sink.write(b"ab"), Err(Failed));
    same(&rt, sink.write(b"ab"), Ok(1));
    same_bytes(&rt, sink.held(), b"a");
}

#[test]
fn a_keeper_keeps_records(rt: HostRuntime) {
    let mut keeper = MemKeeper::new(rt.alloc());
    let mut into = b"before".to_vec(rt.alloc()).expect(&rt, "room");
    keeper.append(b"one").expect(&rt, "a record");
    keeper.append(b"two").expect(&rt, "a record");
    assert!(rt; keeper.len() == 2 && keeper.record_count() == 2);
    keeper.fetch(1, &mut into).expect(&rt, "the first record");
    same_bytes(&rt, &into, b"one");
    same_bytes(&rt, keeper.record(2), b"two");
    same(&rt, keeper.settle(), Ok(false));
    same(&rt, keeper.calls(), 4);
    same(&rt, keeper.faults(), 0);
}

#[test]
fn a_keeper_settles_what_landed(rt: HostRuntime) {
    let mut keeper = MemKeeper::failing(rt.alloc(), &[1, 2, 4, 6], &[1]).expect(&rt, "a keeper");
    let mut into = Vec::new(rt.alloc());
    same(&rt, keeper.append(b"one"), Err(PutFault::Failed));
    same(&rt, keeper.settle(), Err(Failed));
    assert!(rt; keeper.settle() == Ok(true));
    same(&rt, keeper.append(b"two"), Err(PutFault::Failed));
    assert!(rt; keeper.settle() == Ok(false) && keeper.len() == 1);
    same(&rt, keeper.fetch(1, &mut into), Err(FetchFault::Failed));
    same(&rt, keeper.fetch(1, &mut into), Ok(()));
    same_bytes(&rt, &into, b"one");
    same(&rt, keeper.faults(), 4);
}

#[test]
fn a_clock_answers_in_order(rt: HostRuntime) {
    let mut clock = MemClock::new(rt.alloc(), &[Moment(5), Moment(7)]).expect(&rt, "a clock");
    same(&rt, clock.now(), Moment(5));
    same(&rt, clock.now(), Moment(7));
    same(&rt, clock.now(), Moment(7));
}

// Is cut short by a signal at the first read, gives one byte at the second, and fails from then on.
#[derive(Drop)]
struct Halting {
    reads: u8,
}

impl Read for Halting {
    fn read(&mut self, buf: &mut [u8]) -> io::Result<usize> {
        self.reads = self.reads.saturating_add(1);
        match (self.reads, buf) {
            (1, _) => Err(Error::new(ErrorKind::Interrupted, "a signal came")),
            (2, [first, ..]) => {
                *first = b'a';
                Ok(1)
            }
            _ => Err(Error::new(ErrorKind::Other, "broken")),
        }
    }
}

#[test]
fn a_reader_is_a_source(rt: HostRuntime) {
    let mut source = ReaderSource::new(Halting { reads: 0 });
    let mut into = [0u8; 8];
    same(&rt, source.read(&mut into), Ok(1));
    same(&rt, into[0], b'a');
    same(&rt, source.read(&mut into), Err(Failed));
}

#[test]
fn a_path_that_cannot_be_opened_fails(rt: HostRuntime) {
    let mut source = ReaderSource::opened(fs::open(&rt, "no/such/file"));
    let mut into = [0u8; 8];
    same(&rt, source.read(&mut into), Err(Failed));
    same(&rt, source.read(&mut into), Err(Failed));
}

#[test]
fn a_writer_is_a_sink(rt: HostRuntime) {
    let mut out = Vec::new(rt.alloc());
    let mut sink = WriterSink::new(&mut out);
    same(&rt, sink.write(b"abc"), Ok(3));
    drop(sink);
    same_bytes(&rt, &out, b"abc");
}

#[test]
fn the_system_has_a_clock(rt: HostRuntime) {
    let mut clock = SystemClock::new(&rt);
    let start_of_2020 = Moment(1_577_836_800);
    assert!(rt; start_of_2020 < clock.now());
}
