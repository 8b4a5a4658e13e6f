//! Connections over a bank whose keeper fails.

ghost use Rattle.std.specs.Prelude.{◌≡◌, false, is_some};

use super::{NOON, Outcome, ROOM, keeper_failed, posted, reply, sink, source, times};
use crate::same::same;
use crate::sample::{put, reply_with, request_with};
use crate::servers::opened_from;
use bank_connection::Served;
use bank_samples::transfer::{PAID, POSTED, SOURCE_BALANCE, TRANSFER};
use bank_server::serve_connection;
use bank_shared::{Bank, BankName, Opened};
use ofx_file::OfxPrinter;
use ofx_ports::{MemClock, MemKeeper, MemLink, OpenGate};
use ofx_types::Moment;
use std::alloc::Global;
use std::marker::Brand;
use std::process::Abort;
use std::sync::Wait;

/// 31 January 2024, 13:00:00.
const AN_HOUR_LATER: Moment = Moment(1_706_706_000);

/// The name of a file.
const NAMED: (&str, &str) = ("NEWFILEUID:NONE", "NEWFILEUID:u1");

/// The TRNUID of its transfer.
const FIRST_TRANSFER: (&str, &str) = ("<TRNUID>t1", "<TRNUID>x1");

/// What the first reply to the named file with the transfer tells.
const FIRST: [(&str, &str); 6] = [
    NAMED,
    POSTED,
    FIRST_TRANSFER,
    PAID,
    SOURCE_BALANCE,
    SOURCE_BALANCE,
];

/// A link whose peer sends these bytes.
fn link(rt: &impl Abort, alloc: Global, bytes: &[u8]) -> MemLink {
    MemLink::of(source(rt, alloc, bytes), sink(rt, alloc, ROOM))
}

/// What becomes of a link whose peer sends these bytes, over a bank of which the first file comes at noon and the second an hour
/// later.
fn served_by<N: BankName, R: Abort + Wait>(
    rt: &R,
    alloc: Global,
    opened: Opened<MemKeeper, OfxPrinter>,
    bytes: &[u8],
) -> Outcome
    requires setup { opened.setup ≡ N.setup }
    requires opening { opened.state ≡ N.opening }
    requires first { opened.opened ≡ N.first }
    requires board { opened.board ≡ N.board }
    requires tables { opened.tables ≡ N.tables }
{
    let (bank, mut pass) = Bank::<N, _, _>::begin(opened);
    let mut clock = MemClock::new(alloc, &[NOON, AN_HOUR_LATER]).expect(rt, "a clock");
    let mut link = link(rt, alloc, bytes);
    let served = serve_connection(
        &bank, rt, alloc, &mut pass, &mut link, &mut clock, &OpenGate,
    );
    let written = link.held().to_vec(alloc).expect(rt, "room");
    (served, written)
}

/// The same over a bank with this keeper.
fn over<R: Abort + Wait>(rt: &R, alloc: Global, keeper: MemKeeper, bytes: &[u8]) -> Outcome
    requires { is_some keeper.landed ≡ false }
{
    served_by::<Brand, _>(rt, alloc, opened_from(rt, alloc, keeper), bytes)
}

/// The named file with the transfer, twice.
fn named_twice(rt: &impl Abort, alloc: Global) -> Vec<u8> {
    let framed = request_with(rt, alloc, &[NAMED, TRANSFER, FIRST_TRANSFER]);
    let (_, file) = framed.split_once("\n").unwrap_or(("", ""));
    times(rt, alloc, &posted(rt, alloc, "1.1", file.as_bytes()), 2)
}

/// What is written where the first append fails, and the named file happened at that moment.
fn answered_second(rt: &impl Abort, alloc: Global, moment: &str) -> Vec<u8> {
    let framed = reply_with(rt, alloc, &FIRST).replace(alloc, "20240131120000", moment);
    let framed = framed.expect(rt, "a reply");
    let (_, answer) = framed.split_once("\n").unwrap_or(("", ""));
    let kind = "application/x-ofx";
    let answered = reply(rt, alloc, "200 OK", kind, answer.as_bytes(), "keep-alive");
    let mut text = keeper_failed(rt, alloc);
    put(rt, &mut text, &answered);
    text
}

/// Which calls of the keeper land, and the moment at which the file happened.
const LANDINGS: &[(&[u64], &str)] = &[(&[1], "20240131120000"), (&[], "20240131130000")];

/// The named file with the transfer twice, after a first append that fails: where its record has landed the second reply is of
/// the first moment, and otherwise of the second one.
#[test]
fn a_file_whose_append_failed_happens_once(rt: HostRuntime) {
    let alloc = rt.alloc();
    let bytes = named_twice(&rt, alloc);
    for (landing, moment) in LANDINGS {
        let keeper = MemKeeper::failing(alloc, &[1], landing).expect(&rt, "a keeper");
        let (end, written) = over(&rt, alloc, keeper, &bytes);
        same(&rt, end, Ok(Served::End(2)));
        assert!(rt; written == answered_second(&rt, alloc, moment));
    }
}
