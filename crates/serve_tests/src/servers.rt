//! The bank as a server: how it opens, and its connections and workers, over links and doorways in memory and over a socket.

mod at_random;
mod both;
mod copies;
mod crowd;
mod holding;
mod sockets;
mod turns;

ghost use Rattle.std.specs.Prelude.{◌≡◌, false, is_some};
ghost use Rattle.bank_shared.specs.Holds.{IsPassOf};

use crate::connections::{at_noon, posted, sample_reply, sample_request, sample_times};
use crate::one_thread::written_over;
use crate::same::same;
use crate::sample::{keys, put, request_with, setup, texts};
use bank_connection::Served;
use bank_samples::sample::SETUP;
use bank_samples::transfer::TRANSFER;
use bank_server::{AllEnd, serve_all, serve_connection, serve_open};
use bank_shared::{Bank, BankName, Opened, Pass};
use both::BothGate;
use copies::{Copies, CopyKeeper};
use ofx_file::OfxPrinter;
use ofx_ports::{
    Doorway, Gate, Keeper, Link, MemClock, MemDoor, MemKeeper, MemLink, MemSource, OpenGate,
};
use ofx_types::{Moment, Note, Status, Told};
use std::alloc::Global;
use std::marker::Brand;
use std::process::Abort;
use std::sync::Wait;
use std::thread::Threads;

/// 5 February 2024, 12:00:00.
const FEBRUARY: Moment = Moment(1_707_134_400);

/// More room than the replies of a link need.
const ROOM: usize = 8_192;

/// A transfer of all that its account has, which is due on 5 February.
const WAITING: [(&str, &str); 3] = [
    TRANSFER,
    ("<TRNUID>t1", "<TRNUID>x1"),
    (
        "<TRNAMT>10.00\r\n",
        "<TRNAMT>100.00\r\n<DTDUE>20240205000000\r\n",
    ),
];

/// On 31 January 2024 at 12:00:00 the transfer with the id 1 is posted.
const POST: &[u8] = b"\
    \x01\x02\x00\x00\x00\x00\x65\xba\x36\x40\
    \x00\x00\x00\x00\x00\x00\x00\x01";

/// On 5 February 2024 at 12:00:00 it is.
const DUE_POST: &[u8] = b"\
    \x01\x02\x00\x00\x00\x00\x65\xc0\xcd\xc0\
    \x00\x00\x00\x00\x00\x00\x00\x01";

/// The sample's request of the other user, for the other account.
const BY_BOB: [(&str, &str); 4] = [
    ("<USERID>alice", "<USERID>bob"),
    ("<USERPASS>secret", "<USERPASS>hunter"),
    ("<ACCTID>1001", "<ACCTID>1002"),
    ("<ACCTTYPE>CHECKING", "<ACCTTYPE>SAVINGS"),
];

/// A bank of the sample's setup that has opened from these records.
pub fn opened_from<K: Keeper>(rt: &impl Abort, alloc: Global, keeper: K) -> Opened<K, OfxPrinter>
    requires { K.unsettled keeper ≡ false }
{
    let opened = Opened::open(alloc, keys(rt), keeper, setup(rt, alloc), OfxPrinter);
    opened.ok().expect(rt, "a bank")
}

/// How a link is served by a bank that has opened and whose clock is at noon.
fn connected<N: BankName, R: Abort + Wait>(
    rt: &R,
    alloc: Global,
    opened: Opened<MemKeeper, OfxPrinter>,
    link: &mut MemLink,
) -> Served
    requires setup { opened.setup ≡ N.setup }
    requires opening { opened.state ≡ N.opening }
    requires first { opened.opened ≡ N.first }
    requires board { opened.board ≡ N.board }
    requires tables { opened.tables ≡ N.tables }
{
    let (bank, mut pass) = Bank::<N, _, _>::begin(opened);
    connected_by(rt, alloc, &bank, &mut pass, link)
}

/// The same by a caller of the bank.
fn connected_by<N: BankName, R: Abort + Wait>(
    rt: &R,
    alloc: Global,
    bank: &Bank<N, MemKeeper, OfxPrinter>,
    pass: &mut Pass,
    link: &mut MemLink,
) -> Served
    requires { IsPassOf N.setup N.opening N.board pass.old }
    ensures { IsPassOf N.setup N.opening N.board pass.new }
{
    let mut clock = at_noon(rt, alloc);
    let served = serve_connection(bank, rt, alloc, pass, link, &mut clock, &OpenGate);
    served.expect(rt, "a connection to its end")
}

/// How all workers of a bank that has opened end.
pub fn all_served<
    R: Abort + Threads + Wait + Sync,
    K: Keeper + Send,
    L: Link,
    D: Doorway<L>,
    G: Gate + Sync,
>(
    rt: &R,
    alloc: Global,
    opened: Opened<K, OfxPrinter>,
    workers: Vec<(D, MemClock)>,
    gate: &G,
    most: u32,
) -> AllEnd<D, MemClock> {
    let all = serve_all::<Brand, _, _, _, L, _, _, _>(rt, alloc, opened, workers, gate, most);
    all.expect(rt, "workers to their ends")
}

/// A doorway that gives a link for each of these requests.
fn door_of(rt: &impl Abort, alloc: Global, requests: &[&[u8]]) -> MemDoor {
    let mut links = Vec::new(alloc);
    for request in requests {
        links.push(link_of(rt, alloc, request)).expect(rt, "room");
    }
    MemDoor::new(alloc, links, &[]).expect(rt, "a doorway")
}

/// A link whose peer sends these bytes.
fn link_of(rt: &impl Abort, alloc: Global, bytes: &[u8]) -> MemLink {
    MemLink::new(alloc, bytes, ROOM).expect(rt, "a link")
}

/// How the one worker of a doorway with the sample's request twice ends, by this clock, over a bank that has opened.
fn served_twice<R: Abort + Threads + Wait + Sync, K: Keeper + Send>(
    rt: &R,
    alloc: Global,
    opened: Opened<K, OfxPrinter>,
    clock: MemClock,
    most: u32,
) -> AllEnd<MemDoor, MemClock> {
    let request = sample_times(rt, alloc, 1);
    let door = door_of(rt, alloc, &[&request, &request]);
    let mut workers = Vec::new(alloc);
    workers.push((door, clock)).expect(rt, "room");
    all_served(rt, alloc, opened, workers, &OpenGate, most)
}

#[test]
fn a_bank_serves_a_connection_to_its_end(rt: HostRuntime) {
    let alloc = rt.alloc();
    let mut link = link_of(&rt, alloc, &sample_times(&rt, alloc, 2));
    let opened = opened_from(&rt, alloc, MemKeeper::new(alloc));
    let served = connected::<Brand, _>(&rt, alloc, opened, &mut link);
    same(&rt, served, Served::End(2));
    let mut replies = sample_reply(&rt, alloc, "keep-alive");
    put(&rt, &mut replies, &sample_reply(&rt, alloc, "keep-alive"));
    assert!(rt; link.held() == replies.as_slice());
}

#[test]
fn http_1_0_is_the_last_request_of_a_connection(rt: HostRuntime) {
    let alloc = rt.alloc();
    let mut bytes = sample_request(&rt, alloc, "1.0");
    put(&rt, &mut bytes, b"POST");
    let mut link = link_of(&rt, alloc, &bytes);
    let opened = opened_from(&rt, alloc, MemKeeper::new(alloc));
    let served = connected::<Brand, _>(&rt, alloc, opened, &mut link);
    same(&rt, served, Served::Closed(1));
    assert!(rt; link.held() == sample_reply(&rt, alloc, "close").as_slice());
}

/// Whether these are the links that came back, each with one reply to the sample's request.
fn are_answered(rt: &impl Abort, alloc: Global, back: &[MemLink], count: usize) -> bool {
    let reply = sample_reply(rt, alloc, "keep-alive");
    for link in back {
        if link.held() != reply.as_slice() || !link.left().is_empty() {
            return false;
        }
    }
    back.len() == count
}

#[test]
fn a_worker_serves_each_link_of_its_doorway(rt: HostRuntime) {
    let alloc = rt.alloc();
    let opened = opened_from(&rt, alloc, MemKeeper::new(alloc));
    let all = served_twice(&rt, alloc, opened, at_noon(&rt, alloc), 0);
    same(&rt, all.status, Status(0));
    same(&rt, all.ends.len(), 1);
    for worked in &all.ends {
        let end = &worked.end;
        same(&rt, (end.served, end.missed, end.status), (2, 0, Status(0)));
        assert!(rt; are_answered(&rt, alloc, worked.door.back(), 2));
    }
}

/// Records of the waiting transfer, as the bank of one thread keeps them.
fn kept_by_one(rt: &impl Abort, alloc: Global) -> MemKeeper
    ensures { is_some result.landed ≡ false }
{
    let mut kept = MemKeeper::new(alloc);
    let waiting = request_with(rt, alloc, &WAITING);
    let mut clock = at_noon(rt, alloc);
    let reported = written_over(rt, alloc, &waiting, &mut kept, &mut clock);
    assert!(rt; reported.contains("<XFERPRCCODE>WILLPROCESSON\r\n"));
    kept
}

#[test]
fn what_is_due_is_done_before_a_link_is_served(rt: HostRuntime) {
    let alloc = rt.alloc();
    let kept = kept_by_one(&rt, alloc);
    let copies = Copies::new(Vec::new(alloc));
    let opened = opened_from(&rt, alloc, CopyKeeper::over(alloc, kept, &copies));
    let clock = MemClock::new(alloc, &[FEBRUARY]).expect(&rt, "a clock");
    let all = served_twice(&rt, alloc, opened, clock, 1);
    same(&rt, all.status, Status(0));
    let records = copies.into_inner();
    let Some(first) = records.first() else {
        panic!(rt; "no record");
    };
    assert!(rt; first.as_slice() == DUE_POST);
    for worked in &all.ends {
        same(&rt, worked.end.served, 1);
        for link in worked.door.back() {
            let written = str::from_utf8(link.held()).expect(&rt, "a text");
            assert!(rt; written.contains("<BALAMT>0.00\r\n"));
        }
    }
}

/// What `serve_open` tells of these words over these records. None where the bank opens.
fn refused(rt: &impl Abort, alloc: Global, arguments: &[&str], keeper: MemKeeper) -> Option<Told>
    requires { is_some keeper.landed ≡ false }
{
    let arguments = texts(rt, alloc, arguments);
    let mut setup = MemSource::new(alloc, SETUP).expect(rt, "the setup");
    match serve_open(alloc, keys(rt), &arguments, &mut setup, keeper, OfxPrinter) {
        Ok(_) => None,
        Err((reported, _keeper)) => Some(reported),
    }
}

#[test]
fn words_and_records_are_judged_before_the_bank_serves(rt: HostRuntime) {
    let alloc = rt.alloc();
    let many = ["serve", "setup", "-", "8080", "65", "0"];
    same(
        &rt,
        refused(&rt, alloc, &many, MemKeeper::new(alloc)),
        Some(Told {
            status: Status(2),
            note: Note::Plain,
        }),
    );
    let arguments = ["serve", "setup", "-", "65535", "64", "4294967295"];
    same(
        &rt,
        refused(&rt, alloc, &arguments, MemKeeper::new(alloc)),
        None,
    );
    let mut keeper = MemKeeper::new(alloc);
    keeper.append(POST).expect(&rt, "room");
    same(
        &rt,
        refused(&rt, alloc, &arguments, keeper),
        Some(Told {
            status: Status(9),
            note: Note::Illegal(1),
        }),
    );
}

/// Workers with a doorway each, whose links are of these requests, from noon on.
fn workers_of(rt: &impl Abort, alloc: Global, requests: &[Vec<u8>]) -> Vec<(MemDoor, MemClock)> {
    let mut workers = Vec::new(alloc);
    for request in requests {
        let worker = (door_of(rt, alloc, &[request]), at_noon(rt, alloc));
        workers.push(worker).expect(rt, "room");
    }
    workers
}

/// The sample's request, and that of the other user.
fn by_both(rt: &impl Abort, alloc: Global) -> [Vec<u8>; 2] {
    let by_bob = request_with(rt, alloc, &BY_BOB);
    let (_, file) = by_bob.split_once("\n").unwrap_or(("", ""));
    [
        sample_times(rt, alloc, 1),
        posted(rt, alloc, "1.1", file.as_bytes()),
    ]
}

#[test]
fn two_workers_wait_at_the_gate_at_once(rt: HostRuntime) {
    let alloc = rt.alloc();
    let workers = workers_of(&rt, alloc, &by_both(&rt, alloc));
    let gate = BothGate::new(&rt);
    let opened = opened_from(&rt, alloc, MemKeeper::new(alloc));
    let all = all_served(&rt, alloc, opened, workers, &gate, 1);
    assert!(rt; gate.let_both_through());
    same(&rt, all.status, Status(0));
    for worked in &all.ends {
        same(&rt, (worked.end.served, worked.door.back().len()), (1, 1));
        for link in worked.door.back() {
            assert!(rt; link.held().starts_with(b"HTTP/1.1 200 OK\r\n"));
        }
    }
}
