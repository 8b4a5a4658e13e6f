//! Four workers at once over sockets of the machine itself, whose peers send transfers and polls.

ghost use Rattle.std.specs.Prelude.{◌≡◌, false, is_some};

use super::copies::{Copies, CopyKeeper};
use super::sockets::{read_whole, send};
use super::{all_served, connected, link_of, opened_from};
use crate::connections::{at_noon, posted, sample_times};
use crate::same::same;
use crate::sample::{put, request_with};
use bank_connection::Served;
use bank_samples::changes::POLL;
use bank_samples::transfer::TRANSFER;
use ofx_ports::{Keeper, Link, MemKeeper, MemLink, OpenGate, TcpDoor, TcpLink, listen};
use ofx_types::Status;
use std::alloc::Global;
use std::marker::Brand;
use std::net::{SocketAddr, TcpStream};
use std::process::Abort;
use std::sync::Wait;
use std::thread::Threads;
use std::time::Duration;

/// The peers of an account, each of which a worker of its own serves.
const PEERS: u64 = 2;

/// The transfers that a peer sends. Two polls for its account follow each.
const TRANSFERS: u64 = 10;

/// An account of the sample's setup, and what the peers that pay from it send: changes of the sample's request.
#[derive(Clone, Copy)]
struct Payer {
    name: &'static str,
    transfer: &'static [(&'static str, &'static str)],
    poll: &'static [(&'static str, &'static str)],
}

/// Pays a cent to the other account with each transfer.
const CHECKING: Payer = Payer {
    name: "c",
    transfer: &[("<TRNAMT>10.00", "<TRNAMT>0.01")],
    poll: &[],
};

/// Pays two cents to the other account with each transfer.
const SAVINGS: Payer = Payer {
    name: "s",
    transfer: &[
        ("<TRNAMT>10.00", "<TRNAMT>0.02"),
        (
            "<ACCTID>1001\r\n<ACCTTYPE>CHECKING\r\n</BANKACCTFROM>\r\n<BANKACCTTO>",
            "<ACCTID>1002\r\n<ACCTTYPE>SAVINGS\r\n</BANKACCTFROM>\r\n<BANKACCTTO>",
        ),
        (
            "<ACCTID>1002\r\n<ACCTTYPE>SAVINGS\r\n</BANKACCTTO>",
            "<ACCTID>1001\r\n<ACCTTYPE>CHECKING\r\n</BANKACCTTO>",
        ),
    ],
    poll: &[
        ("<ACCTID>1001", "<ACCTID>1002"),
        ("<ACCTTYPE>CHECKING", "<ACCTTYPE>SAVINGS"),
    ],
};

/// The balance of CHECKING after all transfers: of 100.00, 20 cents were paid out and 40 were paid in.
const BALANCE: &str = "<BALAMT>100.20\r\n";

/// The file of the sample's request with these changes and then those.
fn file_of<'x>(
    rt: &impl Abort,
    alloc: Global,
    first: &'x [(&'x str, &'x str)],
    then: &'x [(&'x str, &'x str)],
) -> String {
    let mut changes = Vec::new(alloc);
    changes.extend_from_slice(first).expect(rt, "room");
    changes.extend_from_slice(then).expect(rt, "room");
    let framed = request_with(rt, alloc, &changes);
    let (_, file) = framed.split_once("\n").unwrap_or(("", ""));
    format!(in alloc; "{file}").expect(rt, "room")
}

/// The poll of a payer, as a request of a link.
fn poll_of(rt: &impl Abort, alloc: Global, version: &str, payer: Payer) -> Vec<u8> {
    let file = file_of(rt, alloc, &POLL, payer.poll);
    posted(rt, alloc, version, file.as_bytes())
}

/// What a peer sends: its transfers, each with a TRNUID of its own and two polls after it. Its last poll ends the connection.
fn sent_by(rt: &impl Abort, alloc: Global, payer: Payer, peer: u64) -> Vec<u8> {
    let poll = poll_of(rt, alloc, "1.1", payer);
    let transfer = file_of(rt, alloc, &[TRANSFER], payer.transfer);
    let (before, after) = transfer.split_once("<TRNUID>t1").unwrap_or(("", ""));
    let mut bytes = Vec::new(alloc);
    for number in 1..=TRANSFERS {
        let file = format!(in alloc; "{before}<TRNUID>{}{peer}n{number}{after}", payer.name).expect(
            rt, "room",
        );
        put(rt, &mut bytes, &posted(rt, alloc, "1.1", file.as_bytes()));
        put(rt, &mut bytes, &poll);
        if number != TRANSFERS {
            put(rt, &mut bytes, &poll);
        }
    }
    put(rt, &mut bytes, &poll_of(rt, alloc, "1.0", payer));
    bytes
}

/// The number after the first of these tags, if there is one.
pub fn number_after(text: &str, tag: &str) -> Option<u64> {
    let (_, rest) = text.split_once(tag)?;
    let (number, _) = rest.split_once("\r\n")?;
    number.parse::<u64>().ok()
}

/// The replies that came over a link, in order.
pub fn replies_in<'a>(rt: &impl Abort, alloc: Global, written: &'a str) -> Vec<&'a str> {
    let mut replies = Vec::new(alloc);
    for reply in written.split("HTTP/1.1 200 OK\r\n") {
        replies.push(reply).expect(rt, "room");
    }
    replies
}

/// The numbers after the first of these tags in each of these replies that has one.
fn numbers_in(rt: &impl Abort, alloc: Global, replies: &[&str], tag: &str) -> Vec<u64> {
    let mut numbers = Vec::new(alloc);
    for reply in replies {
        if let Some(number) = number_after(reply, tag) {
            numbers.push(number).expect(rt, "room");
        }
    }
    numbers
}

/// How many polls these replies answer, where each token is one of these and none is older than what was answered before it.
fn right_polls(replies: &[&str], known: &[u64]) -> Option<u64> {
    let mut answered = 0;
    let mut polls = 0u64;
    for reply in replies {
        if let Some(id) = number_after(reply, "<SRVRTID>") {
            answered = id;
        }
        if let Some(token) = number_after(reply, "<TOKEN>") {
            if token < answered || !known.contains(&token) {
                return None;
            }
            answered = token;
            polls = polls.saturating_add(1);
        }
    }
    Some(polls)
}

/// The numbers of the transfers of an account that these peers were answered. Each of them has the right tokens.
fn judged(rt: &impl Abort, alloc: Global, written: &[Vec<u8>]) -> Vec<u64> {
    let mut ids = Vec::new(alloc);
    for bytes in written {
        let replies = replies_in(rt, alloc, str::from_utf8(bytes).expect(rt, "a text"));
        for id in numbers_in(rt, alloc, &replies, "<SRVRTID>") {
            ids.push(id).expect(rt, "room");
        }
    }
    for bytes in written {
        let replies = replies_in(rt, alloc, str::from_utf8(bytes).expect(rt, "a text"));
        same(rt, right_polls(&replies, &ids), Some(2 * TRANSFERS));
    }
    ids
}

/// A keeper of these records.
pub fn kept_again(rt: &impl Abort, alloc: Global, records: &[Vec<u8>]) -> MemKeeper
    ensures { is_some result.landed ≡ false }
{
    let mut keeper = MemKeeper::new(alloc);
    for record in records {
        keeper.append(record).expect(rt, "room");
    }
    keeper
}

/// Links of the peers of an account, who have sent all that they send. A call of a link waits no longer than the limit.
fn peers_of(
    rt: &HostRuntime,
    abort: &impl Abort,
    address: SocketAddr,
    limit: Duration,
    payer: Payer,
) -> Vec<TcpLink<TcpStream>> {
    let alloc = rt.alloc();
    let mut links = Vec::new(alloc);
    for peer in 0..PEERS {
        let mut link = TcpLink::over(TcpStream::connect(rt, address), limit);
        send(abort, &mut link, &sent_by(abort, alloc, payer, peer));
        links.push(link).expect(abort, "room");
    }
    links
}

/// What came to these peers.
fn read_all(rt: &impl Abort, alloc: Global, links: &mut [TcpLink<TcpStream>]) -> Vec<Vec<u8>> {
    let mut written = Vec::new(alloc);
    for link in links {
        written.push(read_whole(rt, alloc, link)).expect(rt, "room");
    }
    written
}

/// What came to the peers of both accounts once all workers of a bank have served them.
fn served_to_both<R: Abort + Threads + Wait + Sync>(
    rt: &HostRuntime,
    threads: &R,
    copies: &Copies,
) -> (Vec<Vec<u8>>, Vec<Vec<u8>>) {
    let alloc = rt.alloc();
    let limit = Duration::from_secs(10);
    let listener = listen(rt, 0).expect(threads, "a listener");
    let address = listener.local_addr().expect(threads, "its address");
    let mut checking = peers_of(rt, threads, address, limit, CHECKING);
    let mut savings = peers_of(rt, threads, address, limit, SAVINGS);
    let mut workers = Vec::new(alloc);
    for _ in 0..2 * PEERS {
        let listens = listener.try_clone().expect(threads, "a listener");
        let worker = (TcpDoor::at(*rt, listens, limit), at_noon(threads, alloc));
        workers.push(worker).expect(threads, "room");
    }
    let keeper = CopyKeeper::over(alloc, MemKeeper::new(alloc), copies);
    let opened = opened_from(threads, alloc, keeper);
    let all = all_served(threads, alloc, opened, workers, &OpenGate, 1);
    same(threads, all.status, Status(0));
    drop(all);
    (
        read_all(threads, alloc, &mut checking),
        read_all(threads, alloc, &mut savings),
    )
}

/// What a bank that opens from these records replies to polls for both accounts and to the sample's request.
fn replies_of_opened<R: Abort + Wait>(rt: &R, alloc: Global, records: &[Vec<u8>]) -> MemLink {
    let mut bytes = poll_of(rt, alloc, "1.1", CHECKING);
    put(rt, &mut bytes, &poll_of(rt, alloc, "1.1", SAVINGS));
    put(rt, &mut bytes, &sample_times(rt, alloc, 1));
    let mut link = link_of(rt, alloc, &bytes);
    let opened = opened_from(rt, alloc, kept_again(rt, alloc, records));
    same(
        rt,
        connected::<Brand, R>(rt, alloc, opened, &mut link),
        Served::End(3),
    );
    link
}

/// Each token is that of a transfer of its account, and none is older than what its peer was answered before it. There are as many
/// records as transfers were sent, and a bank that opens from them has each of these.
#[test]
fn four_workers_commit_and_poll_at_once(rt: HostRuntime) {
    let alloc = rt.alloc();
    let copies = Copies::new(Vec::new(alloc));
    let (checking, savings) = served_to_both(&rt, &rt, &copies);
    let records = copies.into_inner();
    let paid = judged(&rt, alloc, &checking);
    let paid_back = judged(&rt, alloc, &savings);
    same(&rt, records.len() as u64, 2 * PEERS * TRANSFERS);
    same(&rt, paid.len() as u64, PEERS * TRANSFERS);
    same(&rt, paid_back.len() as u64, PEERS * TRANSFERS);
    let link = replies_of_opened(&rt, alloc, &records);
    let written = str::from_utf8(link.held()).expect(&rt, "a text");
    let tokens = numbers_in(&rt, alloc, &replies_in(&rt, alloc, written), "<TOKEN>");
    same(&rt, tokens.len(), 2);
    assert!(rt; tokens.contains(&(records.len() as u64)) && written.contains(BALANCE));
}
