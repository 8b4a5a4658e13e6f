//! All workers over a socket of the machine itself.

use super::{all_served, opened_from};
use crate::connections::{at_noon, sample_reply};
use crate::same::same;
use crate::sample::{put, request_with};
use ofx_ports::{Link, MemKeeper, OpenGate, TcpDoor, TcpLink, listen};
use ofx_types::Status;
use std::alloc::Global;
use std::net::TcpStream;
use std::process::Abort;
use std::time::Duration;

/// The sample's request, which says that the connection ends after its reply.
fn last_request(rt: &impl Abort, alloc: Global) -> String {
    let request = request_with(rt, alloc, &[]);
    let (_, file) = request.split_once("\n").unwrap_or(("", ""));
    let text = format!(in alloc;
        "POST /ofx HTTP/1.1\r\nContent-Length: {}\r\nConnection: close\r\n\r\n{file}",
        file.len()
    );
    text.expect(rt, "a request")
}

/// Sends these bytes at once.
pub fn send<L: Link>(rt: &impl Abort, link: &mut L, bytes: &[u8]) {
    if !bytes.is_empty() {
        same(rt, link.write(bytes).expect(rt, "a write"), bytes.len());
    }
}

/// What comes of a link until its peer ends it.
pub fn read_whole<L: Link>(rt: &impl Abort, alloc: Global, link: &mut L) -> Vec<u8> {
    let mut bytes = Vec::new(alloc);
    let mut into = [0u8; 4_096];
    for _ in 0..1_000 {
        let count = link.read(&mut into).expect(rt, "a read");
        if count == 0 {
            break;
        }
        put(rt, &mut bytes, into.get(..count).unwrap_or(b""));
    }
    bytes
}

/// A peer sends its request before the worker takes it.
#[test]
fn a_worker_answers_a_peer_over_a_socket(rt: HostRuntime) {
    let alloc = rt.alloc();
    let limit = Duration::from_secs(10);
    let listener = listen(&rt, 0).expect(&rt, "a listener");
    let offset = listener.local_addr().expect(&rt, "its address");
    let mut peer = TcpLink::over(TcpStream::connect(&rt, offset), limit);
    let text = last_request(&rt, alloc);
    send(&rt, &mut peer, text.as_bytes());
    let mut workers = Vec::new(alloc);
    let worker = (TcpDoor::at(rt, listener, limit), at_noon(&rt, alloc));
    workers.push(worker).expect(&rt, "room");
    let opened = opened_from(&rt, alloc, MemKeeper::new(alloc));
    let all = all_served(&rt, alloc, opened, workers, &OpenGate, 1);
    same(&rt, all.status, Status(0));
    for worked in &all.ends {
        same(&rt, worked.end.served, 1);
    }
    drop(all);
    assert!(rt; read_whole(&rt, alloc, &mut peer) == sample_reply(&rt, alloc, "close"));
}
