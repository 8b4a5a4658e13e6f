//! Links over sockets of the machine itself.

use crate::same::same;
use ofx_ports::{Doorway, Failed, Link, TcpDoor, TcpLink, connect, listen};
use std::net::{Shutdown, TcpStream};
use std::time::Duration;

#[test]
fn bytes_go_over_a_socket_and_a_silent_peer_is_a_fault(rt: HostRuntime) {
    let limit = Duration::from_millis(20);
    let listener = listen(&rt, 0).expect(&rt, "a listener");
    let port = listener.local_addr().expect(&rt, "an address").port();
    let mut door = TcpDoor::at(rt, listener, limit);
    let mut peer = connect(&rt, port, limit);
    let Ok(Some(mut link)) = door.accept() else {
        panic!(rt; "a link");
    };
    same(&rt, peer.write(b"hello"), Ok(5));
    let mut into = [0u8; 8];
    same(&rt, link.read(&mut into), Ok(5));
    assert!(rt; into.starts_with(b"hello"));
    same(&rt, link.read(&mut into), Err(Failed));
    drop(peer);
    same(&rt, link.read(&mut into), Ok(0));
    door.ended(link);
}

#[test]
fn a_peer_that_cannot_be_reached_fails_at_each_call(rt: HostRuntime) {
    let listener = listen(&rt, 0).expect(&rt, "a listener");
    let port = listener.local_addr().expect(&rt, "an address").port();
    drop(listener);
    let mut link = connect(&rt, port, Duration::from_millis(20));
    let mut into = [0u8; 8];
    same(&rt, link.read(&mut into), Err(Failed));
    same(&rt, link.write(b"hello"), Err(Failed));
}

// Were the link closed while bytes are unread, its peer would meet a reset after the reply.
#[test]
fn a_peer_whose_bytes_were_not_read_gets_the_reply_and_the_end(rt: HostRuntime) {
    let limit = Duration::from_secs(10);
    let listener = listen(&rt, 0).expect(&rt, "a listener");
    let address = listener.local_addr().expect(&rt, "an address");
    let stream = TcpStream::connect(&rt, address).expect(&rt, "a stream");
    let mut door = TcpDoor::at(rt, listener, limit);
    let sending = stream.try_clone().expect(&rt, "a second handle");
    let mut peer = TcpLink::over(Ok(stream), limit);
    let sent = peer.write(&[b'a'; 20_000]).expect(&rt, "a write");
    assert!(rt; sent > 8);
    sending.shutdown(Shutdown::Write).expect(&rt, "an end");
    let Ok(Some(mut link)) = door.accept() else {
        panic!(rt; "a link");
    };
    let mut into = [0u8; 8];
    same(&rt, link.read(&mut into), Ok(8));
    same(&rt, link.write(b"reply"), Ok(5));
    door.ended(link);
    same(&rt, peer.read(&mut into), Ok(5));
    assert!(rt; into.starts_with(b"reply"));
    same(&rt, peer.read(&mut into), Ok(0));
}
