//! Tapes: a body's nodes, the fault of each kind at its offset, and values.

use crate::same::same;
use ofx_tape::{Node, SHORT_VALUE, Tape, TapeFault, short_value, value_eq, value_into};
use ofx_types::TextFault;
use std::process::Abort;

const BODY: &[u8] =
    b"\r\n<OFX>\r\n<SONRQ>\r\n<USERID>alice\r\n<X.Y>1</X.Y>\r\n</SONRQ>\r\n</OFX>\r\n";

fn assert_node(rt: &impl Abort, node: &Node, element: bool, name: &[u8], value: &[u8]) {
    same(rt, node.element, element);
    same(rt, node.name, name);
    same(rt, node.value, value);
}

fn assert_span(rt: &impl Abort, node: &Node, at: usize, after: usize) {
    same(rt, node.at, at);
    same(rt, node.after, after);
}

#[test]
fn nodes_of_a_body(rt: HostRuntime) {
    let tape = Tape::read(rt.alloc(), BODY).expect(&rt, "a tape");
    let [ofx, sonrq, userid, unknown] = tape.nodes() else {
        panic!(rt; "four start tags");
    };
    assert_node(&rt, ofx, false, b"OFX", b"\r\n");
    assert_span(&rt, ofx, 2, 4);
    assert_node(&rt, sonrq, false, b"SONRQ", b"\r\n");
    assert_span(&rt, sonrq, 9, 4);
    assert_node(&rt, userid, true, b"USERID", b"alice\r\n");
    assert_span(&rt, userid, 18, 3);
    assert_node(&rt, unknown, true, b"X.Y", b"1");
    assert_span(&rt, unknown, 33, 4);
}

/// Bodies and their leftmost fault. A name has at most 32 bytes, and at most 16 aggregates are open.
const FAULTS: &[(&[u8], TapeFault)] = &[
    (b" \r\n", TapeFault::Cut(3)),
    (b" x<OFX></OFX>", TapeFault::Tag(1)),
    (b"<FI></FI>", TapeFault::Tag(0)),
    (b"<OFX></FI></OFX>", TapeFault::Mismatch(5)),
    (b"<OFX></OFX></OFX>", TapeFault::Mismatch(11)),
    (b"<OFX></OFX><OFX>", TapeFault::Tag(11)),
    (b"<OFX></OFX><A", TapeFault::Cut(13)),
    (b"<OFX><USERID>a</OF", TapeFault::Cut(18)),
    (b"<OFX><FI>\x01</FI></OFX>", TapeFault::Tag(9)),
    (b"<OFX><USERID>a\x01</OFX>", TapeFault::Tag(14)),
    (b"<OFX><MEMO>a</MEMO>b</OFX>", TapeFault::Tag(19)),
    (b"<OFX><MEMO>a</MEMO></MEMO></OFX>", TapeFault::Mismatch(19)),
    (b"<OFX><A B></OFX>", TapeFault::Tag(5)),
    (
        b"<OFX><ABCDEFGHIJKLMNOPQRSTUVWXYZ012345",
        TapeFault::Cut(38),
    ),
    (
        b"<OFX><ABCDEFGHIJKLMNOPQRSTUVWXYZ0123456",
        TapeFault::Tag(5),
    ),
    (
        b"<OFX><A><A><A><A><A><A><A><A><A><A><A><A><A><A><A><A></A>",
        TapeFault::Depth(50),
    ),
];

#[test]
fn each_fault_has_its_offset(rt: HostRuntime) {
    for (body, fault) in FAULTS.iter() {
        assert!(rt; Tape::read(rt.alloc(), body).err() == Some(*fault));
    }
}

#[test]
fn values_are_trimmed_and_decoded_once(rt: HostRuntime) {
    assert!(rt; value_eq(b"\r\n &amp;lt;&lt;&AMP;\t", b"&lt;<&AMP;"));
    assert!(rt; !value_eq(b"a", b"ab"));
    let text = value_into(rt.alloc(), b" a&gt;b\r\n", 3).expect(&rt, "three bytes");
    same(&rt, text.as_bytes(), b"a>b".as_slice());
    assert!(rt; value_into(rt.alloc(), b"a&gt;b", 2).err() == Some(TextFault::TooLong(3)));
    assert!(rt; value_into(rt.alloc(), b"&gt;\x02", 9).err() == Some(TextFault::BadByte(1)));
}

#[test]
fn short_values_have_64_bytes(rt: HostRuntime) {
    let mut room = [0; SHORT_VALUE];
    assert!(rt; short_value(b" 20240131\r\n", &mut room) == Some(b"20240131".as_slice()));
    assert!(rt;
        short_value(b"\t[-5:a&lt;&amp;gt;b] ", &mut room) == Some(b"[-5:a<&gt;b]".as_slice())
    );
    let mut raw = Vec::new(rt.alloc());
    for _ in 0..32 {
        raw.extend_from_slice(b"a&gt;").expect(&rt, "room");
    }
    let value = short_value(raw.as_slice(), &mut room).expect(&rt, "64 bytes");
    same(&rt, value.len(), 64);
    raw.push(b'a').expect(&rt, "room");
    assert!(rt; short_value(raw.as_slice(), &mut room).is_none());
    assert!(rt; short_value(&[b'a'; 65], &mut room).is_none());
}
