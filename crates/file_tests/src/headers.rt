//! Headers, written and read, and the offsets of faults.

use crate::same::same;
use ofx_header::{Header, HeaderFault, read_header, write_header};
use ofx_types::FileUid;
use std::alloc::Global;
use std::process::Abort;

/// Six lines without a fault, of 89 bytes.
const SIX_LINES: &[u8; 89] = b"\
    OFXHEADER:100\r\n\
    DATA:OFXSGML\r\n\
    VERSION:160\r\n\
    SECURITY:NONE\r\n\
    ENCODING:USASCII\r\n\
    CHARSET:1252\r\n";

fn uid_of(uid: &Option<FileUid>) -> &[u8] {
    match uid {
        Some(uid) => uid.as_bytes(),
        None => b"",
    }
}

fn after_six(rt: &impl Abort, alloc: Global, lines: &[u8]) -> Vec<u8> {
    let mut bytes = Vec::from_slice(alloc, SIX_LINES).expect(rt, "room");
    bytes.extend_from_slice(lines).expect(rt, "room");
    bytes
}

#[test]
fn a_header_is_written(rt: HostRuntime) {
    let uid = FileUid::new(b"F81D4FAE-7DEC-11D0-A765-00A0C91E6BF6");
    let header = Header {
        version: 160,
        older: None,
        newer: Some(uid.expect(&rt, "a uid")),
    };
    let mut written = Vec::new(rt.alloc());
    write_header(&header, &mut written).expect(&rt, "room");
    let tail = b"\
        COMPRESSION:NONE\r\n\
        OLDFILEUID:NONE\r\n\
        NEWFILEUID:F81D4FAE-7DEC-11D0-A765-00A0C91E6BF6\r\n\
        \r\n";
    same(
        &rt,
        written.as_slice(),
        after_six(&rt, rt.alloc(), tail).as_slice(),
    );
}

#[test]
fn a_header_is_read(rt: HostRuntime) {
    let bytes = b"\
        OFXHEADER: 100 \n\
        DATA:OFXSGML\r\r\n\
        VERSION:\t102\n\
        SECURITY:NONE\n\
        ENCODING:USASCII\n\
        CHARSET:ISO-8859-1\n\
        COMPRESSION:NONE\n\
        OLDFILEUID: a:<b> &\x7f\t\r\n\
        NEWFILEUID:NONE\n\
        <OFX>";
    let (header, size) = read_header(bytes).expect(&rt, "a header");
    same(&rt, header.version, 102);
    same(&rt, uid_of(&header.older), b"a:<b> &\x7f".as_slice());
    assert!(rt; header.newer.is_none());
    same(&rt, size, bytes.len() - 5);
}

/// Headers and their first fault.
const FAULTS: &[(&[u8], HeaderFault)] = &[
    (b"", HeaderFault::Cut(0)),
    (b"X", HeaderFault::Cut(1)),
    (b"X\n", HeaderFault::Line(1, 0)),
    (b"OFXHEADER:100\r", HeaderFault::Cut(14)),
    (b"OFXHEADER:200\nDATA", HeaderFault::Value(1, 0)),
    (b"OFXHEADER:100\n DATA:OFXSGML\n", HeaderFault::Line(2, 14)),
    (b"OFXHEADER:100\nDATA :OFXSGML\n", HeaderFault::Line(2, 14)),
    (
        b"OFXHEADER:100\nDATA:OFXSGML\nVERSION:0160\n",
        HeaderFault::Value(3, 27),
    ),
];

/// Lines after the first six, and the first fault.
const LATER_FAULTS: &[(&[u8], HeaderFault)] = &[
    (b"COMPRESSION:none\n", HeaderFault::Value(7, 89)),
    (
        b"COMPRESSION:NONE\nOLDFILEUID:\n",
        HeaderFault::Value(8, 106),
    ),
    (
        b"COMPRESSION:NONE\nOLDFILEUID:NONE\nNEWFILEUID:NONE",
        HeaderFault::Cut(137),
    ),
    (
        b"COMPRESSION:NONE\nOLDFILEUID:NONE\nNEWFILEUID:abcdefghijklmnopqrstuvwxyz0123456789+\n",
        HeaderFault::Value(9, 122),
    ),
];

#[test]
fn the_first_fault_is_answered(rt: HostRuntime) {
    for (bytes, fault) in FAULTS.iter() {
        assert!(rt; read_header(bytes).err() == Some(*fault));
    }
    for (lines, fault) in LATER_FAULTS.iter() {
        let bytes = after_six(&rt, rt.alloc(), lines);
        assert!(rt; read_header(bytes.as_slice()).err() == Some(*fault));
    }
}
