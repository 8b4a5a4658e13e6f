//! Records of events that another program made, and cut ones.

use crate::same::same;
use event_codec::{
    RecordFault, get_file_uid, get_flag, get_i32, put_file_uid, put_flag, put_i32, read_event,
    write_event,
};
use std::alloc::Global;
use std::process::Abort;

/// The posting of transfer 1 at noon of 31 January 2024; transfers and series with statements and tokens, mail of both kinds, and
/// deeds that cancel and change.
const RECORDS: &[&[u8]] = &[
    b"\x01\x02\0\0\0\0\x65\xba\x36\x40\0\0\0\0\0\0\0\x01",
    b"\x01\x01\0\0\0:\xff\xf1M\x01\0\0\0\0\0\xa0\0\x03f32\0\x03\x01\x02t1\0\x01r\0\x01a\x03\x01\x01\0\0\09\xf4\x10c\x81\0\x01\x03\x01\0\x01r\0\x01a\x03\0\0\x0223\0\0\x01\x03t15\x04\x01\0\x01\x02\0\x01r\0\x01a\x03\0\x01r\0\x01f\x01\0\0\0\0\0\0\0\x96\x01\0,\xc0\xa0\x02\x03t31\x01\0\x01r\0\x01a\x03\0\x01r\0\x01f\x01\0\0\0\0\0\0\0\x96\x01\0,\xc0\x9e",
    b"\x01\x01\0\0\0\0g\x90\xc4Y\0\0\0\0\0\xa0\0\0\0\x06\x01\x03t36\0\x06duwm]^\0\x039Cf\x02\x01\0\0\x01\x02\x03t37\x03\0\0\0\0\0\0\0\x0a\x01\x02t8\0\x05other\0\x039Cf\x01\x01\0\0\x01\x03\x02\0\x06duwm]^\0\x039Cf\x02\x01\0\0\0\x01\x03t38\0\x06duwm]^\0\x039Cf\x02\x01\0\x01\0\0\0\0g\x905\0\x01\x03\0\0\x05other\0\x039Cf\x02\0\0\x010\x01\0\0",
    b"\x01\x01\0\0\0\0d,\x19\xdd\0\0\0\0\0g\0\x03f36\0\x01\x03\x03\x02\0\0\x01\x03t50\x08\0\0\0\0d,\x0b\xcd\0\x0b<tag> <tag>\0\x04BANK\0\x0atwo\x0d\x0alines\0\x01S",
    b"\x01\x01\0\0\0\0e\xeap\\\0\0\0\0\0f\0\0\0\x06\x02\x03t61\x06\0\0\0\0\0\0\0\x87\x01\x02\x03t41\x01\0\x03eit\0\x04Ypam\0\0\x03eit\0\x07k5xjh54\x02\0\0\0\0\0\0\0\x01\0\x01\x03t62\0\x03eit\0\x04Ypam\0\0\x02\x03t63\x03\0\0\0\0\0\0\0k\x03\x02\0\x03eit\0\x07k5xjh54\x02\x01\0\0\x01\x03t63\x07\0\x03eit\0\x07k5xjh54\x02\0\0\0\0e\xbf\xf2\x8c\0\x12'\" &amp;amp; <tag>\0\x04BANK\0\x05x > y\0\x0ftwo\x0d\x0alines &lt;\x02\x03t64\x02\0\0\0\0\0\0\0i\0\x03eit\0\x05qY2bs\0\0\x03eit\0\x07k5xjh54\0\0\0\0\0\0\0\0d\x01\0\0MQ",
    b"\x01\x01\0\0\0:\xff\xbd\xd4q\0\0\0\0\0g\0\0\0\x01\x03\x01\0\x01r\0\x01a\x03\0\0\x0220\0\0\x01\x03t16\x05\0\0\0\0\0\0\0\x01\0\x05\0\x01r\0\x01a\x03\0\x01r\0\x01f\x01\0\0\0\0\0\0\x03\xe8\x01\0,\xc0x\x01",
];

/// What is read of a record, written again.
fn again(rt: &impl Abort, alloc: Global, rec: &[u8]) -> Result<Vec<u8>, RecordFault> {
    match read_event(alloc, rec) {
        Ok((event, at)) => Ok(write_event(alloc, &event, at).expect(rt, "a record")),
        Err(fault) => Err(fault),
    }
}

#[test]
fn records_are_read_and_written_again(rt: HostRuntime) {
    for rec in RECORDS {
        let written = again(&rt, rt.alloc(), rec).expect(&rt, "an event");
        same(&rt, written.as_slice(), *rec);
    }
}

/// Records and their faults: nothing, an unknown version, cut ones, an unknown kind, and a byte too many.
const FAULTS: &[(&[u8], RecordFault)] = &[
    (&[], RecordFault::Bad(0)),
    (&[2], RecordFault::Version(2)),
    (&[1], RecordFault::Bad(1)),
    (&[1, 2], RecordFault::Bad(2)),
    (&[1, 5], RecordFault::Bad(1)),
    (b"\x01\x02\0\0\0\0\x65\xba\x36\x40", RecordFault::Bad(10)),
    (
        b"\x01\x02\0\0\0\0\x65\xba\x36\x40\0\0\0\0\0\0\0",
        RecordFault::Bad(10),
    ),
    (
        b"\x01\x02\0\0\0\0\x65\xba\x36\x40\0\0\0\0\0\0\0\x01\0",
        RecordFault::Bad(18),
    ),
];

#[test]
fn faults_have_their_offsets(rt: HostRuntime) {
    for (rec, fault) in FAULTS {
        same(&rt, again(&rt, rt.alloc(), rec).err(), Some(*fault));
    }
    let text = RecordFault::Bad(10)
        .to_string(rt.alloc())
        .expect(&rt, "a text");
    same(&rt, text.as_str(), "the record has no form at byte 10");
}

#[test]
fn fields_follow_one_another(rt: HostRuntime) {
    let mut out = Vec::new(rt.alloc());
    put_i32(&-2, &mut out).expect(&rt, "room");
    put_flag(&true, &mut out).expect(&rt, "room");
    put_file_uid(&None, &mut out).expect(&rt, "room");
    same(
        &rt,
        out.as_slice(),
        [0xff, 0xff, 0xff, 0xfe, 1, 0].as_slice(),
    );
    let (number, next) = get_i32(out.as_slice(), 0).expect(&rt, "a number");
    let (flag, next) = get_flag(out.as_slice(), next).expect(&rt, "a flag");
    let (uid, end) = get_file_uid(out.as_slice(), next).expect(&rt, "a uid");
    assert!(rt; number == -2 && flag && uid.is_none() && end == 6);
}
