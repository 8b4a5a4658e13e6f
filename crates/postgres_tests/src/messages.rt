//! Messages: those of a server read, at every length that has come, and refused; and a client's written.

use postgres_messages::{
    BackendMessage, FrontendMessage, Reading, WriteFault, put_message, read_message,
};
use std::process::Abort;

/// What a server of version 15 sends: a sign-on, a statement that was prepared, a row, an append that was done, a failure, and
/// a notice.
const WHOLE: &[&[u8]] = &[
    b"R\0\0\0\x17\0\0\0\x0aSCRAM-SHA-256\0\0",
    b"R\0\0\0\x0c\0\0\0\x0br=ab",
    b"R\0\0\0\x0c\0\0\0\x0cv=ab",
    b"R\0\0\0\x08\0\0\0\0",
    b"S\0\0\0\x17in_hot_standby\0off\0",
    b"K\0\0\0\x0c\0\0\x12\x34\x56\x78\x9a\xbc",
    b"Z\0\0\0\x05I",
    b"1\0\0\0\x04",
    b"2\0\0\0\x04",
    b"D\0\0\0\x16\0\x02\0\0\0\x08\0\0\0\0\0\0\0\x07\xff\xff\xff\xff",
    b"C\0\0\0\x0fINSERT 0 2\0",
    b"E\0\0\0\x1bSFEHLER\0VERROR\0C23505\0\0",
    b"N\0\0\0\x1eSWARNING\0VWARNING\0C01000\0\0",
];

/// Bytes that are no message, and where that shows.
const REFUSED: &[(&[u8], usize)] = &[
    (b"T", 0),
    (b"Z\0\0\0\x03", 1),
    (b"D\x04\0\0\x01", 1),
    (b"Z\0\0\0\x05T", 5),
    (b"R\0\0\0\x08\0\0\0\x03", 5),
    (b"1\0\0\0\x05x", 5),
    (b"C\0\0\0\x08ab\0x", 8),
    (b"C\0\0\0\x06ab", 5),
    (b"D\0\0\0\x0c\0\x01\0\0\0\x05ab", 7),
    (b"E\0\0\0\x09VERR\0", 10),
];

#[test]
fn messages_are_read_once_they_are_whole(rt: HostRuntime) {
    for bytes in WHOLE {
        for count in 0..bytes.len() {
            assert!(&rt; matches!(read_message(&bytes[..count]), Reading::Cut));
        }
        match read_message(bytes) {
            Reading::Whole(_, size) => assert!(&rt; size == bytes.len()),
            _ => assert!(&rt; false, "a whole message isn't read"),
        }
    }
}

#[test]
fn other_bytes_are_refused_at_their_place(rt: HostRuntime) {
    for (bytes, place) in REFUSED {
        match read_message(bytes) {
            Reading::Refused(found) => assert_eq!(&rt; found, *place),
            _ => assert!(&rt; false, "bytes that are no message are taken"),
        }
    }
}

fn same(rt: &impl Abort, found: Option<&[u8]>, wanted: Option<&[u8]>) {
    assert_eq!(rt; found, wanted);
}

#[test]
fn rows_and_reports_are_taken_apart(rt: HostRuntime) {
    if let Reading::Whole(BackendMessage::Row(row), _) = read_message(WHOLE[9]) {
        let (number, row) = row.split_first().expect(&rt, "a value");
        same(&rt, number, Some(b"\0\0\0\0\0\0\0\x07"));
        let (bytes, row) = row.split_first().expect(&rt, "an absent value");
        same(&rt, bytes, None);
        assert!(&rt; row.split_first().is_none());
    }
    if let Reading::Whole(BackendMessage::Failed(report), _) = read_message(WHOLE[11]) {
        same(&rt, report.field(b'V'), Some(b"ERROR"));
        same(&rt, report.field(b'C'), Some(b"23505"));
        same(&rt, report.field(b'M'), None);
    }
    if let Reading::Whole(BackendMessage::Methods(names), _) = read_message(WHOLE[0]) {
        assert!(&rt; names.contains(b"SCRAM-SHA-256") && !names.contains(b"SCRAM-SHA-256-PLUS"));
    }
}

/// What a client sends, by the form of the protocol.
const WRITTEN: &[(FrontendMessage<'static>, &[u8])] = &[
    (
        FrontendMessage::Startup {
            user: b"u",
            database: b"d",
        },
        b"\0\0\0\x92\0\x03\0\0user\0u\0database\0d\0application_name\0ofxbank\0default_transaction_isolation\0read committed\0client_min_messages\0notice\0synchronous_commit\0on\0\0",
    ),
    (
        FrontendMessage::SignOn(b"n,,n=,r=a"),
        b"p\0\0\0\x1fSCRAM-SHA-256\0\0\0\0\x09n,,n=,r=a",
    ),
    (FrontendMessage::Reply(b"c=biws"), b"p\0\0\0\x0ac=biws"),
    (
        FrontendMessage::Parse {
            name: b"take",
            sql: b"SELECT $1",
            types: &[23],
        },
        b"P\0\0\0\x19take\0SELECT $1\0\0\x01\0\0\0\x17",
    ),
    (
        FrontendMessage::Bind {
            name: b"take",
            values: &[b"\0\0\0\x01"],
        },
        b"B\0\0\0\x1c\0take\0\0\x01\0\x01\0\x01\0\0\0\x04\0\0\0\x01\0\x01\0\x01",
    ),
    (FrontendMessage::Execute, b"E\0\0\0\x09\0\0\0\0\0"),
    (FrontendMessage::Sync, b"S\0\0\0\x04"),
    (FrontendMessage::Terminate, b"X\0\0\0\x04"),
];

#[test]
fn messages_are_written_in_their_form(rt: HostRuntime) {
    for (message, wanted) in WRITTEN {
        let mut bytes = Vec::new(rt.alloc());
        put_message(rt.alloc(), *message, &mut bytes).expect(&rt, "a message");
        assert_eq!(&rt; bytes.as_slice(), *wanted);
    }
}

#[test]
fn texts_with_a_zero_byte_are_not_written(rt: HostRuntime) {
    let mut bytes = Vec::new(rt.alloc());
    let startup = FrontendMessage::Startup {
        user: b"u\0synchronous_commit\0off",
        database: b"d",
    };
    assert!(&rt; put_message(rt.alloc(), startup, &mut bytes) == Err(WriteFault::Unwritable));
}
