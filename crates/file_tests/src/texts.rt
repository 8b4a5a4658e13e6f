//! Texts and uids at their edges, and their copies.

use crate::same::same;
use ofx_types::{Duplicate, FileUid, Text, TextFault, TrnUid};
use std::alloc::Global;
use std::process::Abort;

fn text(rt: &impl Abort, alloc: Global, bytes: &[u8]) -> Text {
    Text::new(alloc, bytes, 32).expect(rt, "a text")
}

/// The copy outlives its text.
#[test]
fn texts_are_trimmed(rt: HostRuntime) {
    for (bytes, wanted) in [
        (b" \t\r\nal ice\n ".as_slice(), b"al ice".as_slice()),
        (b" \r\n".as_slice(), b"".as_slice()),
    ] {
        let copy = text(&rt, rt.alloc(), bytes).copy().expect(&rt, "a copy");
        same(&rt, copy.as_bytes(), wanted);
        assert!(rt; copy == text(&rt, rt.alloc(), wanted));
    }
}

/// Bytes, the most that a text may have, and its fault. Length comes first.
const NO_TEXTS: &[(&[u8], u32, TextFault)] = &[
    (b"four5", 4, TextFault::TooLong(5)),
    (b" a\x01bcd ", 3, TextFault::TooLong(5)),
    (b" a\x01b", 3, TextFault::BadByte(1)),
    (b"\0", 3, TextFault::BadByte(0)),
];

#[test]
fn texts_have_a_limit_and_no_control_bytes(rt: HostRuntime) {
    for (bytes, most, fault) in NO_TEXTS.iter() {
        assert!(rt; Text::new(rt.alloc(), bytes, *most).err() == Some(*fault));
    }
}

/// The letters and digits, which are 36 bytes.
const LONGEST: &[u8] = b"abcdefghijklmnopqrstuvwxyz0123456789";

/// Bytes, and the faults of a TRNUID and of a file's uid.
const UIDS: &[(&[u8], Option<TextFault>, Option<TextFault>)] = &[
    (LONGEST, None, None),
    (
        b"abcdefghijklmnopqrstuvwxyz0123456789+",
        Some(TextFault::TooLong(37)),
        Some(TextFault::TooLong(37)),
    ),
    (b" ", Some(TextFault::Empty), Some(TextFault::Empty)),
    (b" NONE ", None, Some(TextFault::Empty)),
    (b"none", None, None),
    (b"a\tb", None, Some(TextFault::BadByte(1))),
];

#[test]
fn uids_have_1_to_36_bytes(rt: HostRuntime) {
    for (bytes, of_transaction, of_file) in UIDS.iter() {
        assert!(rt; TrnUid::new(bytes).err() == *of_transaction);
        assert!(rt; FileUid::new(bytes).err() == *of_file);
    }
    let own = TrnUid::new(LONGEST).expect(&rt, "36 bytes");
    same(&rt, own.copy().expect(&rt, "a copy").as_bytes(), LONGEST);
    let file = FileUid::new(b" none\t").expect(&rt, "small letters");
    same(
        &rt,
        file.copy().expect(&rt, "a copy").as_bytes(),
        b"none".as_slice(),
    );
}
