//! The register by its own calls.

use file_register::{Register, RegisterFault};
use ofx_types::{AcctKind, AcctName, Cents, Text};
use std::alloc::Global;
use std::process::Abort;

/// The saved text of two lines of 1001 CHECKING: the FITIDs 1 and 2 with -1.00 and -2.00.
pub const SAVED: [u8; 89] = [
    1, 0, 0, 0, 2, 0, 9, 49, 50, 49, 48, 57, 57, 57, 57, 57, 0, 4, 49, 48, 48, 49, 0, 0, 0, 0, 0,
    0, 0, 0, 1, 0, 0, 0, 0, 101, 186, 54, 124, 255, 255, 255, 255, 255, 255, 255, 156, 0, 9, 49,
    50, 49, 48, 57, 57, 57, 57, 57, 0, 4, 49, 48, 48, 49, 0, 0, 0, 0, 0, 0, 0, 0, 2, 0, 0, 0, 0,
    101, 186, 54, 184, 255, 255, 255, 255, 255, 255, 255, 56,
];

/// The register of a text.
pub fn loaded(rt: &impl Abort, alloc: Global, text: &[u8]) -> Register {
    Register::load_text(alloc, text).expect(rt, "a register")
}

/// An account of the sample's bank.
pub fn account(rt: &impl Abort, alloc: Global, number: &[u8]) -> AcctName {
    AcctName {
        bank: Text::new(alloc, b"121099999", 32).expect(rt, "a text"),
        number: Text::new(alloc, number, 32).expect(rt, "a text"),
        kind: AcctKind::Checking,
    }
}

#[test]
fn a_saved_register(rt: HostRuntime) {
    let alloc = rt.alloc();
    let register = loaded(&rt, alloc, &SAVED);
    assert_eq!(rt; register.lines().len(), 2);
    assert_eq!(rt; register.sum(&account(&rt, alloc, b"1001")), Cents(-300));
    assert_eq!(rt; register.sum(&account(&rt, alloc, b"1002")), Cents(0));
    let text = register.save_text().expect(&rt, "a text");
    assert_eq!(rt; text.as_slice(), SAVED.as_slice());
}

#[test]
fn a_new_register(rt: HostRuntime) {
    let alloc = rt.alloc();
    assert_eq!(rt; Register::new(alloc).lines().len(), 0);
    assert_eq!(rt; loaded(&rt, alloc, b"").lines().len(), 0);
}

#[test]
fn texts_that_are_cut(rt: HostRuntime) {
    let alloc = rt.alloc();
    for size in 1..SAVED.len() {
        assert!(rt;
            Register::load_text(alloc, &SAVED[..size]).is_err(),
            "{size}"
        );
    }
}

#[test]
fn a_line_twice(rt: HostRuntime) {
    let alloc = rt.alloc();
    let mut text = SAVED;
    text[72] = 1;
    match Register::load_text(alloc, &text) {
        Ok(_) => assert!(rt; false, "read"),
        Err(fault) => assert_eq!(rt; fault, RegisterFault::Bad(47)),
    }
}
