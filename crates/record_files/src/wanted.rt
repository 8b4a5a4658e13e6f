//! What a line of a setup has to be.

use crate::beside::MAX_BYTES;

/// What a line has to be that is at this number, from 1, and has no form there. It isn't shown, since it may have a
/// password.
pub fn wanted_in(setup: &[u8], number: u64) -> &'static str {
    if has_no_end(setup, number) {
        return "it is the last line, and has no end: put a line feed after it";
    }
    match number {
        1 => "it has to be OFXBANK 1",
        2 => "it has to be BANK and the bank's number, a word of 1 to 32 bytes without &, < and >",
        3 => "it has to be LEAD and a number from 0 to 30",
        4 => "it has to be WINDOW and a number from 1 to 10000",
        5 => "it has to be ENTRIES and a number from 1 to 9999999999",
        _ => wanted_of(line_at(setup, number)),
    }
}

/// Whether the line of this number, from 1, is the last one, and no LF ends it.
fn has_no_end(setup: &[u8], number: u64) -> bool {
    if setup.len() as u64 > MAX_BYTES || matches!(setup.last(), None | Some(b'\n')) {
        return false;
    }
    let before = setup.iter().filter(|byte| **byte == b'\n').count() as u64;
    number == before.saturating_add(1)
}

/// What a line of users and accounts has to be, by its first word. None is one that is missing.
fn wanted_of(line: Option<&[u8]>) -> &'static str {
    match line {
        None | Some([]) =>
            "a line is missing: there has to be a line USER at least, and then a line ACCT at least",
        Some([b'U', b'S', b'E', b'R', ..]) => {
            "it has to be USER, a name and a password, each of 1 to 32 bytes without &, < and >, parted by one blank; \
             before the lines ACCT; no other line may have the name; 1000 users at most"
        }
        Some([b'A', b'C', b'C', b'T', ..]) => {
            "it has to be ACCT, a number, CHECKING, SAVINGS, MONEYMRKT or CREDITLINE, the opening in cents, and the names \
             of its owners, each of a line USER and once, parted by one blank; no other line may have the number and the \
             kind; 1000 accounts at most; all openings together are 9999999999999 at most, and WINDOW times the objects, \
             3 an account and 1 a user, 1000000 at most"
        }
        Some(_) => "it has to be a line USER or ACCT; the setup has 262144 bytes at most",
    }
}

/// The bytes of the line of this number, from 1. None where the bytes end before it.
fn line_at(bytes: &[u8], number: u64) -> Option<&[u8]> {
    let mut before = number;
    for line in bytes.split(|byte| *byte == b'\n') {
        if before <= 1 {
            return Some(line);
        }
        before -= 1;
    }
    None
}
