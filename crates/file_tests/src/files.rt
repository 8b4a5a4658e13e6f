//! Files that another program wrote: what is read of each is written again.

ghost use Rattle.bank_model.specs.Sound.{IsSound};

mod replies;
mod requests;

use bank_model::Printer;
use ofx_file::laws::{sound_files_are_printable, spelled_replies_are_printable};
use ofx_file::{OfxPrinter, read_reply, read_request, write_reply, write_request};
use ofx_types::{Moment, OutOfMemory, RequestFile};
use std::alloc::Global;
use std::process::Abort;

/// Noon of 31 January 2024.
const NOON: Moment = Moment(1_706_702_400);

/// The text with CR LF at the end of each line.
fn with_line_ends(rt: &impl Abort, alloc: Global, text: &[u8]) -> Vec<u8> {
    let mut bytes = Vec::new(alloc);
    for byte in text {
        if *byte == b'\n' {
            bytes.push(b'\r').expect(rt, "room");
        }
        bytes.push(*byte).expect(rt, "room");
    }
    bytes
}

/// What is read of a request file, written at noon.
fn request_again(rt: &impl Abort, alloc: Global, bytes: &[u8]) -> Vec<u8> {
    if bytes.len() > 262_144 {
        panic!(rt; "too long for a bank");
    }
    let file = read_request(alloc, bytes).expect(rt, "a request");
    at_noon(alloc, &file).expect(rt, "a file")
}

fn at_noon(alloc: Global, file: &RequestFile) -> Result<Vec<u8>, OutOfMemory>
    requires { IsSound file.now }
{
    sound_files_are_printable();
    write_request(alloc, file, NOON)
}

/// What is read of a reply file, written and printed.
fn reply_again(rt: &impl Abort, alloc: Global, bytes: &[u8]) -> (Vec<u8>, Vec<u8>) {
    spelled_replies_are_printable();
    let reply = read_reply(alloc, bytes).expect(rt, "a reply");
    let written = write_reply(alloc, &reply).expect(rt, "a file");
    let printed = OfxPrinter.print(alloc, &reply).expect(rt, "a file");
    (written, printed)
}

#[test]
fn requests_are_written_as_they_were(rt: HostRuntime) {
    for text in [requests::ALONE, requests::SYNCHRONISATIONS] {
        let bytes = with_line_ends(&rt, rt.alloc(), text);
        let written = request_again(&rt, rt.alloc(), bytes.as_slice());
        assert!(rt; written.as_slice() == bytes.as_slice());
    }
}

#[test]
fn what_means_the_same_is_written_in_one_form(rt: HostRuntime) {
    let written = request_again(&rt, rt.alloc(), requests::LOOSE);
    let bytes = with_line_ends(&rt, rt.alloc(), requests::TIDY);
    assert!(rt; written.as_slice() == bytes.as_slice());
}

#[test]
fn replies_are_written_as_they_were(rt: HostRuntime) {
    for text in [
        replies::ALONE,
        replies::SYNCHRONISATIONS,
        replies::FAILED_SIGNON,
    ] {
        let bytes = with_line_ends(&rt, rt.alloc(), text);
        let (written, printed) = reply_again(&rt, rt.alloc(), bytes.as_slice());
        assert!(rt; written.as_slice() == bytes.as_slice());
        assert!(rt; printed.as_slice() == bytes.as_slice());
    }
}
