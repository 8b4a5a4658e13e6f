//! One connection: requests are read and answered one after another.

ghost use Rattle.std.specs.Prelude.{◌≡◌, ◌≤◌, OnOk, IfErr, vec_capacity};
ghost use Rattle.bank_connection.specs.Connection.{around, Converses};

use crate::exchange::{exchange, refuse};
use crate::office::Office;
use http_front::HEAD_ROOM;
use http_link::{Incoming, Next, ServeError, Served, next_request};
use ofx_ports::{Clock, Link};
use std::alloc::Global;

/// Serves a connection to its end: reads requests from the link, has the office answer their files at the moments that the
/// clock shows, and writes the replies. A connection has at most a hundred exchanges.
///
/// | Answer | Where |
/// |---|---|
/// | `End(n)` | the link ended after n exchanges |
/// | `Closed(n)` | the n-th reply said that the connection ends |
/// | `Cut(n)` | the link ended n bytes into a request |
/// | `ReadFault`, `WriteFault` | a read or a write of the link failed in this call |
/// | `OutOfMemory` | memory was refused between two exchanges |
///
/// ```rust
/// use bank_connection::Served;
/// use bank_model::Setup;
/// use bank_server::serve_connection;
/// use bank_shared::{Bank, Opened};
/// use ofx_file::OfxPrinter;
/// use ofx_ports::{MemClock, MemKeeper, MemLink, OpenGate};
/// use ofx_types::Moment;
/// use std::hash::RandomState;
/// use std::marker::Brand;
///
/// let alloc = rt.alloc();
/// let bytes = b"OFXBANK 1\nBANK 1\nLEAD 5\nWINDOW 3\nENTRIES 99\n\
///     USER alice secret\nACCT 1001 CHECKING 0 alice\n";
/// let setup = Setup::read(alloc, bytes).expect(&rt, "a setup");
/// let keys = RandomState::new(&rt).expect(&rt, "keys");
/// let Ok(opened) = Opened::open(alloc, keys, MemKeeper::new(alloc), setup, OfxPrinter) else {
///     panic!(rt; "a bank");
/// };
/// let (bank, mut pass) = Bank::<Brand, _, _>::begin(opened);
/// let mut clock = MemClock::new(alloc, &[Moment(1_706_702_400)]).expect(&rt, "a clock");
/// let mut link = MemLink::new(alloc, b"GET /ofx HTTP/1.1\r\n\r\n", 1024).expect(&rt, "a link");
/// // The method isn't POST, and the connection ends after the reply that says so.
/// // `serve_connection` serves it by `serve_link`, with the office of a caller of the bank.
/// let served = serve_connection(&bank, &rt, alloc, &mut pass, &mut link, &mut clock, &OpenGate);
/// assert!(rt; served == Ok(Served::Closed(1)) && link.held().starts_with(b"HTTP/1.1 405 "));
/// ```
pub fn serve_link<O: Office, L: Link, C: Clock>(
    alloc: Global,
    office: &mut O,
    link: &mut L,
    clock: &mut C,
) -> Result<Served, ServeError>
    requires ready { O.ready office.old }
    ensures converses { Converses (O.setup office.old)
        (around (L.left link.old) (L.read_faults link.old) (L.held link.old) (L.write_faults link.old) (C.shown clock.old) (O.knows office.old))
        (around (L.left link.new) (L.read_faults link.new) (L.held link.new) (L.write_faults link.new) (C.shown clock.new) (O.knows office.new))
        result }
    ensures reads { L.read_faults link.old ≤ L.read_faults link.new }
    ensures writes { L.write_faults link.old ≤ L.write_faults link.new }
    ensures setup { O.setup office.new ≡ O.setup office.old }
    ensures through { O.through office.new ≡ O.through office.old }
    ensures ready { O.ready office.new }
{
    // For the proof alone: its contract says that what the office knows is right.
    let _setup = office.setup();
    let mut room = Vec::new(alloc);
    let mut incoming = Incoming::new(alloc);
    let mut served = 0;
    loop {
        make_room(&mut room)?;
        match next_request(&mut incoming, link)? {
            Next::End => return Ok(Served::End(served)),
            Next::Refused(refusal, size) => {
                refuse(&mut incoming, &mut room, link, refusal, size)?;
                return Ok(Served::Closed(served + 1));
            }
            Next::Whole(head, size) => {
                let closes = exchange(
                    alloc,
                    office,
                    link,
                    clock,
                    &mut incoming,
                    &mut room,
                    head,
                    size,
                    served + 1,
                )?;
                served += 1;
                if closes {
                    return Ok(Served::Closed(served));
                }
            }
        }
    }
}

/// Makes room for the head of a reply, before its request is read.
fn make_room(room: &mut Vec<u8>) -> Result<(), ServeError>
    ensures room { OnOk result (512 ≤ vec_capacity room.new) }
    ensures refused { IfErr result (λ fault. fault ≡ ServeError.OutOfMemory) }
{
    room.clear();
    room.reserve(HEAD_ROOM)?;
    Ok(())
}
