//! A run over a store: how it is held, and what is reported of its end.

use crate::messages::{LinkEnd, Place, RefusedStore, plain, report, report_more, report_usage};
use crate::parties::{HeldStore, link_for};
use client_adapters::{BankLink, LockFault};
use client_arguments::Order;
use client_run::{order_told, waiting_told};
use ofx_ports::{MemStore, StoreKeeper, SystemClock, WriterSink};
use ofx_types::Told;
use std::{io, str};

/// Runs an order over the store of that name, whose text is in a file, or with `-` in memory. Reports how it ended, and answers
/// that.
pub fn run(rt: HostRuntime, store: &str, order: &Order) -> Told {
    if store == "-" {
        let mut text = MemStore::new(rt.alloc());
        return run_over(rt, store, order, &mut text).0;
    }
    match HeldStore::of(rt, store, order) {
        Ok(mut held) => {
            let (end, is_waiting) = run_over(rt, store, order, &mut held.text);
            if is_waiting {
                report_waiting(&rt, order, &mut held.text);
            }
            end
        }
        Err(fault) => unlocked(&rt, store, fault),
    }
}

/// The end of a run over a store, a link to the bank and the standard output, after it is reported; and whether a file may wait.
fn run_over<S: StoreKeeper>(
    rt: HostRuntime,
    name: &str,
    order: &Order,
    store: &mut S,
) -> (Told, bool) {
    let mut link = link_for(rt, order);
    let mut clock = SystemClock::new(rt);
    let mut out = WriterSink::new(io::writer(&rt));
    let end = order_told(rt.alloc(), order, &mut link, store, &mut clock, &mut out);
    report(&rt, end);
    if end.status.0 == 2 {
        report_usage(&rt, &RefusedStore(name));
    }
    let place = Place {
        port: order.port,
        store: name,
        link: end_of(&link),
    };
    report_more(&rt, end, &place);
    (end, is_cut_short(end, &link))
}

/// How a link fared.
fn end_of(link: &BankLink) -> LinkEnd {
    if !link.has_write_faults() {
        LinkEnd::Written
    } else if link.is_connected() {
        LinkEnd::Broken
    } else {
        LinkEnd::Unanswered
    }
}

/// Whether a run ended so that a file may wait: no reply came, or one that wasn't accepted.
fn is_cut_short(end: Told, link: &BankLink) -> bool {
    match end.status.0 {
        5 | 11 | 12 | 13 | 14 | 16 | 17 => true,
        6 => link.has_write_faults(),
        _ => false,
    }
}

/// Says what waits in a store, a line for each deed.
fn report_waiting<S: StoreKeeper>(rt: &HostRuntime, order: &Order, store: &mut S) {
    if let Ok(lines) = waiting_told(rt.alloc(), order, store) {
        match str::from_utf8(lines.as_slice()) {
            Ok(text) => {
                let _ = rt.eprint(text);
            }
            Err(_) => {
                let _ = rt.eprintln("a file waits and is made by the next run: run sync");
            }
        }
    }
}

/// The end of a run that didn't get its store, after it is reported.
fn unlocked(rt: &HostRuntime, store: &str, fault: LockFault) -> Told {
    let end = match fault {
        LockFault::OutOfMemory => plain(7),
        LockFault::Held | LockFault::Failed => plain(8),
    };
    report(rt, end);
    let _ = report_lock(rt, store, fault);
    end
}

/// Says on a second line why there is no lock.
fn report_lock(rt: &impl Eprint, store: &str, fault: LockFault) -> io::Result<()> {
    match fault {
        LockFault::Held => eprintln!(rt;
            "another run has {store}: run again when it has ended, for nothing was done"
        ),
        LockFault::Failed => eprintln!(rt;
            "{store}.lock can't be made or locked: see that it is a file of yours, in a folder of yours"
        ),
        LockFault::OutOfMemory => Ok(()),
    }
}
