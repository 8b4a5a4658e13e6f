//! Callers of a bank, who take turns at it.

ghost use Rattle.std.specs.Prelude.{◌≡◌};
ghost use Rattle.ofx_types.specs.Calendar.{IsMoment};
ghost use Rattle.bank_shared.specs.Holds.{IsPassOf};

use crate::sample::{failing, opened_over, report, request_with, text};
use crate::script::{advance_line, framed, reply_lines};
use bank_samples::changes::{DUE_LATER, NEXT_DAY, NOON, POLL};
use bank_samples::transfer::TRANSFER;
use bank_shared::{Bank, BankName, Opened, Pass};
use bank_signon::{Judgement, judge};
use ofx_file::OfxPrinter;
use ofx_ports::{MemKeeper, OpenGate};
use ofx_types::Moment;
use std::alloc::Global;
use std::marker::Brand;
use std::process::Abort;
use std::sync::Wait;

/// What a caller of the bank gets for a file in its frame.
pub fn asked<N: BankName, R: Abort + Wait>(
    rt: &R,
    alloc: Global,
    bank: &Bank<N, MemKeeper, OfxPrinter>,
    pass: &mut Pass,
    file: &str,
    at: Moment,
) -> String
    requires moment { IsMoment at.0 }
    requires pass { IsPassOf N.setup N.opening N.board pass.old }
    ensures { IsPassOf N.setup N.opening N.board pass.new }
{
    let (_, body) = file.split_once("\n").unwrap_or(("", ""));
    let bytes = body.as_bytes();
    if bytes.len() > 262_144 {
        return text(rt, alloc, "too long\n");
    }
    let judged = judge(alloc, bank.setup(), bytes).expect(rt, "a judgement");
    match &judged {
        Judgement::Event(user, file) => {
            let reply = bank.submit(rt, pass, *user, file, at, &OpenGate);
            reply_lines(rt, alloc, &reply)
        }
        Judgement::Poll(user, file) => {
            let reply = bank.poll(pass, *user, file, at).expect(rt, "a reply");
            framed(rt, alloc, &reply)
        }
        Judgement::Denied(_) | Judgement::Refused(_) => text(rt, alloc, "no file\n"),
    }
}

/// What a caller of the bank gets when due work is looked for.
pub fn advanced<N: BankName, R: Abort + Wait>(
    rt: &R,
    alloc: Global,
    bank: &Bank<N, MemKeeper, OfxPrinter>,
    pass: &mut Pass,
    at: Moment,
) -> String
    requires moment { IsMoment at.0 }
    requires pass { IsPassOf N.setup N.opening N.board pass.old }
    ensures { IsPassOf N.setup N.opening N.board pass.new }
{
    advance_line(rt, alloc, &bank.advance(rt, pass, at, &OpenGate))
}

/// What two callers of a bank of the sample's setup get by turns.
fn reported_by_turns<N: BankName, R: Abort + Wait>(
    rt: &R,
    alloc: Global,
    opened: Opened<MemKeeper, OfxPrinter>,
) -> String
    requires setup { opened.setup ≡ N.setup }
    requires opening { opened.state ≡ N.opening }
    requires first { opened.opened ≡ N.first }
    requires board { opened.board ≡ N.board }
    requires tables { opened.tables ≡ N.tables }
{
    let (bank, mut first) = Bank::<N, _, _>::begin(opened);
    let mut second = bank.door(&mut first);
    reported_to_both(rt, alloc, &bank, &mut first, &mut second)
}

/// What both callers get: for a transfer that is due on the next day, for a poll, for the work due on that day, for a poll again,
/// and for due work once more. Then a third one, that has seen what the second one has, polls.
fn reported_to_both<N: BankName, R: Abort + Wait>(
    rt: &R,
    alloc: Global,
    bank: &Bank<N, MemKeeper, OfxPrinter>,
    first: &mut Pass,
    second: &mut Pass,
) -> String
    requires { IsPassOf N.setup N.opening N.board first.old × IsPassOf N.setup N.opening N.board second.old }
{
    let waiting = request_with(rt, alloc, &[TRANSFER, DUE_LATER]);
    let poll = request_with(rt, alloc, &POLL);
    let mut reported = asked(rt, alloc, bank, first, &waiting, NOON);
    report(
        rt,
        &mut reported,
        &asked(rt, alloc, bank, second, &poll, NOON),
    );
    report(
        rt,
        &mut reported,
        &advanced(rt, alloc, bank, first, NEXT_DAY),
    );
    report(
        rt,
        &mut reported,
        &asked(rt, alloc, bank, second, &poll, NEXT_DAY),
    );
    report(
        rt,
        &mut reported,
        &advanced(rt, alloc, bank, second, NEXT_DAY),
    );
    let mut child = bank.door(second);
    report(
        rt,
        &mut reported,
        &asked(rt, alloc, bank, &mut child, &poll, NEXT_DAY),
    );
    reported
}

/// The second append fails and its record has landed, so the transfer is posted when due work is looked for once more.
#[test]
fn callers_take_turns_at_one_bank(rt: HostRuntime) {
    let alloc = rt.alloc();
    let keeper = failing(&rt, alloc, &[2], &[2]);
    let opened = opened_over(&rt, alloc, keeper);
    let reported = reported_by_turns::<Brand, _>(&rt, alloc, opened);
    let (before, rest) = reported.split_once("keeper 1\n").unwrap_or(("", ""));
    assert!(rt; before.contains("<SRVRTID>1\r\n"));
    assert!(rt; before.contains("<TOKEN>1\r\n"));
    let (settled, child) = rest.split_once("nothing due\n").unwrap_or(("", ""));
    assert!(rt; settled.contains("<TOKEN>1\r\n"));
    assert!(rt; child.contains("<TOKEN>2\r\n"));
}

/// What a caller of a bank is told of a transfer whose append fails, of a poll, when due work is looked for, and of a poll again.
fn reported_while_pending<N: BankName, R: Abort + Wait>(
    rt: &R,
    alloc: Global,
    opened: Opened<MemKeeper, OfxPrinter>,
) -> String
    requires setup { opened.setup ≡ N.setup }
    requires opening { opened.state ≡ N.opening }
    requires first { opened.opened ≡ N.first }
    requires board { opened.board ≡ N.board }
    requires tables { opened.tables ≡ N.tables }
{
    let (bank, mut pass) = Bank::<N, _, _>::begin(opened);
    let file = request_with(rt, alloc, &[TRANSFER]);
    let poll = request_with(rt, alloc, &POLL);
    let mut reported = asked(rt, alloc, &bank, &mut pass, &file, NOON);
    report(
        rt,
        &mut reported,
        &asked(rt, alloc, &bank, &mut pass, &poll, NOON),
    );
    report(
        rt,
        &mut reported,
        &advanced(rt, alloc, &bank, &mut pass, NOON),
    );
    report(
        rt,
        &mut reported,
        &asked(rt, alloc, &bank, &mut pass, &poll, NOON),
    );
    reported
}

/// A poll is answered while a file is pending, as if it never had been, and settles nothing.
#[test]
fn a_poll_looks_at_what_was_answered(rt: HostRuntime) {
    let alloc = rt.alloc();
    let keeper = failing(&rt, alloc, &[1], &[1]);
    let opened = opened_over(&rt, alloc, keeper);
    let reported = reported_while_pending::<Brand, _>(&rt, alloc, opened);
    let (pending, settled) = reported.split_once("nothing due\n").unwrap_or(("", ""));
    assert!(rt; pending.starts_with("keeper 1\nFILE "));
    assert!(rt; pending.contains("<TOKEN>0\r\n"));
    assert!(rt; settled.contains("<TOKEN>1\r\n"));
}
