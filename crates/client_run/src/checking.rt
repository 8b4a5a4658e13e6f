//! The command `check`: whether there is news of an account.

ghost use Rattle.std.specs.Prelude.{◌≡◌, ℕ, List, [], ◌++◌, Ok, OnOk};
ghost use Rattle.ofx_file.specs.Printable.{IsPrintableFile};
ghost use Rattle.client_core.specs.ReportLines.{FollowsRule};
ghost use Rattle.client_run.specs.Commands.{Checks, JudgesNews};
ghost use Rattle.client_run.specs.Exchange.{request_bytes, Exchanges};
ghost use Rattle.client_run.specs.Lines as rules;

use crate::calling::exchange;
use crate::printing::print_lines;
use crate::sending::print_end;
use crate::stop::{CallStop, ClientStop};
use client_core::{Client, ClientFault, ReportLines, first_unanswered};
use client_report::newest_line;
use http_link::Incoming;
use ofx_ports::{Clock, Link, Sink};
use ofx_types::{AcctName, Ask, AskReply, Moment, OutOfMemory, ReplyFile, RequestFile, Text};
use ofx_values::read_number;
use std::alloc::Global;

/// The most digits of a token.
const MAX_DIGITS: usize = 10;

/// The code of a signon that was taken.
const SIGNED_ON: u16 = 0;

/// The number of a token.
fn number_of(token: &Text) -> u64
    ensures { result ≡ rules.number_of token.now }
{
    read_number(token.as_bytes(), MAX_DIGITS).unwrap_or(0)
}

/// Adds the line of the newest token of an object.
fn report(
    alloc: Global,
    ask: &Ask,
    reply: &AskReply,
    lines: &mut ReportLines,
) -> Result<(), OutOfMemory>
    ensures { OnOk result (lines.new ≡ lines.old ++ rules.news_line ask.now reply.now) }
{
    match (ask, reply) {
        (Ask::Sync(ask), AskReply::Sync(reply)) => {
            let token = number_of(&reply.token);
            lines.push(newest_line(alloc, &ask.object, token)?)
        }
        _ => Ok(()),
    }
}

/// Adds the lines of all replies, in the order of the asks.
fn report_all(
    alloc: Global,
    asks: &[Ask],
    replies: &[AskReply],
    lines: &mut ReportLines,
) -> Result<(), OutOfMemory>
    ensures { OnOk result (lines.new ≡ lines.old ++ rules.news_lines asks.now replies.now) }
{
    let mut left = asks;
    let mut reported = replies;
    while let [ask, rest @ ..] = left {
        let [reply, others @ ..] = reported else {
            return Ok(());
        };
        report(alloc, ask, reply, lines)?;
        left = rest;
        reported = others;
    }
    Ok(())
}

/// The lines that report a reply to a poll.
#[tactic(auto, unfolding(crate::specs::Lines::news))]
fn news(alloc: Global, asks: &[Ask], reply: &ReplyFile) -> Result<ReportLines, ClientFault>
    ensures { FollowsRule (rules.news asks.now reply.now) result }
{
    if reply.signon != SIGNED_ON {
        return Err(ClientFault::Signon(reply.signon));
    }
    let replies = reply.replies.items();
    match first_unanswered(asks, replies) {
        Some(number) => Err(ClientFault::Shape(number)),
        None => {
            let mut lines = ReportLines::new(alloc);
            report_all(alloc, asks, replies, &mut lines)?;
            Ok(lines)
        }
    }
}

/// Prints what is reported of a reply to a poll.
#[tactic(auto, using(crate::proofs::Checked::news_reported, crate::proofs::Checked::news_refused))]
fn print_news<W: Sink>(
    alloc: Global,
    asks: &[Ask],
    reply: &ReplyFile,
    out: &mut W,
) -> Result<(), ClientStop>
    ensures { JudgesNews asks.now (Ok reply.now) (record { held = W.held out.old; faults = W.faults out.old })
        (record { held = W.held out.new; faults = W.faults out.new }) result }
{
    match news(alloc, asks, reply) {
        Ok(lines) => print_end(print_lines(alloc, lines.items(), out)),
        Err(fault) => Err(ClientStop::Refused(fault)),
    }
}

/// Sends the poll file of an account and tells the newest tokens.
#[tactic(auto, using(crate::proofs::Checked::poll_printable, crate::proofs::Checked::unsent, crate::proofs::Checked::checks_by))]
pub(crate) fn check<L: Link, C: Clock, W: Sink>(
    alloc: Global,
    client: &Client,
    pass: &Text,
    account: &AcctName,
    link: &mut L,
    clock: &mut C,
    out: &mut W,
) -> Result<(), ClientStop>
    ensures { Checks pass.now client.now account.now
        (record { left = L.left link.old; sent = L.held link.old; read_faults = L.read_faults link.old; write_faults = L.write_faults link.old }) (C.shown clock.old) (record { held = W.held out.old; faults = W.faults out.old })
        (record { left = L.left link.new; sent = L.held link.new; read_faults = L.read_faults link.new; write_faults = L.write_faults link.new }) (C.shown clock.new) (record { held = W.held out.new; faults = W.faults out.new }) result }
{
    let at = clock.now();
    let file = match client.poll_file(account) {
        Ok(file) => file,
        Err(OutOfMemory) => return Err(ClientStop::Call(CallStop::NoMemory)),
    };
    match poll(alloc, link, pass, &file, at) {
        Ok(reply) => print_news(alloc, file.asks.items(), &reply, out),
        Err(stop) => Err(ClientStop::Call(stop)),
    }
}

/// Sends a poll file, and reads the reply to it.
fn poll<L: Link>(
    alloc: Global,
    link: &mut L,
    pass: &Text,
    file: &RequestFile,
    at: Moment,
) -> Result<ReplyFile, CallStop>
    requires { IsPrintableFile file.now at }
    ensures { (ahead' : List ℕ) × Exchanges (request_bytes pass.now file.now at) []
        (record { left = L.left link.old; sent = L.held link.old; read_faults = L.read_faults link.old; write_faults = L.write_faults link.old })
        ahead'
        (record { left = L.left link.new; sent = L.held link.new; read_faults = L.read_faults link.new; write_faults = L.write_faults link.new })
        result }
{
    let mut incoming = Incoming::new(alloc);
    exchange(alloc, &mut incoming, link, pass, file, at)
}
