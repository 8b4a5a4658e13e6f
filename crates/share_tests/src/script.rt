//! Calls of a bank by one caller, one after another, in lines of text.

ghost use Rattle.std.specs.Prelude.{◌≡◌, ◌<◌, false, is_some, length, All};
ghost use Rattle.ofx_types.specs.Calendar.{IsMoment};
ghost use Rattle.bank_shared.specs.Holds.{IsPassOf};

use crate::callers::{advanced, asked};
use crate::sample::{numbered, opened_over, report, text};
use bank_model::{Event, SubmitFault};
use bank_shared::{Advance, Bank, BankName, Opened, Pass};
use ofx_file::OfxPrinter;
use ofx_ports::{Clock, MemClock, MemKeeper};
use ofx_types::Moment;
use std::alloc::Global;
use std::marker::Brand;
use std::process::Abort;
use std::sync::Wait;

/// What a caller asks for.
#[derive(Clone, Copy)]
pub enum Call<'a> {
    /// The answer to a file in its frame.
    File(&'a str),
    /// That what is due happens.
    Due,
}

/// What the calls of a bank of the sample's setup answer, at the moments of a clock, which then stays the same.
pub fn reported_over<R: Abort + Wait>(
    rt: &R,
    alloc: Global,
    keeper: MemKeeper,
    moments: &[Moment],
    calls: &[Call<'_>],
) -> String
    requires settled { is_some keeper.landed ≡ false }
    requires some { 0 < length moments.now }
    requires lawful { All (λ moment. IsMoment moment.0) moments.now }
{
    let mut clock = MemClock::new(alloc, moments).expect(rt, "a clock");
    reported::<Brand, _>(rt, alloc, opened_over(rt, alloc, keeper), &mut clock, calls)
}

fn reported<N: BankName, R: Abort + Wait>(
    rt: &R,
    alloc: Global,
    opened: Opened<MemKeeper, OfxPrinter>,
    clock: &mut MemClock,
    calls: &[Call<'_>],
) -> String
    requires setup { opened.setup ≡ N.setup }
    requires opening { opened.state ≡ N.opening }
    requires first { opened.opened ≡ N.first }
    requires board { opened.board ≡ N.board }
    requires tables { opened.tables ≡ N.tables }
{
    let (bank, mut pass) = Bank::<N, _, _>::begin(opened);
    reported_by(rt, alloc, &bank, &mut pass, clock, calls)
}

/// What the calls of a caller answer.
fn reported_by<N: BankName, R: Abort + Wait>(
    rt: &R,
    alloc: Global,
    bank: &Bank<N, MemKeeper, OfxPrinter>,
    pass: &mut Pass,
    clock: &mut MemClock,
    calls: &[Call<'_>],
) -> String
    requires { IsPassOf N.setup N.opening N.board pass.old }
{
    let mut reported = String::new(alloc);
    for call in calls {
        let at = clock.now();
        report(rt, &mut reported, &answer(rt, alloc, bank, pass, call, at));
    }
    reported
}

/// What one call answers.
fn answer<N: BankName, R: Abort + Wait>(
    rt: &R,
    alloc: Global,
    bank: &Bank<N, MemKeeper, OfxPrinter>,
    pass: &mut Pass,
    call: &Call<'_>,
    at: Moment,
) -> String
    requires moment { IsMoment at.0 }
    requires pass { IsPassOf N.setup N.opening N.board pass.old }
    ensures { IsPassOf N.setup N.opening N.board pass.new }
{
    match call {
        Call::File(framed) => asked(rt, alloc, bank, pass, framed, at),
        Call::Due => advanced(rt, alloc, bank, pass, at),
    }
}

/// The line of what came of looking for due work.
pub fn advance_line(
    rt: &impl Abort,
    alloc: Global,
    advanced: &Result<Advance, SubmitFault>,
) -> String {
    match advanced {
        Ok(Advance::Done(Event::Post(id))) => numbered(rt, alloc, "posted", *id),
        Ok(Advance::Done(_)) => text(rt, alloc, "done\n"),
        Ok(Advance::Gone(_)) => text(rt, alloc, "gone\n"),
        Ok(Advance::Nothing) => text(rt, alloc, "nothing due\n"),
        Err(fault) => refusal(rt, alloc, *fault),
    }
}

/// A reply in its frame, or the line of a fault.
pub fn reply_lines(rt: &impl Abort, alloc: Global, reply: &Result<Vec<u8>, SubmitFault>) -> String {
    match reply {
        Ok(reply) => framed(rt, alloc, reply),
        Err(fault) => refusal(rt, alloc, *fault),
    }
}

/// A reply in its frame.
pub fn framed(rt: &impl Abort, alloc: Global, reply: &[u8]) -> String {
    let text = str::from_utf8(reply).expect(rt, "a text");
    format!(in alloc; "FILE {}\n{text}", reply.len()).expect(rt, "room")
}

/// The line of a fault.
fn refusal(rt: &impl Abort, alloc: Global, fault: SubmitFault) -> String {
    match fault {
        SubmitFault::Keeper(count) => numbered(rt, alloc, "keeper", count),
        SubmitFault::OutOfMemory => text(rt, alloc, "no memory\n"),
    }
}
