//! Due work of a bank, one event after another until nothing is due.

ghost use Rattle.std.specs.Prelude.{◌≡◌, false, is_some};
ghost use Rattle.ofx_types.specs.Calendar.{IsMoment};
ghost use Rattle.bank_shared.specs.Holds.{IsPassOf};

use crate::callers::asked;
use crate::same::same;
use crate::sample::{failing, numbered, opened_over, report, request_with, text};
use bank_due::{DueFault, due_run};
use bank_samples::changes::{DUE_LATER, NEXT_DAY, NOON};
use bank_samples::transfer::TRANSFER;
use bank_shared::{Bank, BankName, Opened, Pass};
use ofx_file::OfxPrinter;
use ofx_ports::{MemKeeper, OpenGate};
use ofx_types::Moment;
use std::alloc::Global;
use std::marker::Brand;
use std::process::Abort;
use std::sync::Wait;

/// The first of two transfers has another TRNUID than the second.
const RENAMED: (&str, &str) = ("<TRNUID>t1", "<TRNUID>t0");

/// The day of the one of two transfers that has none yet.
const DUE_LATER_TOO: (&str, &str) = (
    "<TRNAMT>10.00\r\n</XFERINFO>",
    "<TRNAMT>10.00\r\n<DTDUE>20240201000000\r\n</XFERINFO>",
);

/// What a run of due work at a moment answers.
fn run_at<N: BankName, R: Abort + Wait>(
    rt: &R,
    alloc: Global,
    bank: &Bank<N, MemKeeper, OfxPrinter>,
    pass: &mut Pass,
    at: Moment,
) -> String
    requires moment { IsMoment at.0 }
    requires pass { IsPassOf N.setup N.opening N.board pass.old }
    ensures { IsPassOf N.setup N.opening N.board pass.new }
{
    match due_run(bank, rt, pass, at, &OpenGate) {
        Ok(count) => numbered(rt, alloc, "did", u64::from(count)),
        Err(DueFault::Left(id)) => numbered(rt, alloc, "left", id),
        Err(DueFault::Keeper(count)) => numbered(rt, alloc, "keeper", count),
        Err(DueFault::OutOfMemory) => text(rt, alloc, "no memory\n"),
    }
}

/// What runs of due work answer in a bank that has opened, and what the statement after them tells.
fn reported_of_runs<N: BankName, R: Abort + Wait>(
    rt: &R,
    alloc: Global,
    opened: Opened<MemKeeper, OfxPrinter>,
) -> (String, String)
    requires setup { opened.setup ≡ N.setup }
    requires opening { opened.state ≡ N.opening }
    requires first { opened.opened ≡ N.first }
    requires board { opened.board ≡ N.board }
    requires tables { opened.tables ≡ N.tables }
{
    let (bank, mut pass) = Bank::<N, _, _>::begin(opened);
    runs_at(rt, alloc, &bank, &mut pass)
}

/// The same of a bank with two transfers that are due on the next day, in one run on the day before and two on that day.
fn runs_at<N: BankName, R: Abort + Wait>(
    rt: &R,
    alloc: Global,
    bank: &Bank<N, MemKeeper, OfxPrinter>,
    pass: &mut Pass,
) -> (String, String)
    requires { IsPassOf N.setup N.opening N.board pass.old }
{
    let waiting = [TRANSFER, DUE_LATER, RENAMED, TRANSFER, DUE_LATER_TOO];
    let file = request_with(rt, alloc, &waiting);
    let _waits = asked(rt, alloc, bank, pass, &file, NOON);
    let mut reported = run_at(rt, alloc, bank, pass, NOON);
    report(rt, &mut reported, &run_at(rt, alloc, bank, pass, NEXT_DAY));
    report(rt, &mut reported, &run_at(rt, alloc, bank, pass, NEXT_DAY));
    let plain = request_with(rt, alloc, &[]);
    let statement = asked(rt, alloc, bank, pass, &plain, NEXT_DAY);
    (reported, statement)
}

/// The same over a keeper without records.
fn runs_over<R: Abort + Wait>(rt: &R, alloc: Global, keeper: MemKeeper) -> (String, String)
    requires { is_some keeper.landed ≡ false }
{
    reported_of_runs::<Brand, _>(rt, alloc, opened_over(rt, alloc, keeper))
}

/// Which calls of the keeper fail and which of these land, and what the runs answer.
const RUNS: &[(&[u64], &[u64], &str)] = &[
    (&[], &[], "did 0\ndid 2\ndid 0\n"),
    (&[2], &[], "did 0\nkeeper 1\ndid 2\n"),
    (&[3], &[], "did 0\nkeeper 1\ndid 1\n"),
    (&[3], &[3], "did 0\nkeeper 1\ndid 0\n"),
];

/// The keeper's first call is that of the file, and each transfer is posted in the end.
#[test]
fn all_that_is_due_happens_in_a_run(rt: HostRuntime) {
    let alloc = rt.alloc();
    for case in RUNS.iter() {
        let (refused, landing, answers) = *case;
        let keeper = failing(&rt, alloc, refused, landing);
        let (reported, statement) = runs_over(&rt, alloc, keeper);
        same(&rt, reported.as_str(), answers);
        assert!(rt; statement.contains("<BALAMT>80.00\r\n"));
    }
}
