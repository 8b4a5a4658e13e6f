//! The customer's program: it hands its order, a link to the bank, its store, the clock and the standard output to the proved
//! run, and reports on the error stream why the run ended.
#![tactic(auto)]

mod importing;
mod messages;
mod parties;
mod running;
mod usage;

use crate::importing::import;
use crate::messages::{VERSION, plain, report, report_usage};
use crate::parties::STORE;
use crate::running::run;
use crate::usage::help_text;
use client_arguments::{ArgumentsFault, mistake_in, order_of};
use ofx_types::{Text, Told};
use program_arguments::{Unread, read_words, text_at};
use std::fmt;
use std::process::ExitCode;

fn main(rt: HostRuntime) -> ExitCode {
    let end = match read_words(&rt, &["--help", "-h", "--version", "-V"]) {
        Ok(arguments) => asked(rt, &arguments),
        Err(Unread::NoMemory) => ended(&rt, plain(7)),
        Err(unread) => unordered(&rt, &unread),
    };
    ExitCode::from(end.status.0)
}

/// Does what the arguments ask, which are texts.
fn asked(rt: HostRuntime, arguments: &[Text]) -> Told {
    match text_at(arguments, 0) {
        "--help" | "-h" => match help_text(rt.alloc()) {
            Ok(text) => ended(&rt, printed(&rt, &text)),
            Err(_) => ended(&rt, plain(7)),
        },
        "--version" | "-V" => ended(&rt, printed(&rt, VERSION)),
        "import" => import(rt, arguments),
        _ => ordered(rt, arguments),
    }
}

/// Does what the arguments order. A store and a link are opened only where the arguments have their form, since opening may
/// wait.
fn ordered(rt: HostRuntime, arguments: &[Text]) -> Told {
    match order_of(arguments) {
        Ok(order) => run(rt, text_at(arguments, STORE), &order),
        Err(ArgumentsFault::Usage) => unordered(&rt, &mistake_in(arguments)),
        Err(ArgumentsFault::OutOfMemory) => ended(&rt, plain(7)),
    }
}

/// Reports an end in a line, and answers it.
fn ended(rt: &HostRuntime, end: Told) -> Told {
    report(rt, end);
    end
}

/// Reports arguments without a form: the end, the usage and, in the last line, what is wrong with them. Answers the end.
fn unordered<M: fmt::Display>(rt: &HostRuntime, mistake: &M) -> Told {
    let end = ended(rt, plain(2));
    report_usage(rt, mistake);
    end
}

/// The end of printing a text on the standard output.
fn printed(rt: &HostRuntime, text: &str) -> Told {
    match rt.print(text) {
        Ok(()) => plain(0),
        Err(_) => plain(6),
    }
}
