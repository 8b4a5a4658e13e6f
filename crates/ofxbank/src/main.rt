//! The bank's server as a program: it hands its command, its files and its streams to the proved runs, and tells
//! people on the error stream why a run ended.
#![tactic(auto)]

mod binding;
mod check;
mod command_line;
mod end;
mod environment;
mod files;
mod keepers;
mod messages;
mod records_age;
mod run;
mod serve;
mod setup_file;
mod totals;
mod usage;
mod why;

use crate::command_line::{Request, VERSION_OPTIONS, request_of};
use crate::environment::Environment;
use crate::files::Files;
use crate::messages::{plain, report};
use crate::run::run;
use crate::usage::{helped, report_usage, versioned};
use ofx_types::Text;
use program_arguments::{Unread, read_words};
use std::process::ExitCode;
use std::sync::Wait;
use std::thread::Threads;

fn main(rt: HostRuntime) -> ExitCode {
    let status = match read_words(&rt, &VERSION_OPTIONS) {
        Ok(arguments) => done(&rt, &rt, &arguments),
        Err(Unread::NoMemory) => report(&rt, plain(7)),
        Err(unread) => report_usage(&rt, &unread),
    };
    ExitCode::from(status)
}

/// Does what the arguments ask, and answers the status. The threads of a server are those of `threads`.
fn done<R: Threads + Wait + Sync>(threads: &R, rt: &HostRuntime, arguments: &[Text]) -> u8 {
    match request_of(arguments) {
        Request::Help(topic) => report(rt, helped(rt, topic)),
        Request::Version => report(rt, versioned(rt)),
        Request::Run(command) => match Environment::read(rt) {
            Ok(environment) => run(threads, rt, command, Files::of(arguments), environment),
            Err(bad) => report_usage(rt, &bad),
        },
        Request::Usage(mistake) => report_usage(rt, &mistake),
    }
}
