//! Help, the version, and what is reported of arguments that have no form.

use crate::messages::{plain, report};
use bank_arguments::Topic;
use command_help::{VERSION, command_help, program_help};
use ofx_types::Told;
use std::{fmt, io};

/// The end of printing help on the standard output: about the program, or a command.
pub fn helped(rt: &HostRuntime, topic: Option<Topic>) -> Told {
    let text = match topic {
        None => program_help(rt.alloc()),
        Some(topic) => command_help(rt.alloc(), topic),
    };
    match text {
        Ok(text) => printed(rt.print(&text)),
        Err(_) => plain(7),
    }
}

/// The end of printing the version on the standard output.
pub fn versioned(rt: &HostRuntime) -> Told {
    printed(println!(rt; "ofxbank {VERSION}"))
}

/// The end where all that was left to do was to print.
fn printed(done: io::Result<()>) -> Told {
    match done {
        Ok(()) => plain(0),
        Err(_) => plain(6),
    }
}

/// Prints on the error stream the line `usage`, the program's usage and, in the last line, what is wrong with the arguments.
/// Where memory is refused for it, the line `usage` is alone. Answers the status.
pub fn report_usage<M: fmt::Display>(rt: &HostRuntime, mistake: &M) -> u8 {
    let status = report(rt, plain(2));
    if let Ok(text) = program_help(rt.alloc()) {
        let _ = report_mistake(rt, &text, mistake);
    }
    status
}

fn report_mistake<M: fmt::Display>(rt: &HostRuntime, text: &str, mistake: &M) -> io::Result<()> {
    eprintln!(rt; "{text}\n{mistake}")
}
