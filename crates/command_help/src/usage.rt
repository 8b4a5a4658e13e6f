//! The usage of the program and of its commands, as clap renders it.

use crate::texts;
use bank_arguments::Topic;
use clap::{Arg, Command};
use std::alloc::{AllocError, Global};

/// What is printed for `--help`, and after the line `usage`.
///
/// ```rust
/// use command_help::program_help;
///
/// let help = program_help(rt.alloc()).expect(&rt, "room");
/// assert!(rt; help.as_str().contains("Usage: ofxbank answer SETUP RECORDS [--at DATE]"));
/// ```
pub fn program_help(alloc: Global) -> Result<String, AllocError> {
    let mut program = Command::new(alloc, "ofxbank")
        .version(texts::VERSION)
        .about(texts::ABOUT)
        .override_usage(texts::FORMS)
        .after_help(texts::AFTER)
        .subcommand_required(true);
    for topic in texts::TOPICS {
        let command = Command::new(alloc, texts::name_of(topic)).about(texts::summary_of(topic));
        program = program.subcommand(command)?;
    }
    program.render_help()
}

/// What is printed for the help of a command.
pub fn command_help(alloc: Global, topic: Topic) -> Result<String, AllocError> {
    let mut command = Command::new(alloc, texts::name_of(topic))
        .about(texts::about_of(topic))
        .override_usage(texts::form_of(topic))
        .after_help(texts::statuses_of(topic));
    for name in topic.needs() {
        command = command.arg(word(alloc, *name))?;
    }
    if topic == Topic::Check {
        command = command.arg(Arg::new(alloc, "RECORDS").help(texts::meaning_of("RECORDS")))?;
    }
    if topic == Topic::Answer {
        command = command.arg(
            Arg::new(alloc, "at")
                .long("at")
                .value_name("DATE")
                .help(texts::AT),
        )?;
    }
    command.render_help()
}

/// A word that a command can't do without.
fn word(alloc: Global, name: &'static str) -> Arg<'static> {
    Arg::new(alloc, name)
        .required(true)
        .help(texts::meaning_of(name))
}
