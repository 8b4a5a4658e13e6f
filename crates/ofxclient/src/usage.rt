//! The program's usage, as clap renders it.

use clap::{Arg, Command};
use std::alloc::{AllocError, Global};

/// The program's version.
const VERSION: &str = "0.2.0";

/// What the program is for.
const ABOUT: &str = "\
Keeps what a customer knows of accounts at a bank, and asks the bank by Open
Financial Exchange 1.6. A file that the bank has not answered is sent again
before anything new is done.";

/// Each word before the command, and what it is.
const PARTIES: [(&str, &str); 6] = [
    ("PORT", "where the bank answers at 127.0.0.1, 0 to 65535"),
    (
        "STORE",
        "the file in which the client is kept, made where it isn't there, and locked during a run; - is in memory, for this run alone",
    ),
    (
        "CLIENT",
        "the client's name, 1 to 12 letters and digits; each store has its own",
    ),
    ("USER", "the user's name at the bank"),
    ("PASS", "the user's password, which isn't kept"),
    ("BANK", "the bank's id (BANKID)"),
];

/// Each command: its word, and the arguments after it and what it does.
const COMMANDS: [(&str, &str); 9] = [
    (
        "sync",
        "NUMBER KIND: balance and news of an account, and mail",
    ),
    (
        "transfer",
        "NUMBER KIND NUMBER KIND AMOUNT [DAY]: from the first account to the second",
    ),
    (
        "modify",
        "ID NUMBER KIND AMOUNT DAY: another destination, amount and day of a transfer",
    ),
    ("cancel", "ID: of a transfer"),
    (
        "repeat",
        "NUMBER KIND NUMBER KIND AMOUNT DAY FREQ COUNT: a recurring transfer, first on DAY",
    ),
    (
        "stop",
        "ID: of a recurring transfer, and of its transfers that wait",
    ),
    ("mail", "SUBJECT BODY: to the bank"),
    (
        "check",
        "NUMBER KIND: whether there is news; nothing is kept of it",
    ),
    ("show", "what the store has; the bank isn't asked"),
];

/// The forms of the program's commands.
const FORMS: &str = "\
ofxclient <PORT> <STORE> <CLIENT> <USER> <PASS> <BANK> <COMMAND>
       ofxclient import <STORE> < FRAMES";

/// What follows all else.
const AFTER: &str = "\
import adds downloaded statement files to the register in the file STORE, and
asks no bank. It reads them from the standard input, each after a line with
FILE and the number of its bytes. It prints a line for each file, and then each
account with its sum.

Words:
  NUMBER   an account's number (ACCTID)
  KIND     CHECKING, SAVINGS, MONEYMRKT or CREDITLINE
  AMOUNT   in dollars, as 10.00
  DAY      YYYYMMDD
  FREQ     WEEKLY, BIWEEKLY, TWICEMONTHLY, MONTHLY, FOURWEEKS, BIMONTHLY,
           QUARTERLY, SEMIANNUALLY or ANNUALLY
  COUNT    how many transfers, 1 to 999, or 0 without end
  ID       of a row that show prints

Status: 0 all done, 2 usage or another client's store, 4 the input has no frame,
5 read failed, 6 write failed, 7 no memory, 8 store failed or locked by another
run, 11 HTTP code, 12 bad reply, 13 a reply to another file, 14 signon refused,
15 the store has no form, 16 bad reply head, 17 the reply was cut, 18 no such row";

/// What is printed for `--help`.
pub fn help_text(alloc: Global) -> Result<String, AllocError> {
    command_of(alloc)?.render_help()
}

/// What is printed after the line `usage`: the forms of the program's commands.
pub fn usage_text(alloc: Global) -> Result<String, AllocError> {
    command_of(alloc)?.render_usage()
}

fn command_of(alloc: Global) -> Result<Command<'static>, AllocError> {
    let mut command = Command::new(alloc, "ofxclient")
        .version(VERSION)
        .about(ABOUT)
        .override_usage(FORMS)
        .after_help(AFTER)
        .disable_help_subcommand(true)
        .subcommand_required(true)
        .subcommand_value_name("COMMAND");
    for (name, help) in PARTIES {
        command = command.arg(Arg::new(alloc, name).required(true).help(help))?;
    }
    for (name, help) in COMMANDS {
        command = command.subcommand(Command::new(alloc, name).about(help))?;
    }
    Ok(command)
}
