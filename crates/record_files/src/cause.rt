//! Why a file of records can't be opened or used, as it is reported to people.

use crate::setup_lines::{first_difference, line_of};
use std::alloc::Global;
use std::{fmt, io};

/// Whether records are bound to a setup.
#[derive(Clone, Copy)]
pub enum Binding {
    /// They are bound to the one that was given.
    Bound,
    /// They are bound to none, as those from before records were bound.
    Unbound,
}

/// Why a file of records can't be opened or used.
pub enum Cause {
    /// Nothing is there.
    NoFile,
    /// The path can't name a file.
    NoPath,
    /// The folder isn't there.
    NoFolder,
    /// It is a folder.
    Folder,
    /// It is a device, a pipe, or a link to nothing.
    NotPlain,
    /// It has a second name.
    SecondName,
    /// SQLite left a journal that is to be undone.
    Journal,
    /// The rights are missing.
    NoRights,
    /// The rights to read the setup beside it are missing.
    NoRightsBeside,
    /// The disk is read-only.
    ReadOnly,
    /// Another program has it open.
    Held,
    /// It is no SQLite database, or a damaged one.
    NoDatabase,
    /// It is a database of another program.
    OtherDatabase,
    /// It is no file of records of `disk:PATH`.
    NoMark,
    /// The record of this number passes the end of the file.
    Cut(u64),
    /// The record of this number is missing.
    Gap(u64),
    /// The disk has no room.
    Full,
    /// A call of the disk failed.
    Failed,
    /// A sync failed, or the file lost its name, so that nothing more may be kept in it.
    Lost,
    /// There are none, or an empty file, and there have to be some.
    Expected,
    /// They end so many days before the machine's clock, which is more than they may.
    Behind(u64),
    /// They began with another setup: the number of the first line that differs, and that line as it was.
    OtherSetup(u64, String),
    /// What the system says.
    System(io::Error),
    /// Memory was refused.
    NoMemory,
}

// It is written out, so that a caller does not prove again how each part is dropped.
impl Drop for Cause {
    fn drop(self) {
        match self {
            Cause::OtherSetup(_line, _was) => {}
            Cause::System(_error) => {}
            Cause::Cut(_) | Cause::Gap(_) | Cause::Behind(_) => {}
            Cause::NoFile | Cause::NoPath | Cause::NoFolder | Cause::Folder | Cause::NotPlain => {}
            Cause::SecondName | Cause::Journal | Cause::NoRights | Cause::ReadOnly => {}
            Cause::NoRightsBeside => {}
            Cause::Held | Cause::NoDatabase | Cause::OtherDatabase | Cause::NoMark => {}
            Cause::Full | Cause::Failed | Cause::Lost | Cause::Expected | Cause::NoMemory => {}
        }
    }
}

impl fmt::Display for Cause {
    fn fmt<W: fmt::Write>(&self, f: &mut fmt::Formatter<W>) -> fmt::Result {
        match self {
            Cause::OtherSetup(line, was) => report_other_setup(f, *line, was.as_str()),
            Cause::Gap(number) => write!(f, "record {number} is missing; restore a copy"),
            Cause::Cut(number) => write!(f, "the file ends within record {number}; restore a copy"),
            Cause::Behind(days) => report_behind(f, *days),
            Cause::System(error) => write!(f, "{error}"),
            other => f.write_str(words_of(other)),
        }
    }
}

/// What is said of records that began with another setup.
fn report_other_setup<W: fmt::Write>(
    f: &mut fmt::Formatter<W>,
    line: u64,
    was: &str,
) -> fmt::Result {
    if was.is_empty() {
        return write!(
            f,
            "the records began with another setup: it had no line {line}"
        );
    }
    write!(
        f,
        "the records began with another setup: its line {line} was '{was}'"
    )
}

/// What is said of records that end too many days before the clock.
fn report_behind<W: fmt::Write>(f: &mut fmt::Formatter<W>, days: u64) -> fmt::Result {
    let enough = days.saturating_add(1);
    write!(
        f,
        "they end {days} days before the machine's clock, more than OFXBANK_MAX_DAYS allows; set the clock, or, where it is right, start with OFXBANK_MAX_DAYS={enough}"
    )
}

/// What is said of a cause without numbers.
fn words_of(cause: &Cause) -> &'static str {
    match cause {
        Cause::NoFile => "there is no such file",
        Cause::NoPath => "no file can have this path",
        Cause::NoFolder => "there is no such folder",
        Cause::Folder => "it is a folder",
        Cause::NotPlain => "it is no plain file, or a link to nothing",
        Cause::SecondName => "the file has a second name; remove the hard link",
        Cause::Journal => "another program left a -journal beside it; open it with sqlite3 once",
        Cause::NoRights => "no rights to read and write the file, or to make one in its folder",
        Cause::NoRightsBeside => {
            "no rights to read its setup, the file beside it that ends in .setup; it has to be the bank's user's"
        }
        Cause::ReadOnly => "the disk is read-only",
        Cause::Held => "another run or program has it open; end that first",
        Cause::NoDatabase => "it is no SQLite database, or a damaged one",
        Cause::OtherDatabase => "it is a database of another program",
        Cause::NoMark => "it is no file of records made by disk:PATH",
        Cause::Full => "the disk is full",
        Cause::Failed => "the disk failed; look into the system's log",
        Cause::Lost => {
            "a sync failed, or the file was renamed, removed or replaced; nothing more is kept in it: look into the system's log"
        }
        Cause::Expected => {
            "there is no such file, or it is empty, and OFXBANK_EXPECT_RECORDS is 1: mount its disk or restore a copy; \
             for a new bank run once without that word"
        }
        Cause::NoMemory => "memory was refused",
        Cause::OtherSetup(..) | Cause::Gap(_) | Cause::Cut(_) => "",
        Cause::Behind(_) | Cause::System(_) => "",
    }
}

/// Whether records that began with the setup of one text may go on with that of another.
///
/// ```rust
/// use record_files::{Cause, bound_text, compared};
///
/// let alloc = rt.alloc();
/// // Records are bound to the text of their setup without its passwords.
/// let began = bound_text(alloc, "OFXBANK 1\nUSER alice secret\n").expect(&rt, "room");
/// assert!(rt; began.as_str() == "OFXBANK 1\nUSER alice\n");
/// assert!(rt; compared(alloc, &began, "OFXBANK 1\nUSER alice\n").is_ok());
/// let other = compared(alloc, &began, "OFXBANK 1\nUSER bob\n");
/// let Err(Cause::OtherSetup(2, line)) = &other else {
///     panic!(rt; "another setup from line 2 on");
/// };
/// assert!(rt; line.as_str() == "USER alice");
/// ```
pub fn compared(alloc: Global, began: &str, lines: &str) -> Result<Binding, Cause> {
    let Some(number) = first_difference(began, lines) else {
        return Ok(Binding::Bound);
    };
    match String::from_str(alloc, line_of(began, number)) {
        Ok(was) => Err(Cause::OtherSetup(number, was)),
        Err(_) => Err(Cause::NoMemory),
    }
}
