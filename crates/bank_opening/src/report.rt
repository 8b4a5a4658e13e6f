//! What is reported of the end of a command.

ghost use Rattle.std.specs.Prelude.{◌≡◌};
ghost use Rattle.bank_opening.specs.Reports as rules;
ghost use Rattle.bank_opening.specs.Reports.{reported_of, reported_of_letter, reported_of_records};

use crate::stop::{LetterFault, RecordsFault, Stop};
use ofx_types::{Note, Status, Told};

/// What is reported of an end.
pub fn report_of_end(end: Result<(), Stop>) -> Told
    ensures { result ≡ reported_of end }
{
    match end {
        Ok(()) => plain(0),
        Err(Stop::Usage) => plain(2),
        Err(Stop::Setup(line)) => at_offset(3, line),
        Err(Stop::Frame(offset)) => at_offset(4, offset),
        Err(Stop::ReadFailed) => plain(5),
        Err(Stop::WriteFailed) => plain(6),
        Err(Stop::NoMemory) => plain(7),
        Err(Stop::KeeperFailed) => plain(8),
        Err(Stop::Records(fault)) => report_of_records(fault),
        Err(Stop::Letter(fault)) => report_of_letter(fault),
    }
}

/// What is reported of records that are none of this bank.
fn report_of_records(fault: RecordsFault) -> Told
    ensures { result ≡ reported_of_records fault }
{
    match fault {
        RecordsFault::NoForm(number, at) => noted(9, Note::Record(number, at)),
        RecordsFault::NotLegal(number) => noted(9, Note::Illegal(number)),
    }
}

/// What is reported of a letter that can't be written.
fn report_of_letter(fault: LetterFault) -> Told
    ensures { result ≡ reported_of_letter fault }
{
    match fault {
        LetterFault::NoBody => at_offset(4, 0),
        LetterFault::NoUser => noted(10, Note::NoUser),
        LetterFault::Full => noted(10, Note::Full),
    }
}

/// A status with its note.
fn noted(status: u8, note: Note) -> Told
    ensures { result ≡ rules.reported status note }
{
    Told {
        status: Status(status),
        note,
    }
}

/// A status alone.
fn plain(status: u8) -> Told
    ensures { result ≡ rules.reported status Note.Plain }
{
    noted(status, Note::Plain)
}

/// A status, and an offset or the number of a line.
fn at_offset(status: u8, offset: u64) -> Told
    ensures { result ≡ rules.reported status (Note.Place offset) }
{
    noted(status, Note::Place(offset))
}
