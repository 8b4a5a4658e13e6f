//! What is reported of the end of a run.

ghost use Rattle.std.specs.Prelude.{◌≡◌};
ghost use Rattle.register_run.specs.Stopping as rules;

use crate::stop::Stop;
use ofx_types::{Note, Status, Told};

/// A status with its note.
fn noted(status: u8, note: Note) -> Told
    ensures { result ≡ rules.reported status note }
{
    Told {
        status: Status(status),
        note,
    }
}

/// A status alone.
pub(crate) fn plain(status: u8) -> Told
    ensures { result ≡ rules.reported status Note.Plain }
{
    noted(status, Note::Plain)
}

/// What is reported of an end.
pub(crate) fn report_of_end(end: Result<(), Stop>) -> Told
    ensures { result ≡ rules.reported_of end }
{
    match end {
        Ok(()) => plain(0),
        Err(Stop::Frame(offset)) => noted(4, Note::Place(offset)),
        Err(Stop::ReadFailed) => plain(5),
        Err(Stop::WriteFailed) => plain(6),
        Err(Stop::NoMemory) => plain(7),
        Err(Stop::StoreFailed) => plain(8),
        Err(Stop::BadStore(offset)) => noted(15, Note::Place(offset)),
    }
}
