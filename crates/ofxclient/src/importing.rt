//! The command `import`: it runs over the standard streams and the file of a register, and reports how it ended.

use crate::messages::{plain, report, report_usage};
use crate::parties::STORE;
use crate::usage::help_text;
use ofx_ports::{FileStore, MemStore, ReaderSource, StoreKeeper, WriterSink};
use ofx_types::{OutOfMemory, Text, Told};
use program_arguments::named;
use register_run::register_told;
use std::{fmt, io};

/// The offset of the first word that an import doesn't have.
const MORE: usize = 2;

/// Adds downloaded files to the register that the second argument names, and reports how that ended.
pub fn import(rt: HostRuntime, arguments: &[Text]) -> Told {
    let end = import_into(rt, arguments);
    report(&rt, end);
    let _ = report_advice(&rt, end.status.0, named(arguments, STORE).unwrap_or("?"));
    if end.status.0 == 2 {
        report_usage(&rt, &BadImport(arguments));
    }
    end
}

/// What is wrong with the words of an import.
#[derive(Clone, Copy)]
struct BadImport<'a>(&'a [Text]);

impl fmt::Display for BadImport<'_> {
    fn fmt<W: fmt::Write>(&self, f: &mut fmt::Formatter<W>) -> fmt::Result {
        let arguments = self.0;
        match named(arguments, MORE) {
            Some(more) => write!(f, "word 3, '{more}', is one too many"),
            None => f.write_str("word 2, STORE, is missing: the file of the register"),
        }
    }
}

/// The end of an import. A store is opened only where an argument names one, and `--help` names none.
fn import_into(rt: HostRuntime, arguments: &[Text]) -> Told {
    match named(arguments, STORE) {
        Some("--help") => helped(&rt),
        Some("-") => import_over(rt, arguments, &mut MemStore::new(rt.alloc())),
        Some(path) => match FileStore::at(rt.alloc(), rt, path) {
            Ok(mut store) => import_over(rt, arguments, &mut store),
            Err(OutOfMemory) => plain(7),
        },
        None => plain(2),
    }
}

/// The end of an import of the files of the standard input into the register of a store.
fn import_over<S: StoreKeeper>(rt: HostRuntime, arguments: &[Text], store: &mut S) -> Told {
    let mut input = ReaderSource::new(rt.stdin());
    let mut out = WriterSink::new(io::writer(&rt));
    register_told(rt.alloc(), arguments, &mut input, store, &mut out)
}

/// The end of printing the help.
fn helped(rt: &HostRuntime) -> Told {
    match help_text(rt.alloc()) {
        Ok(text) => match rt.print(&text) {
            Ok(()) => plain(0),
            Err(_) => plain(6),
        },
        Err(_) => plain(7),
    }
}

/// Says on a second line what to do.
fn report_advice(rt: &impl Eprint, status: u8, store: &str) -> io::Result<()> {
    match status {
        4 => eprintln!(rt;
            "no frame begins there in the input: before each reply file write FILE, a space, the number of its bytes and a line feed; {store} is as before"
        ),
        5 => eprintln!(rt;
            "the input couldn't be read to its end: run again; {store} is as before"
        ),
        6 => eprintln!(rt;
            "the standard output took no more: see to it, and run again; files that are in {store} by now change nothing"
        ),
        8 => eprintln!(rt;
            "{store} can't be read or written: see that it is a file of yours, with room on its disk"
        ),
        15 => eprintln!(rt;
            "{store} is no register of this program, or was damaged: put it back as it was, or name another"
        ),
        _ => Ok(()),
    }
}
