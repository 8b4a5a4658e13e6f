//! The files that the arguments of a command name.

use ofx_types::Text;
use program_arguments::{named, text_at};
use std::{fs, io};

/// The offset of the word that names the setup.
const SETUP: usize = 1;

/// The offset of the word that names the records.
const RECORDS: usize = 2;

/// The words that name the setup and the records.
#[derive(Clone, Copy)]
pub struct Files<'a> {
    /// The file of the setup; `-` names none.
    pub setup: &'a str,
    /// The records; `-` keeps them in memory. None where no word names them.
    pub records: Option<&'a str>,
}

impl<'a> Files<'a> {
    /// The files that the arguments of a command name.
    pub fn of(arguments: &'a [Text]) -> Files<'a> {
        Files {
            setup: text_at(arguments, SETUP),
            records: named(arguments, RECORDS),
        }
    }

    /// The word of the records, empty where there is none.
    pub fn records_word(&self) -> &'a str {
        self.records.unwrap_or("")
    }
}

/// The file of a setup. An error where there is none.
pub fn setup_file(rt: &HostRuntime, path: &str) -> io::Result<fs::File> {
    match path {
        "-" => Err(io::Error::from(io::ErrorKind::NotFound)),
        path => fs::open(rt, path),
    }
}
