//! Which setup the records of a run belong to. They are bound to it before the run opens them.

ghost use Rattle.std.specs.Prelude.{◌≡◌, false};

use crate::environment::Environment;
use crate::files::Files;
use crate::keepers::ON_DISK;
use crate::setup_file::SetupFile;
use bank_opening::Stop;
use bank_replay::reopen;
use ofx_file::OfxPrinter;
use ofx_ports::Keeper;
use record_files::{
    Binding, Cause, bind_beside, bind_sqlite, cause_at, find_beside, find_sqlite, is_new_on_disk,
    is_new_sqlite, make_on_disk, open_on_disk,
};
use sqlite_keeper::SqliteKeeper;
use std::hash::RandomState;

/// Why the records of a run aren't opened.
#[derive(Drop)]
pub enum Unbound {
    /// The setup has no form, or can't be read.
    Setup(Stop),
    /// The records are bound to another setup, or can't be opened.
    Records(Cause),
}

/// Binds the records to the setup: new ones, and ones that are bound to none and open under it. Under
/// a setup that has no form, and where there are no records and the environment says that there are, nothing is opened or made.
pub fn bind_records(
    rt: &HostRuntime,
    files: Files<'_>,
    setup: &SetupFile,
    environment: Environment,
) -> Result<(), Unbound> {
    if let Err(stop) = setup.setup(rt.alloc()) {
        return Err(Unbound::Setup(stop));
    }
    if environment.expects_records
        && let Err(cause) = are_there(rt, files.records)
    {
        return Err(Unbound::Records(cause));
    }
    match bind_to(rt, files, setup) {
        Ok(()) => Ok(()),
        Err(cause) => Err(Unbound::Records(cause)),
    }
}

/// Why there are no records where there have to be some.
pub fn are_there(rt: &HostRuntime, records: Option<&str>) -> Result<(), Cause> {
    match records {
        None | Some("-") => Ok(()),
        Some(path) => {
            if !is_new_at(rt, path)? {
                return Ok(());
            }
            let file = path.strip_prefix(ON_DISK).unwrap_or(path);
            Err(cause_at(rt, file).unwrap_or(Cause::Expected))
        }
    }
}

/// Whether a run makes the file of the records.
pub fn are_new(rt: &HostRuntime, records: Option<&str>) -> bool {
    match records {
        None | Some("-") => false,
        Some(path) => is_new_at(rt, path).unwrap_or(false),
    }
}

/// Whether the file of these records isn't there, or has nothing in it.
fn is_new_at(rt: &HostRuntime, path: &str) -> Result<bool, Cause> {
    match path.strip_prefix(ON_DISK) {
        Some(file) => Ok(is_new_on_disk(rt, file)),
        None => is_new_sqlite(rt, path),
    }
}

/// Binds the records to a setup that has its form.
fn bind_to(rt: &HostRuntime, files: Files<'_>, setup: &SetupFile) -> Result<(), Cause> {
    let Ok(lines) = setup.lines(rt.alloc()) else {
        return Err(Cause::NoMemory);
    };
    match files.records {
        None | Some("-") => Ok(()),
        Some(path) => match path.strip_prefix(ON_DISK) {
            Some(file) => bind_on_disk(rt, file, setup, lines.as_str()),
            None => bind_in_sqlite(rt, path, setup, lines.as_str()),
        },
    }
}

/// Binds the records of an SQLite file.
fn bind_in_sqlite(
    rt: &HostRuntime,
    path: &str,
    setup: &SetupFile,
    lines: &str,
) -> Result<(), Cause> {
    match find_sqlite(rt, path, lines)? {
        Binding::Bound => Ok(()),
        Binding::Unbound => {
            let mut keeper = SqliteKeeper::open(rt, path);
            let opens = opens(rt, &mut keeper, setup);
            drop(keeper);
            if opens {
                bind_sqlite(rt, path, lines)
            } else {
                Ok(())
            }
        }
    }
}

/// Binds the records of a file on a disk.
fn bind_on_disk(rt: &HostRuntime, path: &str, setup: &SetupFile, lines: &str) -> Result<(), Cause> {
    if let Some(_made) = make_on_disk(rt, path)? {
        return bind_beside(rt, path, lines);
    }
    match find_beside(rt, path, lines)? {
        Binding::Bound => Ok(()),
        Binding::Unbound => {
            let mut keeper = open_on_disk(rt, path)?;
            if opens(rt, &mut keeper, setup) {
                bind_beside(rt, path, lines)
            } else {
                Ok(())
            }
        }
    }
}

/// Whether a bank of this setup opens from these records.
fn opens<K: Keeper>(rt: &HostRuntime, keeper: &mut K, setup: &SetupFile) -> bool
    requires { K.unsettled keeper.old ≡ false }
{
    match (setup.setup(rt.alloc()), RandomState::new(rt)) {
        (Ok(setup), Ok(keys)) => reopen(rt.alloc(), keys, keeper, setup, OfxPrinter).is_ok(),
        _ => false,
    }
}
