//! The command `check`: a setup and records are read, and what was found is reported. Nothing is written.

ghost use Rattle.std.specs.Prelude.{◌≡◌, false};

use crate::binding::are_there;
use crate::environment::Environment;
use crate::files::Files;
use crate::keepers::ON_DISK;
use crate::messages::{plain, report};
use crate::setup_file::SetupFile;
use crate::totals::{Totals, amount_text, day_text, totals_of};
use crate::why::{report_open_files, report_why};
use bank_arguments::Command;
use bank_model::Setup;
use bank_opening::report_of_end;
use ofx_ports::Keeper;
use ofx_types::Told;
use record_files::{
    Binding, Cause, ReadRecords, cause_at, compared, find_beside, is_there, read_disk, read_sqlite,
};
use std::hash::RandomState;
use std::io;

/// The end of a check: what is reported of it, and why the records can't be opened.
type End = (Told, Option<Cause>);

/// Checks the setup and the records that the arguments name, and answers the status.
pub fn checked(rt: &HostRuntime, files: Files<'_>, environment: Environment) -> u8 {
    let Ok(setup) = SetupFile::read(rt, files.setup) else {
        return report(rt, plain(7));
    };
    let (end, cause) = checked_setup(rt, files, &setup, environment);
    let status = report(rt, end);
    report_why(rt, end, Command::Check, files, &setup, cause);
    report_open_files(rt, files, status == 0);
    status
}

/// Checks the setup, and then the records, where there are any.
fn checked_setup(
    rt: &HostRuntime,
    files: Files<'_>,
    file: &SetupFile,
    environment: Environment,
) -> End {
    let setup = match file.setup(rt.alloc()) {
        Ok(setup) => setup,
        Err(stop) => return (report_of_end(Err(stop)), None),
    };
    if report_of_setup(rt, files.setup, &setup).is_err() {
        return (plain(6), None);
    }
    drop(setup);
    if environment.expects_records
        && let Err(cause) = are_there(rt, files.records)
    {
        return (plain(8), Some(cause));
    }
    match files.records {
        None => (plain(0), None),
        Some("-") => ended(rt.println("records -: a run keeps none")),
        Some(path) => checked_at(rt, path, file),
    }
}

/// Prints what was found in the setup.
fn report_of_setup(rt: &HostRuntime, path: &str, setup: &Setup) -> io::Result<()> {
    let users = setup.users.items().len();
    let accounts = setup.accounts.items().len();
    let objects = accounts.saturating_mul(3).saturating_add(users);
    println!(rt; "setup {path}: {users} users, {accounts} accounts, {objects} objects")
}

/// The end where all that was left to do was to print.
fn ended(printed: io::Result<()>) -> End {
    match printed {
        Ok(()) => (plain(0), None),
        Err(_) => (plain(6), None),
    }
}

/// Checks the records at a path.
fn checked_at(rt: &HostRuntime, path: &str, file: &SetupFile) -> End {
    let offset = path.strip_prefix(ON_DISK).unwrap_or(path);
    if !is_there(rt, offset) {
        return match cause_at(rt, offset) {
            Some(cause) => (plain(8), Some(cause)),
            None => ended(report_none(rt, path)),
        };
    }
    let found = match path.strip_prefix(ON_DISK) {
        Some(offset) => checked_on_disk(rt, offset, file),
        None => checked_in_sqlite(rt, offset, file),
    };
    match found {
        Ok((totals, binding)) => reported_of(rt, path, totals, binding),
        Err(end) => end,
    }
}

fn report_none(rt: &HostRuntime, path: &str) -> io::Result<()> {
    println!(rt; "records {path}: there is no such file; a run makes it")
}

/// Says what was found in records that open.
fn reported_of(rt: &HostRuntime, path: &str, totals: Totals, binding: Binding) -> End {
    let (Ok(day), Ok(sum)) = (
        day_text(rt.alloc(), totals.last),
        amount_text(rt.alloc(), totals.sum),
    ) else {
        return (plain(7), None);
    };
    ended(report_totals(rt, path, totals, (day.as_str(), sum.as_str()), binding))
}

/// Prints what was found in records, with the business day and the sum of balances.
fn report_totals(
    rt: &HostRuntime,
    path: &str,
    totals: Totals,
    texts: (&str, &str),
    binding: Binding,
) -> io::Result<()> {
    let Totals {
        records,
        entries,
        ..
    } = totals;
    let (day, sum) = texts;
    println!(rt;
        "records {path}: {records} records, {entries} entries, business day {day}, balances {sum}"
    )?;
    match binding {
        Binding::Bound => Ok(()),
        Binding::Unbound => println!(rt;
            "records {path}: bound to no setup; the next run binds them to this one"
        ),
    }
}

/// Reads the records of a file on a disk.
fn checked_on_disk(
    rt: &HostRuntime,
    path: &str,
    file: &SetupFile,
) -> Result<(Totals, Binding), End> {
    let keeper = match read_disk(rt, path) {
        Ok(keeper) => keeper,
        Err(cause) => return Err((plain(8), Some(cause))),
    };
    match keeper {
        None => Ok((
            counted(rt, &mut ReadRecords::none(rt.alloc()), file)?,
            Binding::Unbound,
        )),
        Some(mut keeper) => {
            let binding = bound_beside(rt, path, file)?;
            Ok((counted(rt, &mut keeper, file)?, binding))
        }
    }
}

fn bound_beside(rt: &HostRuntime, path: &str, file: &SetupFile) -> Result<Binding, End> {
    let Ok(lines) = file.lines(rt.alloc()) else {
        return Err((plain(7), None));
    };
    match find_beside(rt, path, lines.as_str()) {
        Ok(binding) => Ok(binding),
        Err(cause) => Err((plain(8), Some(cause))),
    }
}

/// Reads the records of an SQLite file.
fn checked_in_sqlite(
    rt: &HostRuntime,
    path: &str,
    file: &SetupFile,
) -> Result<(Totals, Binding), End> {
    let mut found = match read_sqlite(rt, path) {
        Ok(found) => found,
        Err(cause) => return Err((plain(8), Some(cause))),
    };
    // For the proof alone: nothing was appended to what was read.
    found.is_unsettled = false;
    let binding = bound_within(rt, &found, file)?;
    Ok((counted(rt, &mut found, file)?, binding))
}

fn bound_within(rt: &HostRuntime, found: &ReadRecords, file: &SetupFile) -> Result<Binding, End> {
    let Some(began) = &found.lines else {
        return Ok(Binding::Unbound);
    };
    let Ok(lines) = file.lines(rt.alloc()) else {
        return Err((plain(7), None));
    };
    match compared(rt.alloc(), began.as_str(), lines.as_str()) {
        Ok(binding) => Ok(binding),
        Err(cause) => Err((plain(8), Some(cause))),
    }
}

fn counted<K: Keeper>(rt: &HostRuntime, keeper: &mut K, file: &SetupFile) -> Result<Totals, End>
    requires { K.unsettled keeper.old ≡ false }
{
    let Ok(keys) = RandomState::new(rt) else {
        return Err((plain(5), None));
    };
    match totals_of(rt.alloc(), keys, keeper, file) {
        Ok(totals) => Ok(totals),
        Err(reported) => Err((reported, None)),
    }
}
