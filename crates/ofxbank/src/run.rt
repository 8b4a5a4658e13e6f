//! A run of a command: the setup is read, the records are bound to it and opened, and what comes of it is reported.

ghost use Rattle.std.specs.Prelude.{◌≡◌, false};

use crate::binding::{Unbound, are_new, bind_records};
use crate::check::checked;
use crate::end::End;
use crate::environment::Environment;
use crate::files::Files;
use crate::keepers::{ON_DISK, Unopened};
use crate::messages::{plain, report};
use crate::records_age::behind;
use crate::serve::{Service, served};
use crate::setup_file::SetupFile;
use crate::why::{report_new_records, report_open_files, report_port, report_why};
use bank_arguments::Command;
use bank_commands::command_told;
use bank_opening::report_of_end;
use machine_adapters::error_stream_has_room;
use ofx_ports::{Keeper, MemKeeper, MemSource, ReaderSource, Source, WriterSink};
use ofx_types::Told;
use record_files::on_disk;
use run_guards::SteadyClock;
use sqlite_keeper::SqliteKeeper;
use std::hash::RandomState;
use std::io;
use std::sync::Wait;
use std::thread::Threads;

/// Runs a command over these files, and answers the status.
///
/// Files are opened only here, since opening may wait, and may make the file of the records. The threads of a server are those
/// of `threads`.
pub fn run<R: Threads + Wait + Sync>(
    threads: &R,
    rt: &HostRuntime,
    command: Command<'_>,
    files: Files<'_>,
    environment: Environment,
) -> u8 {
    match command {
        Command::Check => checked(rt, files, environment),
        Command::Rehearse(_) => report(rt, rehearsed(*rt, command)),
        Command::Answer(_) | Command::Due | Command::Mail(_) | Command::Serve(_) => {
            run_bound(threads, rt, command, files, environment)
        }
    }
}

/// Runs a command over records that are bound to the setup first.
fn run_bound<R: Threads + Wait + Sync>(
    threads: &R,
    rt: &HostRuntime,
    command: Command<'_>,
    files: Files<'_>,
    environment: Environment,
) -> u8 {
    let Ok(setup) = SetupFile::read(rt, files.setup) else {
        return report(rt, plain(7));
    };
    let is_new = are_new(rt, files.records);
    let bound = bind_records(rt, files, &setup, environment);
    let end = match (command, bound) {
        (Command::Serve(plan), Ok(())) => {
            let service = Service {
                plan,
                files,
                setup: &setup,
                environment,
            };
            served(threads, rt, service)
        }
        (Command::Serve(_), Err(unbound)) => unserved(unbound),
        (_, Ok(())) => answered(rt, command, files, &setup, environment),
        (_, Err(unbound)) => unanswered(rt, command, &setup, unbound),
    };
    let End { told, port, cause } = end;
    if let Command::Serve(_) = command
        && !error_stream_has_room()
    {
        // Nobody reads the error stream, and the end isn't to wait for that.
        return told.status.0;
    }
    let status = report(rt, told);
    match (command, port) {
        (Command::Serve(plan), Some(fault)) => report_port(rt, plan.port, fault),
        _ => report_why(rt, told, command, files, &setup, cause),
    }
    match command {
        // A server has said it when it began to listen.
        Command::Serve(_) => {}
        Command::Due | Command::Mail(_) if status == 0 && is_new => {
            report_new_records(rt, files);
            report_open_files(rt, files, false);
        }
        _ => report_open_files(rt, files, status == 0),
    }
    status
}

/// The end of a server whose records aren't opened.
fn unserved(unbound: Unbound) -> End {
    match unbound {
        Unbound::Setup(stop) => End::of(report_of_end(Err(stop))),
        Unbound::Records(cause) => End::by_records(8, cause),
    }
}

/// The end of another run whose records aren't opened: that over a keeper that refuses every call.
fn unanswered(rt: &HostRuntime, command: Command<'_>, setup: &SetupFile, unbound: Unbound) -> End {
    let told = told_over(rt, command, setup, &mut Unopened::new());
    match unbound {
        Unbound::Setup(_) => End::of(told),
        Unbound::Records(cause) => End {
            told,
            port: None,
            cause: Some(cause),
        },
    }
}

/// The end of a run over its records: those of a file, or with `-` in memory.
fn answered(
    rt: &HostRuntime,
    command: Command<'_>,
    files: Files<'_>,
    setup: &SetupFile,
    environment: Environment,
) -> End {
    match files.records {
        Some("-") => End::of(told_over(rt, command, setup, &mut MemKeeper::new(rt.alloc()))),
        Some(path) => match path.strip_prefix(ON_DISK) {
            Some(file) => over_disk(rt, command, setup, file, environment),
            None => run_over(
                rt,
                command,
                setup,
                &mut SqliteKeeper::open(rt, path),
                environment,
            ),
        },
        None => End::plain(2),
    }
}

/// The end of a run over the records in a file on a disk. Where it can't be opened, each call of the keeper fails.
fn over_disk(
    rt: &HostRuntime,
    command: Command<'_>,
    setup: &SetupFile,
    path: &str,
    environment: Environment,
) -> End {
    match on_disk(rt, path) {
        Ok(mut keeper) => run_over(rt, command, setup, &mut keeper, environment),
        Err(_) => End::of(told_over(rt, command, setup, &mut Unopened::new())),
    }
}

/// The end of a run over records in a file, which doesn't begin where they lie too far behind the clock that it reads.
fn run_over<K: Keeper>(
    rt: &HostRuntime,
    command: Command<'_>,
    setup: &SetupFile,
    keeper: &mut K,
    environment: Environment,
) -> End
    requires { K.unsettled keeper.old ≡ false }
{
    if let Some(cause) = behind(rt, keeper, days_asked(command, environment)) {
        return End::by_records(8, cause);
    }
    End::of(told_over(rt, command, setup, keeper))
}

/// How many days the records may lie behind the clock. None where a command doesn't read it.
fn days_asked(command: Command<'_>, environment: Environment) -> Option<u64> {
    match command {
        Command::Answer(arguments) if arguments.at.is_some() => None,
        _ => environment.max_days,
    }
}

/// The end of a rehearsal, which opens no file.
fn rehearsed(rt: HostRuntime, command: Command<'_>) -> Told {
    match MemSource::new(rt.alloc(), b"") {
        Ok(mut setup) => reported_over(rt, command, &mut setup, &mut MemKeeper::new(rt.alloc())),
        Err(_) => plain(7),
    }
}

/// The end of a run over the setup that was read.
fn told_over<K: Keeper>(
    rt: &HostRuntime,
    command: Command<'_>,
    setup: &SetupFile,
    keeper: &mut K,
) -> Told
    requires { K.unsettled keeper.old ≡ false }
{
    match setup.source(rt.alloc()) {
        Ok(mut setup) => reported_over(*rt, command, &mut setup, keeper),
        Err(_) => plain(7),
    }
}

/// The end of a run over a setup, the standard input and the standard output. The keys of hashes are the system's random
/// bytes; where it has none to read, the run ends as where a read failed.
fn reported_over<A: Source, K: Keeper>(
    rt: HostRuntime,
    command: Command<'_>,
    setup: &mut A,
    keeper: &mut K,
) -> Told
    requires { K.unsettled keeper.old ≡ false }
{
    let Ok(keys) = RandomState::new(&rt) else {
        return plain(5);
    };
    let alloc = rt.alloc();
    let mut input = ReaderSource::new(rt.stdin());
    let mut out = WriterSink::new(io::writer(&rt));
    let mut clock = SteadyClock::new(&rt);
    command_told(
        alloc, keys, command, setup, &mut input, &mut out, keeper, &mut clock,
    )
}
