//! The command `serve`: the bank over HTTP, for many connections at once.

ghost use Rattle.std.specs.Prelude.{◌≡◌, false};

use crate::end::{End, PortFault};
use crate::environment::Environment;
use crate::files::Files;
use crate::keepers::{ON_DISK, Unopened};
use crate::messages::{plain, report_listening, report_served, report_too_few_files};
use crate::records_age::behind;
use crate::setup_file::SetupFile;
use crate::why::report_open_files;
use bank_arguments::Plan;
use bank_server::{AllEnd, open_shared, serve_all};
use bank_shared::{BankName, Opened};
use machine_adapters::{LinkLimits, SocketDoor, error_stream_has_room, max_open_files};
use ofx_file::OfxPrinter;
use ofx_ports::{Keeper, MemKeeper, OpenGate, listen};
use ofx_types::{OutOfMemory, Told};
use record_files::{Cause, on_disk};
use run_guards::{Latch, LatchedKeeper, Losable, SteadyClock};
use serve_log::{AccessLog, LoggedDoor, LoggedKeeper, Roster};
use sqlite_keeper::SqliteKeeper;
use std::hash::RandomState;
use std::io;
use std::io::ErrorKind;
use std::marker::Brand;
use std::net::TcpListener;
use std::sync::{Arc, Wait};
use std::thread::Threads;

/// A doorway on this machine, each exchange of whose links is reported as far as the log's level covers it.
type Door = LoggedDoor<TcpListener, HostRuntime, HostRuntime>;

/// A worker's doorway and its clock.
type Worker = (Door, SteadyClock);

/// What a server is asked: how it serves, and over which files.
#[derive(Clone, Copy)]
pub struct Service<'a> {
    /// Where it listens, and how many workers and connections it has.
    pub plan: Plan,
    /// The files of the setup and of the records.
    pub files: Files<'a>,
    /// The setup that was read.
    pub setup: &'a SetupFile,
    /// What the environment asks.
    pub environment: Environment,
}

/// The end of serving a bank over its records: those of a file, or in memory with `-`. The threads are those of `threads`.
pub fn served<R: Threads + Wait + Sync>(
    threads: &R,
    rt: &HostRuntime,
    service: Service<'_>,
) -> End {
    match service.files.records {
        Some("-") => served_over(threads, rt, service, MemKeeper::new(rt.alloc())),
        Some(path) => match path.strip_prefix(ON_DISK) {
            Some(file) => served_on_disk(threads, rt, service, file),
            None => served_over(threads, rt, service, SqliteKeeper::open(rt, path)),
        },
        None => End::plain(2),
    }
}

/// The end of serving over the records in a file on a disk. Where it can't be opened, each call of the keeper fails.
fn served_on_disk<R: Threads + Wait + Sync>(
    threads: &R,
    rt: &HostRuntime,
    service: Service<'_>,
    path: &str,
) -> End {
    match on_disk(rt, path) {
        Ok(keeper) => served_over(threads, rt, service, keeper),
        Err(_) => served_over(threads, rt, service, Unopened::new()),
    }
}

/// The end of serving over the setup that was read and the records of this keeper.
fn served_over<R: Threads + Wait + Sync, K: Keeper + Losable + Send>(
    threads: &R,
    rt: &HostRuntime,
    service: Service<'_>,
    keeper: K,
) -> End
    requires { K.Keeper.unsettled keeper ≡ false }
{
    let mut keeper = keeper;
    if let Some(cause) = behind(rt, &mut keeper, service.environment.max_days) {
        return End::by_records(8, cause);
    }
    let Ok(keys) = RandomState::new(rt) else {
        return End::plain(5);
    };
    let Service {
        plan,
        files,
        setup,
        environment,
    } = service;
    let Ok(mut setup) = setup.source(rt.alloc()) else {
        return End::plain(7);
    };
    let Ok(latch) = Arc::new(rt.alloc(), Latch::new()) else {
        return End::plain(7);
    };
    let Ok(kept) = Arc::try_clone(&latch) else {
        return End::plain(7);
    };
    let count = keeper.len();
    let journal = AccessLog::new(*rt, environment.level);
    let logged = LoggedKeeper::over(LatchedKeeper::over(keeper, kept), journal);
    match open_shared(rt.alloc(), keys, &mut setup, logged, OfxPrinter) {
        Ok(mut opened) => {
            opened.bound_replies(environment.most_reply);
            let Ok(room) = Vec::with_capacity(rt.alloc(), plan.workers as usize) else {
                return End::plain(7);
            };
            // It lives until the last worker has ended, since the latch may shut it.
            let listener = match listen(rt, plan.port) {
                Ok(listener) => listener,
                Err(error) => return End::without_port(port_fault(&error)),
            };
            let workers = match workers_at(rt, &listener, journal, plan, environment.limits, room) {
                Ok(workers) => workers,
                Err(error) => return End::without_port(port_fault(&error)),
            };
            latch.hold(&listener);
            report_listening(rt, plan.port, files.setup, files.records_word(), count);
            report_open_files(rt, files, false);
            warn_of_few_files(rt, plan.workers);
            let told = all_served::<Brand, _, _>(threads, rt, opened, workers, plan.most);
            drop(listener);
            ended(told, latch.is_shut())
        }
        Err((reported, _keeper)) => End::of(reported),
    }
}

/// The end of all workers. Where they ended since the file of the records is lost, that is the cause.
fn ended(told: Told, is_lost: bool) -> End {
    if is_lost {
        End {
            told,
            port: None,
            cause: Some(Cause::Lost),
        }
    } else {
        End::of(told)
    }
}

/// How many files a server has open beside the doorway and the link of each worker: its streams, the records and their folder.
const OTHER_FILES: u64 = 16;

/// Warns where fewer files may be open than so many workers need at once.
fn warn_of_few_files(rt: &HostRuntime, workers: u32) {
    let needed = 2 * u64::from(workers) + OTHER_FILES;
    if let Some(most) = max_open_files()
        && most < needed
    {
        report_too_few_files(rt, most, workers, needed);
    }
}

/// Why a port can't be had, by the error of the system.
fn port_fault(error: &io::Error) -> PortFault {
    match error.kind() {
        ErrorKind::AddrInUse => PortFault::Busy,
        ErrorKind::PermissionDenied => PortFault::NoRights,
        _ => PortFault::Other,
    }
}

/// A doorway at the listener and a clock for each worker, in the room that was made for them. An error where too many files are
/// open.
fn workers_at(
    rt: &HostRuntime,
    listener: &TcpListener,
    journal: AccessLog<HostRuntime>,
    plan: Plan,
    limits: LinkLimits,
    room: Vec<Worker>,
) -> io::Result<Vec<Worker>> {
    let clock = SteadyClock::new(rt);
    let roster = Roster::of(rt.alloc(), plan.workers)?;
    let mut workers = room;
    for index in 0..plan.workers {
        let listed = roster.share()?;
        let door = SocketDoor::at(*rt, listener.try_clone()?, limits);
        let logged = LoggedDoor::over(door, rt.alloc(), journal, index + 1, listed);
        workers.push((logged, clock.telling()))?;
    }
    Ok(workers)
}

/// The end of all workers over a bank that has opened.
fn all_served<N: BankName + Send + Sync, R: Threads + Wait + Sync, K: Keeper + Send>(
    threads: &R,
    rt: &HostRuntime,
    opened: Opened<K, OfxPrinter>,
    workers: Vec<Worker>,
    most: u32,
) -> Told
    requires setup { opened.setup ≡ N.setup }
    requires opening { opened.state ≡ N.opening }
    requires first { opened.opened ≡ N.first }
    requires board { opened.board ≡ N.board }
    requires tables { opened.tables ≡ N.tables }
{
    match serve_all::<N, _, _, _, _, _, _, _>(
        threads,
        rt.alloc(),
        opened,
        workers,
        &OpenGate,
        most,
    ) {
        Ok(all) => {
            // Where nobody reads the error stream, the end isn't to wait for that.
            if error_stream_has_room() {
                report_served(rt, served_in(&all));
            }
            plain(all.status.0)
        }
        Err(OutOfMemory) => plain(7),
    }
}

/// How many links all workers served.
fn served_in(all: &AllEnd<Door, SteadyClock>) -> u64 {
    let mut links = 0u64;
    for worked in &all.ends {
        links = links.saturating_add(u64::from(worked.end.served));
    }
    links
}
