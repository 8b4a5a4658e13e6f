//! The files of records as a run meets them: made for their owner alone, bound to the setup that they began with, and where one
//! can't be opened, why. The keepers over them are in `sqlite_keeper` and `disk_keeper`.
//!
//! A setup is bound beside the keepers, which know nothing of it: in a second table of an SQLite file, and in a file beside one of
//! `disk:PATH`.
#![tactic(auto)]

mod beside;
mod cause;
mod database;
mod disk;
mod looking;
mod new_file;
mod privacy;
mod reading;
mod setup_lines;
mod setup_table;
mod sqlite_reading;
mod stopped;
mod wanted;

pub use beside::{bind_beside, find_beside};
pub use cause::{Binding, Cause, compared};
pub use database::{bind_sqlite, find_sqlite};
pub use disk::{make_on_disk, on_disk, open_on_disk, read_disk};
pub use looking::{cause_at, cause_of, is_there};
pub use new_file::{is_new_on_disk, is_new_sqlite};
pub use privacy::is_open_to_others;
pub use reading::ReadRecords;
pub use setup_lines::bound_text;
pub use sqlite_reading::read_sqlite;
pub use stopped::{why_stopped_on_disk, why_stopped_on_sqlite};
pub use wanted::wanted_in;
