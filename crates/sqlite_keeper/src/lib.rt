//! Records kept for good in one SQLite file: a keeper over the kit's `sqlite`. The file has one table, with a number
//! and the record's bytes in each row. A record is on the disk before it is acknowledged. The keeper tells no
//! records: what it promises is what every keeper does about its size, its faults and what is to be settled, and that
//! one over a file that couldn't be opened refuses every call.
#![tactic(auto)]

mod file;
mod keeper;
mod named;
mod refusal;
mod table;

pub use keeper::SqliteKeeper;
pub use refusal::Refusal;
pub use table::{RECORDS_TABLE, greatest_number, has_records_table, has_table, is_blank};
