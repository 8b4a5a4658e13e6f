//! Tests of the keepers of files of records, by public calls: the one over SQLite, and the one on a disk, with every stop and
//! crash of short runs over a disk in memory.
#![tactic(auto)]

#[cfg(test)]
mod crashes;
#[cfg(test)]
mod disk;
#[cfg(test)]
mod offsets;
#[cfg(test)]
mod sqlite_file;
