//! Records kept for good in one file that survives a crash within any write.
#![tactic(auto)]

mod appending;
mod begun;
mod change;
mod disk;
mod fault;
mod file;
mod keeper;
mod memory;
mod reading;

pub use change::{Bytes, Change};
pub use disk::Disk;
pub use fault::DiskFault;
pub use file::FileDisk;
pub use keeper::DiskKeeper;
pub use memory::MemDisk;
