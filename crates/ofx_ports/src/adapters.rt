//! The adapters: they wrap the standard library's readers, writers, files, sockets and clocks,
//! and say nothing of what those hold.

pub mod file_store;
pub mod folder;
pub mod reader;
pub mod system_clock;
pub mod tcp_door;
pub mod tcp_link;
pub mod writer;

// How often a call that a signal cut short is made again before it counts as a fault.
const TRIES: u32 = 64;
