//! What a bank and a client ask of the outside: bytes to read and to write, records to keep, a text to keep, the time, links to
//! peers, and doorways where links come in. Each is a trait whose clauses say what a call does to what is known of the outside,
//! and count its faults. All that the memory forms hold is known, and their calls of given numbers fail. The adapters wrap the
//! standard library's readers, writers, files, sockets and clocks, and say nothing of what those hold. `write_whole` writes
//! bytes whole.
#![tactic(auto)]

mod adapters;
mod clock;
mod doorway;
mod fault;
mod gate;
mod keeper;
mod link;
mod memory;
mod output;
mod sink;
mod source;
mod store_keeper;

pub use adapters::file_store::FileStore;
pub use adapters::folder::folder_of;
pub use adapters::reader::ReaderSource;
pub use adapters::system_clock::SystemClock;
pub use adapters::tcp_door::{TcpDoor, listen};
pub use adapters::tcp_link::{LINK_SECONDS, TcpLink, connect};
pub use adapters::writer::WriterSink;
pub use clock::Clock;
pub use doorway::Doorway;
pub use fault::{Failed, FetchFault, PutFault};
pub use gate::{Gate, OpenGate};
pub use keeper::Keeper;
pub use link::Link;
pub use memory::clock::MemClock;
pub use memory::door::MemDoor;
pub use memory::keeper::MemKeeper;
pub use memory::link::MemLink;
pub use memory::schedule::Schedule;
pub use memory::sink::MemSink;
pub use memory::source::MemSource;
pub use memory::store::MemStore;
pub use output::write_whole;
pub use sink::Sink;
pub use source::Source;
pub use store_keeper::StoreKeeper;
