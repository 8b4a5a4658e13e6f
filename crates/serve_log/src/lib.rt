//! The log of a server: a line on the error stream for each exchange, for each fault of the keeper of the records, and for what
//! keeps links from coming in.
//!
//! The adapters wrap a doorway, its links and a keeper. They pass each call on, look at what goes through, and answer what links
//! and keeper answer. No line has a password, the number of an account or a body, and nobody waits for one to be read.
#![tactic(auto)]

mod access_line;
mod access_log;
mod door;
mod door_lines;
mod keeper;
mod level;
mod link;
mod reply;
mod request;
mod roster;
mod stamp;
mod watch;

pub use access_log::AccessLog;
pub use door::LoggedDoor;
pub use keeper::LoggedKeeper;
pub use level::Level;
pub use link::LoggedLink;
pub use roster::Roster;
