//! The messages of PostgreSQL's protocol 3.0 that a keeper of records sends and hears.
//!
//! Whatever bytes came from a server, `read_message` finds a whole message at their start, or that more has to come, or the
//! offset at which they are no message. Messages that the keeper never asks for are none. Nothing is copied: a message is
//! slices of the bytes. `put_message` writes what a client sends.
#![tactic(auto)]

mod body;
mod fields;
mod kind;
pub mod laws;
mod message;
mod reading;
mod request;
mod texts;
mod values;
mod writing;

pub use message::{BackendMessage, Reading};
pub use reading::{MAX_LENGTH, read_message};
pub use request::{FrontendMessage, WriteFault};
pub use texts::Texts;
pub use values::Values;
pub use writing::{put_array, put_message};
