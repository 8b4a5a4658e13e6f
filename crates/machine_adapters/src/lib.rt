//! What a server asks of its machine, with no wait that is without end: a doorway over a TCP listener and links over its streams,
//! whether somebody takes what goes to the error stream, and how many files may be open.
//!
//! On a link a request's head and its body have a deadline each. One on which no request begins is given up sooner where
//! others wait to be let in, and a link that has ended waits for its peer only as long as nobody else does.
#![tactic(auto)]

mod descriptor;
mod door;
mod limits;
mod link;
mod open_files;
mod part;
mod stream;

pub use descriptor::error_stream_has_room;
pub use door::{AcceptFault, SocketDoor};
pub use limits::{BODY_SECONDS, HEAD_SECONDS, LinkLimits};
pub use link::SocketLink;
pub use open_files::max_open_files;
