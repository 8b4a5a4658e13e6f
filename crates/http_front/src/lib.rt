//! The heads of HTTP messages: a request's and a reply's head read, and the two that are written.
//!
//! `read_request` and `read_response` look at the bytes that have come so far, and answer what a head at their start
//! says, that more of it is awaited, or that it is bad. They take no memory. `write_head` and `write_post` append the
//! head of a reply and of the client's request.
#![tactic(auto)]

mod fields;
mod head;
pub mod laws;
mod request;
mod response;
mod writing;

pub use head::{Head, HeadFault, ReplyHead};
pub use request::read_request;
pub use response::read_response;
pub use writing::{HEAD_ROOM, write_head, write_post};
