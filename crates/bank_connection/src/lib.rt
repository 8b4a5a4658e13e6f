//! A connection over HTTP: requests are read from a link, their files go to an office, and the replies are written to the link.
//!
//! `serve_link` carries the theorem about every byte of a connection: the bytes read are requests, the bytes written are the
//! replies to them over one legal log of the bank, and it ends for one of the causes that are named. Which bank comes after
//! the office, and how many connections it has, is nothing to this crate.
#![tactic(auto)]

mod answer;
mod exchange;
pub mod laws;
mod office;
mod serve;

pub use http_link::{ServeError, Served};
pub use office::Office;
pub use serve::serve_link;
