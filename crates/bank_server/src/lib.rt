//! The bank as a server: connections to a bank that many callers share, the workers that serve them, and how the bank opens for it.
//!
//! `open_shared` reads the setup and opens the bank; `serve_open` judges the arguments first. `serve_all` begins the bank and
//! has a worker for each doorway, in a thread of its own where one can be made. A worker does what is due and serves one
//! connection after another, each by `serve_connection`.
#![tactic(auto)]

mod connection;
mod jobs;
mod open;
mod worker;
mod workers;

pub use connection::serve_connection;
pub use open::{open_shared, serve_open};
pub use worker::{WorkerEnd, serve_worker};
pub use workers::{AllEnd, Worked, serve_all};
