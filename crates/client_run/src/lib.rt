//! Runs of the customer's program: the client that is kept is found, the file of a wish is made, sent and answered, and what the
//! reply makes of the client is saved and reported.
//!
//! The clauses of `order_told` say what a run sent, saved and printed, and why it ended. Those of `client_told` say the same in
//! terms of the arguments.
#![tactic(auto)]

mod calling;
mod checking;
mod client;
mod keeping;
pub mod laws;
mod lines;
mod making;
mod ports;
mod printing;
mod sending;
mod showing;
mod status;
mod stop;
mod waiting;

pub use client::{client_run, client_told, order_told};
pub use ports::Ports;
pub use stop::{CallStop, ClientStop, StoreOpenFault};
pub use waiting::waiting_told;
