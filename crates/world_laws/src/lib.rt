//! What joins a served bank and a customer's program to the world of `ofx_world`, so that what is proved of the world holds of
//! them.
//!
//! The log of a served bank is a run of the world's bank (`bank`), and its clients stay right beside it (`clients`). All stores of a
//! client stay right at once (`stores`). A run of the customer's program is what its client does in the world (`program`). Nothing
//! here runs: each contract is a law.
#![tactic(auto)]

mod bank;
mod clients;
mod program;
mod stores;

pub use bank::{journals_are_runs, logs_are_runs, sound_servers_go_on, trials_go_on};
pub use clients::clients_stay_right;
pub use program::{acts_are_steps, runs_are_acts};
pub use stores::acts_keep_stores;
