//! The client of a bank: what it knows, the files that it makes for what its user wishes, and what a reply makes of it.
//!
//! `Client::make_file` makes the file of a wish, which is outstanding from then on. `Client::accept` takes its reply in and tells
//! what is to be printed. `Client::save_text` and `Client::load_text` keep what a client knows between two runs.
#![tactic(auto)]

mod accepting;
mod answering;
mod client;
mod content;
mod fault;
mod making;
mod polling;
mod report;
mod reporting;
mod stores;
mod uids;
mod wish;

pub use answering::first_unanswered;
pub use client::Client;
pub use content::Content;
pub use fault::ClientFault;
pub use report::{Report, ReportLines};
pub use wish::Wish;
