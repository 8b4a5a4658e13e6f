//! The rules of the bank, as definitions over plain lists, and the setup of a bank's life.
//!
//! A `Setup` names the bank, its users and its accounts. What a bank in a state answers to an event, and the
//! state that it is in afterwards, are definitions in `specs/`; the crates above are proved against them.
#![tactic(auto)]

mod asked;
pub mod codes;
mod directory;
mod entry;
mod event;
pub mod laws;
mod log;
mod named;
mod objects;
mod once;
mod printer;
mod setup;
mod submit;

pub use asked::{is_after, is_positive};
pub use directory::{Directory, Keyed};
pub use entry::Entry;
pub use event::{Event, State};
pub use log::{Ending, LogItem};
pub use objects::is_poll;
pub use once::{KeptReply, UsedPair};
pub use printer::Printer;
pub use setup::{AccountLine, Accounts, Owners, Setup, SetupFault, User, Users};
pub use submit::SubmitFault;
