//! What guards a run on a bad day: a clock that is held back where it goes ahead, and a keeper that shuts the server's listener
//! where its file is lost. The guards answer what is beneath them otherwise.
#![tactic(auto)]

mod latch;
mod latched_keeper;
mod steady_clock;

pub use latch::Latch;
pub use latched_keeper::{LatchedKeeper, Losable};
pub use steady_clock::SteadyClock;
