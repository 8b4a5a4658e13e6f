//! The usage of `ofxbank` and the help of its commands, as clap renders them. No argument is read here, and no promise covers
//! the texts.
#![tactic(auto)]

mod texts;
mod usage;

pub use texts::VERSION;
pub use usage::{command_help, program_help};
