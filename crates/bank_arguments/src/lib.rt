//! The arguments of the bank's program: the commands, what their arguments say, and what is wrong where they have no form.
//!
//! `command_of` reads a command line once. Everything after it takes the `Command`.
#![tactic(auto)]

mod answer;
mod command;
mod letter;
mod mistake;
mod plan;
mod reading;
mod seed;
mod topic;

pub use command::{AnswerArguments, Command, LetterArguments, Plan};
pub use mistake::Mistake;
pub use plan::plan_of;
pub use reading::command_of;
pub use topic::{Topic, path_mistake};
