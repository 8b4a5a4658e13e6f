//! What a client gets from a bank: statements of accounts, and histories of objects.
#![tactic(auto)]

mod history;
mod statement;
mod tokens;

pub use history::{is_lost, newest, replies_of_history};
pub use statement::statement_of;
pub use tokens::{number_text, token_of};
