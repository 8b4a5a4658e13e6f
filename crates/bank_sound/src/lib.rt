//! Whether a request file, and a letter of the bank, may be handed to a bank: each of its values is within its bounds.
//! Accounts, transfers, amounts, ids and series are decided on by themselves too.
//!
//! Nothing here takes memory.
#![tactic(auto)]

mod deed;
mod file;
mod value;

pub use deed::{is_id, is_sound_amount, is_sound_info, is_sound_letter, is_sound_recur};
pub use file::is_sound;
pub use value::is_sound_account;
