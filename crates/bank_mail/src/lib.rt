//! Mail: the mails of each object, and what is refused of a mail.
//!
//! `judge_bank_mail` and `judge_mail` give the code of a deed. `Mails` holds the mails of each object in order; its
//! contracts say what it answers by the list of entries that it stands for.
#![tactic(auto)]

mod held;
mod judging;
pub mod laws;
mod mails;

pub use judging::{judge_bank_mail, judge_mail};
pub use mails::Mails;
