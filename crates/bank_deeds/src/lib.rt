//! Deeds, due work and letters: what each adds to a draft.
#![tactic(auto)]

mod deed;
mod due;
mod entries;
mod mail;
mod models;
mod names;
mod pending;
mod rows;
mod transfers;

pub use deed::answer_deed;
pub use due::{post, spawn};
pub use mail::letter;
