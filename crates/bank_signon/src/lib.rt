//! What the bytes of a file are to a bank of a setup: an event or a poll of a user who signs on, a failed signon, or no file
//! at all. How the bytes came is nothing to this crate.
#![tactic(auto)]

mod denied;
mod judging;

pub use denied::denial_text;
pub use judging::{Judgement, judge};
