//! What the bank and a client come to together: a store that is right is right after the bank's own reply, all stores of a client
//! are, and a client accepts the bank's reply to its outstanding file. A client may take in every reply that bytes spell.
//!
//! Nothing here runs in a program: one call takes a reply in as a client does, and the contracts are laws.
#![tactic(auto)]

mod accepting;
mod answering;
mod spelled;
mod stores;

pub use accepting::accept_bank_reply;
pub use answering::bank_replies_answer;
pub use spelled::spelled_replies_are_sound;
pub use stores::all_stores_hold;
