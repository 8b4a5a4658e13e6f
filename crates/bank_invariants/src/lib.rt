//! What is true of every state that a bank comes to, over the rules of `bank_model`. Nothing here runs: each contract is a
//! law of the rules.
#![tactic(auto)]

pub mod laws;
