//! The laws of synchronisation, over the rules of `bank_model`. Nothing here runs: each contract is a law.
//!
//! A client keeps a store of each object: a token, and the rows that belong to it. When it takes the bank's reply to a
//! synchronisation, the store holds the rows that belong to the new token, or the reply says that synchronisation is lost;
//! and whatever the bank does meanwhile, a store that is right stays right.
#![tactic(auto)]

mod histories;
mod stores;

pub use histories::{histories_are_in_order, histories_grow};
pub use stores::{
    empty_stores_are_right, rows_are_those_of_the_entries, stores_are_lost_where_the_reply_says_so,
    stores_are_right_by_refresh, stores_are_right_by_token, stores_stay_right,
    strangers_stores_are_lost, token_alone_leaves_stores,
};
