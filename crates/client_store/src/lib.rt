//! What a client keeps of an object of the bank: a token and the rows that belong to it, and how a reply changes them.
//!
//! `Store` is what is kept of one object, and `Row` one of its rows. `Store::take` takes a reply to a synchronisation in.
#![tactic(auto)]

mod changes;
mod row;
mod row_index;
mod rows;
mod store;

pub use row::Row;
pub use store::Store;
