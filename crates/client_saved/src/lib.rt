//! The saved text of a client: what a client knows, written and read, in one coding of version 1.
//!
//! `write_state` writes what a client knows and `read_state` reads it, or tells the offset of the first field without a form.
//! The laws tell that each state has one text and each text one state or one fault.
#![tactic(auto)]

pub mod laws;
mod name;
mod objects;
mod outstanding;
mod row;
mod state;
mod store;
mod text;
mod transfer;

pub use name::is_name;
pub use objects::{has_store, is_same_object};
pub use state::{ClientState, Outstanding, StoreFault, Stores};
pub use text::{read_state, write_state};
