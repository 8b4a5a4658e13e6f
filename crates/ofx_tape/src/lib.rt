//! The tags of a body as a tape: its elements and aggregates in order, as slices of the body.
//!
//! `Tape::read` reads a body in one pass and copies no byte of it. What a value stands for is decoded only where it is
//! asked for, by `value_eq`, `value_into` and `short_value`.
#![tactic(auto)]

mod entities;
pub mod laws;
mod names;
mod reader;
mod scan;
mod tape;
mod value;

pub use entities::SHORT_VALUE;
pub use ofx_types::TapeFault;
pub use tape::{Node, Tape};
pub use value::{short_value, value_eq, value_into};
