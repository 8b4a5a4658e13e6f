//! The arguments of the customer's program: where they have a form, and what they order.
//!
//! `order_of` reads `PORT STORE CLIENT USER PASS BANK` and the arguments of one command after them.
#![tactic(auto)]

mod account;
mod command;
mod day;
mod fault;
mod mistake;
mod number;
mod order;
mod payment;
mod reading;
mod verb;

pub use fault::ArgumentsFault;
pub use mistake::{Mistake, mistake_in};
pub use order::Order;
pub use reading::order_of;
pub use verb::Verb;
