//! What the customer's program asks of its machine: a link to the bank that connects anew where a connection has ended, and the
//! lock by which one run at a time has a store.
#![tactic(auto)]

mod bank_link;
mod reply_head;
mod store_lock;

pub use bank_link::BankLink;
pub use store_lock::{LockFault, StoreLock};
