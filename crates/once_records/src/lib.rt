//! Used uids and kept replies: what makes a deed run once and a file be answered once.
//!
//! `Uids` are those that the deeds of one event use up while it is answered, which may be refused for want of memory.
//! `Records` are all of the bank, which it looks up and takes in. The memory for them is reserved first, so that what is
//! taken in can't be refused.
#![tactic(auto)]

mod name;
mod records;
mod replies;
mod uids;
mod used;

pub use records::Records;
pub use uids::Uids;
