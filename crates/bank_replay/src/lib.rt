//! A bank that opens from its kept records. Each record codes an event, which happens again where it is legal after those before
//! it. The book and its accounts are then in the state after all records, or the first record that stops them is reported.
#![tactic(auto)]

mod fault;
pub mod laws;
mod record;
mod records;
mod replay;

pub use fault::OpenFault;
pub use record::record_of;
pub use records::reopen;
