//! The bank's messages in one place: requests of statements, transfers and recurring transfers, and their replies, read
//! from a tape and written on a sheet, as `msg_statement` and `msg_deed` do it.
#![tactic(auto)]

pub use msg_deed::{print_deed, print_reply, read_deed, read_reply};
pub use msg_statement::{
    print_statement, print_statement_reply, read_statement, read_statement_reply,
};
