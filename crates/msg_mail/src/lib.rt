//! The messages of signon and of mail, read from a tape and written on a sheet (OFX 1.6, "Signon", "Communication Between
//! Customers and Financial Institutions").
#![tactic(auto)]

pub mod laws;
mod mail;
mod signon;

pub use mail::{mail_print_deed, mail_print_reply, mail_read_deed, mail_read_reply};
pub use signon::{print_signon, print_signon_reply, read_signon, read_signon_reply};
