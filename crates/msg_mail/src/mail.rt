//! Mail about an account (BANKMAILTRNRQ, BANKMAILTRNRS) and other mail (MAILTRNRQ, MAILTRNRS), read and written (OFX 1.6,
//! "Communication Between Customers and Financial Institutions").

mod reply;
mod request;
mod text;

pub use reply::{mail_print_reply, mail_read_reply};
pub use request::{mail_print_deed, mail_read_deed};
