//! The fields of kept records: one coding of numbers, flags, texts, uids, accounts, series, transfers and mails, with
//! its readers and writers.
//!
//! Each field has a writer, which appends its coding, and a reader, which gives the value that is at an offset and the
//! offset after it, or the offset of the first field without a form. Where memory is refused, a writer may have appended a
//! part of the coding, and what was there before is kept. The laws tell that reading finds just what the coding says.
#![tactic(auto)]

mod account;
mod bounded;
mod fault;
pub mod laws;
mod mail;
mod number;
mod recurring;
mod text;
mod transfer;
mod uid;

pub use account::{get_acct, put_acct};
pub use bounded::{get_amount, get_count, get_day, get_id, get_moment};
pub use fault::RecordFault;
pub use mail::{get_mail, put_mail};
pub use number::{
    get_bytes, get_flag, get_i32, get_i64, get_u8, get_u16, get_u32, get_u64, put_flag, put_i32,
    put_i64, put_u8, put_u16, put_u32, put_u64,
};
pub use recurring::{get_recur, put_recur};
pub use text::{get_filled_text, get_text, put_text};
pub use transfer::{get_info, put_info};
pub use uid::{get_file_uid, get_given_uid, get_trnuid, put_file_uid, put_trnuid};
