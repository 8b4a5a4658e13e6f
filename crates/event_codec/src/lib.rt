//! Events as kept records: one coding, in version 1, with its readers and writers.
//!
//! `write_event` and `read_event` are whole records. Each field has a writer, which appends its coding, and a reader, which
//! gives the value that is at an offset and the offset after it, or the offset of the first field without a form. Where
//! memory is refused, a writer may have appended a part of the coding, and what was before it is kept. The laws say that
//! reading finds just what the coding says, and that a bank's records lead to one state.
#![tactic(auto)]

mod ask;
mod deed;
mod event;
pub mod laws;
mod sync;

pub use ask::{get_asks, put_asks};
pub use event::{read_event, write_event};
pub use record_fields::{
    RecordFault, get_acct, get_file_uid, get_flag, get_i32, get_i64, get_mail, get_recur, get_text,
    get_trnuid, get_u8, get_u16, get_u32, get_u64, put_acct, put_file_uid, put_flag, put_i32,
    put_i64, put_mail, put_recur, put_text, put_trnuid, put_u8, put_u16, put_u32, put_u64,
};
pub use sync::{get_object, put_object};
