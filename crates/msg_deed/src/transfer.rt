//! Transfers inside the bank: what is asked, and what is answered (OFX 1.6, "Intrabank Funds Transfer").

mod info;
mod processing;
mod reply;
mod request;

pub(crate) use info::{DueInfo, print_info, read_due_info_in, read_info_in};
pub(crate) use reply::{print_drop, print_new, print_set, read_drop, read_new, read_set};
pub(crate) use request::{
    print_cancel, print_modify, print_transfer, read_cancel, read_modify, read_transfer,
};
