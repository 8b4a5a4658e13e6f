//! Recurring transfers: what is asked, and what is answered (OFX 1.6, "Recurring Transactions").

mod recur;
mod reply;
mod request;

pub(crate) use reply::{
    print_drop_model, print_new_model, print_set_model, read_drop_model, read_new_model,
    read_set_model,
};
pub(crate) use request::{
    print_cancel_model, print_model, print_modify_model, read_cancel_model, read_model,
    read_modify_model,
};
