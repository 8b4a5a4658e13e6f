//! Request files, read and written.

mod asks;
mod reading;
mod signon;
mod writing;

pub use reading::read_request;
pub use writing::write_request;
