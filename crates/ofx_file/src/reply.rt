//! Reply files, read and written.

mod answers;
mod reading;
mod writing;

pub use reading::read_reply;
pub use writing::{OfxPrinter, write_reply};
