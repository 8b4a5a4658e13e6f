//! The header of a file: its nine lines, read and written.
//!
//! `read_header` reads the lines that a file begins with and answers what they say, or the first fault, and takes no
//! memory. `write_header` appends the one written form.
#![tactic(auto)]

pub mod laws;
mod line;
mod reading;
mod values;
mod writing;

pub use ofx_types::HeaderFault;
pub use reading::read_header;
pub use values::Header;
pub use writing::write_header;
