//! The tree that the tags of a body make: reading its children by name, and printing it.
//!
//! A `Cursor` is an element or aggregate of a tape, and finds its children by name. A `Sheet` is the printed form: each
//! start tag, each element and each end tag on a line of its own.
#![tactic(auto)]

mod children;
mod cursor;
mod escape;
pub mod laws;
mod raw;
mod sheet;

pub use children::Children;
pub use cursor::Cursor;
pub use ofx_types::TreeFault;
pub use sheet::Sheet;
