//! The memory forms: all that they hold is known, and their calls of given numbers fail.

pub mod clock;
pub mod door;
pub mod keeper;
pub mod link;
pub mod schedule;
pub mod sink;
pub mod source;
pub mod store;
