//! The laws, by what they are about.

pub mod asked;
pub mod due;
pub mod files;
pub mod money;
pub mod series;
pub mod states;
pub mod uids;
