//! The last entries of one object, from which clients get what came after their token.
//!
//! A `Window` holds so many entries at most: where another one comes, the oldest leaves. It knows the number of the last one
//! that left, which is its floor, and lends the entries above a token. Its contracts say what it answers by the history that
//! it stands for.
#![tactic(auto)]

pub mod laws;
mod since;
mod window;

pub use since::Since;
pub use window::Window;
