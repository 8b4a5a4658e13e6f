//! The newest tokens of objects, which callers load without a lock, and the endings of a log that is behind one.
//!
//! A `Board` has a word for each object, its newest token, and one that counts the endings. The one `Writer` publishes a log item
//! by item, each with one store. Each caller has a `Pass`, which knows a prefix of the log, and loads tokens with it. Under the
//! writer's lock the writer hears the pass, publishes, and makes a `Note`, which the pass meets. So what passes know of the log
//! is of one log, no ending has two owners, and no token is older than what its pass has seen. After `Board::new` no call takes
//! memory, and none waits.
#![tactic(auto)]

mod board;
pub mod laws;
mod note;
mod pass;
mod rule;
mod steps;
mod view;
mod writer;

pub use board::Board;
pub use note::Note;
pub use pass::Pass;
pub use view::Load;
pub use writer::Writer;
