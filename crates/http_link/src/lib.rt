//! HTTP over a link. The server's half: requests read whole, unless their heads refuse them, and replies written. The client's:
//! requests written, and replies read whole. What a body says is nothing to this crate.
#![tactic(auto)]

mod incoming;
mod posting;
mod refusal;
mod reply;
mod request;
mod response;
mod served;

pub use incoming::Incoming;
pub use posting::post;
pub use refusal::Refusal;
pub use reply::send;
pub use request::{Next, next_request};
pub use response::{CallFault, Response, next_reply};
pub use served::{ServeError, Served};
