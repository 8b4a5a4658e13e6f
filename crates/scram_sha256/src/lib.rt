//! SCRAM-SHA-256, the client's side (RFC 5802, RFC 7677), without binding to a channel.
//!
//! A client says a nonce, and the server answers with a longer one, a salt and a count of rounds. Then each proves to the other
//! that it has the salted password, without showing it. A password's bytes are used as they are, so it should be ASCII: others
//! would have to be prepared (RFC 4013), which isn't done.
#![tactic(auto)]

mod challenge;
mod exchange;
mod hmac;
mod salted;

pub use challenge::{Challenge, MAX_ROUNDS, MIN_ROUNDS, read_challenge};
pub use exchange::{Identity, Replies, ScramFault, client_first, replies_to};
pub use hmac::{Keyed, hmac_sha256};
pub use salted::salted_password;
