//! What a server sends, and what reading its bytes comes to.

use crate::texts::Texts;
use crate::values::Values;

/// A message of a server.
#[derive(Clone, Copy)]
pub enum BackendMessage<'a> {
    /// The client is signed on.
    SignedOn,
    /// How the client may sign on: the names of mechanisms of SASL.
    Methods(Texts<'a>),
    /// What the mechanism asks the client.
    Challenge(&'a [u8]),
    /// The server's own proof.
    Verifier(&'a [u8]),
    /// The number of the server's process, and the key that cancels what it does.
    ProcessKey(u32, u32),
    /// A setting of the server, and its value.
    Setting(&'a [u8], &'a [u8]),
    /// The server waits for the next statement, outside of any transaction.
    Ready,
    /// A statement was parsed.
    Parsed,
    /// A statement was bound to values.
    Bound,
    /// A row.
    Row(Values<'a>),
    /// A statement was done, with its tag, as `INSERT 0 1`.
    Completed(&'a [u8]),
    /// A statement failed, or the connection does. Each text of the report is led by a byte that says what it is.
    Failed(Texts<'a>),
    /// What the server tells beside, in the form of a report.
    Notice(Texts<'a>),
}

/// What bytes are that came from a server.
#[derive(Clone, Copy)]
pub enum Reading<'a> {
    /// A message, of so many bytes at the start of what came.
    Whole(BackendMessage<'a>, usize),
    /// The beginning of a message. More has to come.
    Cut,
    /// No message: the first field that has no form begins at this offset.
    Refused(usize),
}
